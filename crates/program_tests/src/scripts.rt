//! Edges of the grammar; what is expected was worked out by hand.
use crate::rows::{Tells, script_of, shown, walk};
use row_file::first_word;
use script_text::{Mode, parse};
use std::alloc::Global;
use std::test::Fail;

/// Scripts, of a play or of a serve.
#[derive(Drop)]
struct Scripts;

impl Tells for Scripts {
    fn told(&mut self, alloc: Global, asked: &str) -> Result<String, Fail> {
        let (name, text) = first_word(asked);
        let mode = if name == "serve" {
            Mode::Serve
        } else {
            Mode::Play
        };
        let script = script_of(alloc, text)?;
        match parse(alloc, mode, &script) {
            Ok(script) => shown(alloc, &script.as_slice()),
            Err(fault) => Ok(format!(in alloc; "{fault}")?),
        }
    }
}

#[test]
fn scripts_are_read_or_refused(rt: HostRuntime) -> Result<(), Fail> {
    walk(rt.alloc(), &mut Scripts, ROWS)
}

/// Scripts with a `;` for each line feed, and how they are read, or why they are refused.
const ROWS: &str = "\
# One line, written in different ways.
play 1 get 5; -> [Call(1, Get(5))]
serve 1 get 5; -> [Call(1, Get(5))]
play 1 get 5 -> [Call(1, Get(5))]
serve 1 get 5 -> [Call(1, Get(5))]
play 1 get 5\r; -> [Call(1, Get(5))]
serve 1 get 5\r; -> [Call(1, Get(5))]
play  1  get   5 ; -> [Call(1, Get(5))]
serve  1  get   5 ; -> [Call(1, Get(5))]
play 1 get 5    -> [Call(1, Get(5))]
serve 1 get 5    -> [Call(1, Get(5))]
play ;1 get 5;; -> [Call(1, Get(5))]
serve ;1 get 5;; -> [Call(1, Get(5))]
play \r;  \r;1 get 5\r; -> [Call(1, Get(5))]
serve \r;  \r;1 get 5\r; -> [Call(1, Get(5))]
play # 1 get 6;1 get 5 -> [Call(1, Get(5))]
serve # 1 get 6;1 get 5 -> [Call(1, Get(5))]
play #;   ;1 get 5;# -> [Call(1, Get(5))]
serve #;   ;1 get 5;# -> [Call(1, Get(5))]
play 01 get 05; -> [Call(1, Get(5))]
serve 01 get 05; -> [Call(1, Get(5))]
play 1 get 00000000000000000005; -> [Call(1, Get(5))]
serve 1 get 00000000000000000005; -> [Call(1, Get(5))]
# No lines; and lines of all forms, as they are read.
play  -> []
serve  -> []
play 1 insert 0 18446744073709551615;;1 get 5;# end;1 insert 7 8 -> [Call(1, Insert(0, 18446744073709551615)), Call(1, Get(5)), Call(1, Insert(7, 8))]
play 64 get 5;2 remove 5;64 insert 5 6;step 64 3;until 2 end 1;step 63 0; -> [Call(64, Get(5)), Call(2, Remove(5)), Call(64, Insert(5, 6)), Step(64, 3), Until(2, End, 1), Step(63, 0)]
play 1 get 5;1 insert 6 7;# calls;1 update 6 8;1 remove 5;step 1 3;until 0 store 1;until 1 exchange 2;until 1 flush 18446744073709551615;until 1 fence 4;until 1 draw 0;until 1 end 6;until 1 at 100;;close;step 0 9;until 0 at 0;#; cut 77 ;;# end; -> [Call(1, Get(5)), Call(1, Insert(6, 7)), Call(1, Update(6, 8)), Call(1, Remove(5)), Step(1, 3), Until(0, Store, 1), Until(1, Exchange, 2), Until(1, Flush, 18446744073709551615), Until(1, Fence, 4), Until(1, Draw, 0), Until(1, End, 6), At(1, 100), Close, Step(0, 9), At(0, 0), Cut(77)]
serve 1 get 5;1 remove 5;cut 0 -> [Call(1, Get(5)), Call(1, Remove(5)), Cut(0)]
# None of the forms of calls, in a play and in a serve.
play 1 get -> line 1: not one of the forms
serve 1 get -> line 1: not one of the forms
play 1 get 5 6 -> line 1: not one of the forms
serve 1 get 5 6 -> line 1: not one of the forms
play 1 GET 5 -> line 1: not one of the forms
serve 1 GET 5 -> line 1: not one of the forms
play 1 insert 5 -> line 1: not one of the forms
serve 1 insert 5 -> line 1: not one of the forms
play 1 insert 5 6 7 -> line 1: not one of the forms
serve 1 insert 5 6 7 -> line 1: not one of the forms
play 1 get 5 # -> line 1: not one of the forms
serve 1 get 5 # -> line 1: not one of the forms
play 1 get\t5 -> line 1: not one of the forms
serve 1 get\t5 -> line 1: not one of the forms
play \t -> line 1: not one of the forms
serve \t -> line 1: not one of the forms
play \r -> line 1: not one of the forms
serve \r -> line 1: not one of the forms
play  # -> line 1: not one of the forms
serve  # -> line 1: not one of the forms
play  # 1 get 5 -> line 1: not one of the forms
serve  # 1 get 5 -> line 1: not one of the forms
play x -> line 1: not one of the forms
serve x -> line 1: not one of the forms
play x get -> line 1: not one of the forms
serve x get -> line 1: not one of the forms
play 1 update 5 -> line 1: not one of the forms
serve 1 update 5 -> line 1: not one of the forms
play 1 remove 5 6 -> line 1: not one of the forms
serve 1 remove 5 6 -> line 1: not one of the forms
play 1 remove -> line 1: not one of the forms
serve 1 remove -> line 1: not one of the forms
# None of the forms of schedules.
play fuse 1 5 -> line 1: not one of the forms
serve fuse 1 5 -> line 1: not one of the forms
play 1 step 5 -> line 1: not one of the forms
serve 1 step 5 -> line 1: not one of the forms
play step 1 -> line 1: not one of the forms
serve step 1 -> line 1: not one of the forms
play step 1 2 3 -> line 1: not one of the forms
serve step 1 2 3 -> line 1: not one of the forms
play 1 until flush 3 -> line 1: not one of the forms
serve 1 until flush 3 -> line 1: not one of the forms
play until 1 flush -> line 1: not one of the forms
serve until 1 flush -> line 1: not one of the forms
play until x halt y -> line 1: not one of the forms
serve until x halt y -> line 1: not one of the forms
play until 7 Flush 3 -> line 1: not one of the forms
serve until 7 Flush 3 -> line 1: not one of the forms
play until insert 5 6 -> line 1: not one of the forms
serve until insert 5 6 -> line 1: not one of the forms
play until 1 flush 3 4 -> line 1: not one of the forms
serve until 1 flush 3 4 -> line 1: not one of the forms
play until at 5 -> line 1: not one of the forms
serve until at 5 -> line 1: not one of the forms
play close 1 -> line 1: not one of the forms
serve close 1 -> line 1: not one of the forms
play Close -> line 1: not one of the forms
serve Close -> line 1: not one of the forms
play cut -> line 1: not one of the forms
serve cut -> line 1: not one of the forms
play cut 1 2 -> line 1: not one of the forms
serve cut 1 2 -> line 1: not one of the forms
# Something else than a number.
play 1 get x -> line 1: not a number
play x get 5 -> line 1: not a number
play 65 get x -> line 1: not a number
play 0 insert 5 x -> line 1: not a number
play 1 insert x 5 -> line 1: not a number
play \t1 get 5 -> line 1: not a number
play 1 get 5\r -> line 1: not a number
play 1 get 5\r\r; -> line 1: not a number
play 1 get \r5; -> line 1: not a number
play 1 get -5 -> line 1: not a number
play 1 get 000000000000000000005 -> line 1: not a number
play 1 get 18446744073709551616 -> line 1: not a number
play 1 get 99999999999999999999 -> line 1: not a number
play 1 update 5 x -> line 1: not a number
play 1 remove x -> line 1: not a number
play step x 5 -> line 1: not a number
play step 77 x -> line 1: not a number
play step get 5 -> line 1: not a number
play until x end 5 -> line 1: not a number
play until 77 end x -> line 1: not a number
play until 77 at x -> line 1: not a number
play until insert at 5 -> line 1: not a number
play cut insert 5 6 -> line 1: not a number
play cut x -> line 1: not a number
play cut 18446744073709551616 -> line 1: not a number
# A caller out of range.
play 0 get 5 -> line 1: no such caller
play 65 get 5 -> line 1: no such caller
play 257 get 5 -> line 1: no such caller
play 65 insert 5 6 -> line 1: no such caller
play 18446744073709551615 get 5 -> line 1: no such caller
play 0 update 5 6 -> line 1: no such caller
play 65 remove 5 -> line 1: no such caller
play step 65 5 -> line 1: no such caller
play step 256 5 -> line 1: no such caller
play until 65 flush 5 -> line 1: no such caller
play until 18446744073709551615 at 5 -> line 1: no such caller
# Lines that may not stand behind those before them, in a play and in a serve.
play step 1 1;1 get 5 -> line 2: out of order
play 1 get 5;until 1 end 1;;1 get 5 -> line 4: out of order
play close;1 get 5 -> line 2: out of order
play cut 1;1 get 5 -> line 2: out of order
play cut 1;step 0 1 -> line 2: out of order
play cut 1;close -> line 2: out of order
play cut 1;#;cut 1 -> line 3: out of order
play close;close -> line 2: out of order
play close;step 0 1;close -> line 3: out of order
play close;step 1 1 -> line 2: out of order
play close;until 0 end 1;until 2 end 1 -> line 3: out of order
play 2 get 5;step 1 1;64 get 5 -> line 3: out of order
play close;until 1 at 1 -> line 2: out of order
serve step 1 1 -> line 1: out of order
serve 1 get 5;until 0 end 1 -> line 2: out of order
serve until 1 at 1 -> line 1: out of order
serve 1 get 5;close -> line 2: out of order
serve cut 1;1 get 5 -> line 2: out of order
# The first fault is told.
play 1 get 5;;# note\r;65 get 5;1 get; -> line 4: no such caller
serve 1 get 5;1 get;65 get 5 -> line 2: not one of the forms
play close;step 1 1;1 get -> line 2: out of order
play close;0 get 5;close -> line 2: no such caller
# As many lines as may be, and one more.
play lines 1000000 -> []
play lines 1000001 -> line 0: too many bytes or lines
";
