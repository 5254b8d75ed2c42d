// Reading a whole script.
ghost use Rattle.std.specs.Prelude.{IfOk, IfErr, All};
ghost use Rattle.script_text.specs.declared.phase.Phase.TheVariants.{Calling};
ghost use Rattle.script_text.specs.Order.{IsOrdered};
ghost use Rattle.script_text.specs.Script.{IsScript, HasFault};
ghost use Rattle.script_text.specs.Calls.{IsLineSoFar};

use crate::fault::ScriptFault;
use crate::line::Mode;
use crate::line_end::{count_lines, first_line};
use crate::phase::Phase;
use crate::reading::{Reading, placed, reading_of};
use crate::script::Script;
use std::alloc::Global;

/// The most bytes that a script may have.
pub const MOST_BYTES: usize = 16_777_216;
/// The most lines that a script may have, the skipped ones counted.
pub const MOST_LINES: usize = 1_000_000;

/// The lines of a script, or its first fault. All room for the lines is taken at once.
pub fn parse(alloc: Global, mode: Mode, bytes: &[u8]) -> Result<Script, ScriptFault>
    ensures good { IfOk result (λ script. IsScript mode bytes.now script) }
    ensures so_far { IfOk result (All IsLineSoFar) }
    ensures ordered { IfOk result (IsOrdered mode Calling) }
    ensures refused { IfErr result (λ fault. HasFault mode bytes.now fault) }
{
    if bytes.len() > MOST_BYTES {
        return Err(ScriptFault::TooLong { line: 0 });
    }
    let count = count_lines(bytes);
    if count > MOST_LINES {
        return Err(ScriptFault::TooLong { line: 0 });
    }
    let mut lines = Vec::with_capacity(alloc, count)?;
    let mut rest = bytes;
    let mut number: u64 = 0;
    let mut phase = Phase::Calling;
    'lines: while !rest.is_empty() {
        let (line, after) = first_line(rest);
        number += 1;
        match placed(mode, phase, reading_of(mode, line)) {
            Reading::Skipped => {}
            Reading::Says(said) => {
                lines.push(said)?;
                phase = phase.after(said);
            }
            Reading::BadWord => return Err(ScriptFault::Word { line: number }),
            Reading::BadNumber => return Err(ScriptFault::Number { line: number }),
            Reading::BadCaller => return Err(ScriptFault::Caller { line: number }),
            Reading::BadOrder => return Err(ScriptFault::Order { line: number }),
        }
        rest = after;
    }
    Ok(Script::new(lines))
}
