//! Words in memory as the machines of caller 0 work on them.

ghost use Rattle.std.specs.Prelude.{◌≡◌, length};
ghost use Rattle.world.specs.Wants.{answer_to, word_of, words_after};
ghost use Rattle.image_layout.specs.Places.{Shape};
ghost use Rattle.map_model.specs.Weave.{keeper_number};
ghost use Rattle.vlock.specs.Ruling.{word};
ghost use Rattle.shared_image.specs.Memory.{IsPlain};

use op_core::{Ans, Want};

/// Does the event that a machine wants, and answers it. Nothing but the words is there, so what is flushed has nothing to wait for.
pub(crate) fn do_event(words: &mut Vec<u64>, want: Want) -> Ans
    requires plain { IsPlain (length words.old.items) want }
    ensures answer { (shape : Shape) → result ≡ answer_to want (word words.old.items (word_of shape want)) }
    ensures words { (shape : Shape) → word words.new.items ≡ words_after shape want keeper_number (word words.old.items) }
    ensures length { length words.new.items ≡ length words.old.items }
{
    match want {
        Want::Load(at) => Ans::Value(words[at as usize]),
        Want::Store(at, value) => {
            words[at as usize] = value;
            Ans::Passed
        }
        Want::Flush(_) | Want::Fence => Ans::Passed,
        _ => unreachable!(),
    }
}
