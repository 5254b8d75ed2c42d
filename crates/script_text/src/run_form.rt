// The forms of a schedule's runs.
ghost use Rattle.std.specs.Prelude.{◌≡◌};
ghost use Rattle.script_text.specs.Readings.{aim_named, run_line, says_run, says_until};

use crate::callers::may_have_runs;
use crate::line::{Counted, Line};
use crate::reading::Reading;

const STORE: &[u8] = b"store";

const EXCHANGE: &[u8] = b"exchange";

const FLUSH: &[u8] = b"flush";

const FENCE: &[u8] = b"fence";

const DRAW: &[u8] = b"draw";

const END: &[u8] = b"end";

const AT: &[u8] = b"at";

// What a caller runs to.
#[derive(Clone, Copy)]
pub(crate) enum Aim {
    // So many events.
    Steps,
    // So many events of this kind.
    Events(Counted),
    // The next store to this word.
    StoreTo,
}

// What an `until` waits for, by its name.
fn aim_of(name: &[u8]) -> Option<Aim>
    ensures { result ≡ aim_named name.now }
{
    if name == STORE {
        Some(Aim::Events(Counted::Store))
    } else if name == EXCHANGE {
        Some(Aim::Events(Counted::Exchange))
    } else if name == FLUSH {
        Some(Aim::Events(Counted::Flush))
    } else if name == FENCE {
        Some(Aim::Events(Counted::Fence))
    } else if name == DRAW {
        Some(Aim::Events(Counted::Draw))
    } else if name == END {
        Some(Aim::Events(Counted::End))
    } else if name == AT {
        Some(Aim::StoreTo)
    } else {
        None
    }
}

// The line that lets a caller run to an aim.
fn line_to(aim: Aim, caller: u8, number: u64) -> Line
    ensures { result ≡ run_line aim caller number }
{
    match aim {
        Aim::Steps => Line::Step(caller, number),
        Aim::Events(event) => Line::Until(caller, event, number),
        Aim::StoreTo => Line::At(caller, number),
    }
}

// A run of a caller, where its numbers are numbers and the caller is in range.
pub(crate) fn run_reading(aim: Aim, caller: Option<u64>, number: Option<u64>) -> Reading
    ensures { result ≡ says_run aim caller number }
{
    match (caller, number) {
        (Some(caller), Some(number)) => {
            if may_have_runs(caller) {
                Reading::Says(line_to(aim, caller as u8, number))
            } else {
                Reading::BadCaller
            }
        }
        _ => Reading::BadNumber,
    }
}

// A run to an aim that has a name.
pub(crate) fn until_reading(name: &[u8], caller: Option<u64>, number: Option<u64>) -> Reading
    ensures { result ≡ says_until (aim_named name.now) caller number }
{
    match aim_of(name) {
        Some(aim) => run_reading(aim, caller, number),
        None => Reading::BadWord,
    }
}
