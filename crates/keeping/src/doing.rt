//! One event on the memory.

ghost use Rattle.std.specs.Prelude.{◌≡◌};
ghost use Rattle.world.specs.Wants.{answer_to, event_of};
ghost use Rattle.pm_trace.specs.TraceOf.{Follows};
ghost use Rattle.keeping.specs.Asked.{MayBeAsked, found_by};

use op_core::{Ans, Want};
use pm_trace::Device;

/// Does the event that a caller wants, and answers it. A load is seen to here, since most events are loads, and what the others need is then got
/// ready in a call of their own.
#[inline]
pub fn do_event(device: &mut Device, caller: u8, want: Want) -> Ans
    requires { MayBeAsked caller want device.old }
    ensures answer { result ≡ answer_to want (found_by want device.old) }
    ensures follows { Follows device.old (event_of device.old.shape want (found_by want device.old) caller) device.new }
    ensures shape { device.new.shape ≡ device.old.shape }
    ensures callers { device.new.callers ≡ device.old.callers }
{
    match want {
        Want::Load(word) => Ans::Value(device.load(word)),
        _ => do_any_event(device, caller, want),
    }
}

/// Does any event that a caller wants, and answers it.
#[inline(never)]
fn do_any_event(device: &mut Device, caller: u8, want: Want) -> Ans
    requires { MayBeAsked caller want device.old }
    ensures answer { result ≡ answer_to want (found_by want device.old) }
    ensures follows { Follows device.old (event_of device.old.shape want (found_by want device.old) caller) device.new }
    ensures shape { device.new.shape ≡ device.old.shape }
    ensures callers { device.new.callers ≡ device.old.callers }
{
    match want {
        Want::Load(word) => Ans::Value(device.load(word)),
        Want::Store(word, value) => {
            device.store(caller, word, value);
            Ans::Passed
        }
        Want::Exchange(word, expected, new) => {
            match device.exchange(caller, word, expected, new) {
                Ok(()) => Ans::Won,
                Err(seen) => Ans::Lost(seen),
            }
        }
        Want::Flush(line) => {
            device.flush(caller, line);
            Ans::Passed
        }
        Want::Fence => {
            device.fence(caller);
            Ans::Passed
        }
        Want::Draw => Ans::Drawn(device.draw()),
        Want::Power => Ans::Value(device.load(device.geometry().power_word())),
        Want::Done => unreachable!(),
    }
}
