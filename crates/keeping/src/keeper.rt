//! The restart and the close of the image of a memory.

ghost use Rattle.std.specs.Prelude.{◌≡◌, ◌≢◌, ℕ, ◌+◌, ◌≤◌, slice_index};
ghost use Rattle.trace.specs.Events.{Words, Trace};
ghost use Rattle.image_layout.specs.Places.{state_word};
ghost use Rattle.map_model.specs.Map.{Map};
ghost use Rattle.map_model.specs.Weave.{keeper_number};
ghost use Rattle.sound_image.specs.Image.{IsSoundImage};
ghost use Rattle.sound_image.specs.Segments.{frame_of, IsClean};
ghost use Rattle.session.specs.Left.{HasPairsOf};
ghost use Rattle.restart_op.specs.Restart.{started_for};
ghost use Rattle.restart_op.specs.Restarted.{HasStarted};
ghost use Rattle.image_layout.specs.StateWord.{first_version, with_marker};
ghost use Rattle.pm_trace.specs.Memory.{unfenced};
ghost use Rattle.pm_trace.specs.TraceOf.{IsTraceOf};
ghost use Rattle.keeping.specs.Kept.{IsTraced, image_of, marked_image, IsSettled, steps_for, swept_slots, IsRestartedFrom, IsClosedFrom};

use crate::doing::do_event;
use crate::tally::Steps;
use map_model::KEEPER_NUMBER;
use op_core::{Machine, Want};
use pm_trace::Device;
use restart_op::{CloseOp, RestartOp, Started};
use std::sync::ledger::Ledger;

/// Counts the step that an event takes.
fn count<L: Ledger>(want: Want, steps: &mut Steps<L>)
    ensures { steps.new ≡ steps.old + steps_for want }
{
    match want {
        Want::Load(_) => steps.tick(),
        _ => {}
    }
}

/// Restarts the image of a memory: clears its clean marker, and waits until that is settled; an image that was not closed gets the next version, and
/// where there is none above its own, 255, the headers of all slots lose theirs before. A step is taken for the state word, and in such a
/// sweep one more for each slot: these are the words of the image that it turns to.
pub fn restart<L: Ledger>(device: &mut Device, steps: &mut Steps<L>) -> Started
    requires traced { IsTraced device.old }
    requires sound { IsSoundImage device.old.shape (image_of device.old) }
    requires settled { IsSettled device.old }
    requires fenced { unfenced keeper_number device.old ≡ 0 }
    ensures started { result ≡ started_for (slice_index device.old.newest state_word) }
    ensures version { first_version ≤ result.version }
    ensures steps { steps.new ≡ steps.old + 1 + swept_slots device.old.shape result }
    ensures words { HasStarted device.old.shape result (slice_index device.old.newest) (slice_index device.new.newest) }
    ensures pairs { (m : Map) → HasPairsOf device.old.shape (slice_index (image_of device.old)) m
        → HasPairsOf device.new.shape (slice_index (image_of device.new)) m }
    ensures sound { IsSoundImage device.new.shape (image_of device.new) }
    ensures settled { IsSettled device.new × (unfenced keeper_number device.new ≡ 0) }
    ensures follows { (start : Words) (es : Trace) → IsTraceOf start es device.old → IsRestartedFrom start es device.old device.new }
    ensures shape { device.new.shape ≡ device.old.shape }
    ensures callers { device.new.callers ≡ device.old.callers }
{
    let mut op = RestartOp::new(device.geometry());
    loop {
        match op.want() {
            Want::Done => return op.end(),
            want => {
                count(want, steps);
                let ans = do_event(device, KEEPER_NUMBER, want);
                op.take(ans);
            }
        }
    }
}

/// Closes the image of a memory: settles all of it, and then sets its clean marker and settles that.
pub fn close(device: &mut Device)
    requires traced { IsTraced device.old }
    requires fenced { unfenced keeper_number device.old ≡ 0 }
    requires sound { IsSoundImage device.old.shape (marked_image device.old) }
    ensures marked { slice_index device.new.newest state_word ≡ with_marker (slice_index device.old.newest state_word) }
    ensures others { (w : ℕ) → w ≢ state_word → slice_index device.new.newest w ≡ slice_index device.old.newest w }
    ensures image { image_of device.new ≡ marked_image device.old }
    ensures pairs { (m : Map) → HasPairsOf device.old.shape (slice_index (image_of device.old)) m
        → HasPairsOf device.new.shape (slice_index (image_of device.new)) m }
    ensures settled { IsSettled device.new }
    ensures sound { IsSoundImage device.new.shape (image_of device.new) }
    ensures clean { IsClean (frame_of device.new.shape (slice_index (image_of device.new))) }
    ensures follows { (start : Words) (es : Trace) → IsTraceOf start es device.old → IsClosedFrom start es device.old device.new }
    ensures shape { device.new.shape ≡ device.old.shape }
    ensures callers { device.new.callers ≡ device.old.callers }
{
    let mut op = CloseOp::new(device.geometry());
    loop {
        match op.want() {
            Want::Done => return,
            want => {
                let ans = do_event(device, KEEPER_NUMBER, want);
                op.take(ans);
            }
        }
    }
}
