//! What a displacement wants in each of its steps.

ghost use Rattle.std.specs.Prelude.{◌≡◌};
ghost use Rattle.move_op.specs.Steps.{wanted_in};

use crate::shift::{place_of, record_of, target_of};
use crate::step::MoveStep;
use op_core::Want;
use phase::{Kept, give_want, load_want, make_want, take_want};

/// What a displacement wants.
pub fn want_of(kept: &Kept, step: &MoveStep) -> Want
    ensures { result ≡ wanted_in kept.now step.now }
{
    match step {
        MoveStep::Lock(direction, take) => take_want(kept.lock_of(target_of(*direction)), take),
        MoveStep::Fill(direction, load) => load_want(kept.lock_of(target_of(*direction)), load),
        MoveStep::CountSpent => Want::Load(kept.site.geometry.counter_word()),
        MoveStep::Make(shift, leg, make) => {
            let lock = kept.lock_of(place_of(shift.direction, *leg));
            make_want(lock, &record_of(shift, *leg), *make)
        }
        MoveStep::Draw(_) => Want::Draw,
        MoveStep::Give(held, _) => give_want(&kept.site, kept.hash, kept.segment, held),
        MoveStep::Ended(_) => Want::Done,
    }
}
