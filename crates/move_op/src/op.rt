//! The machine.

ghost use Rattle.std.specs.Prelude.{◌≡◌, ◌↔◌, IsTrue, true};
ghost use Rattle.op_core.specs.declared.want.Want.TheVariants as want;
ghost use Rattle.move_op.specs.declared.step.MoveEnd.TheVariants.{NoMove};
ghost use Rattle.move_op.specs.Steps.{begun, wanted, end_at, is_over, is_without_move};

use crate::asking::want_of;
use crate::step::{Direction, MoveEnd, MoveStep};
use crate::taking::{end_of, take_in};
use op_core::{Ans, Machine, Want};
use phase::{Kept, Take, give_next};

/// Room is made for the record of an insert that found home and probing bucket full.
#[derive(Clone, Copy)]
pub struct MoveOp {
    /// What is kept: the insert, its locks, and the words of their buckets.
    pub kept: Kept,
    /// Where it stands.
    pub step: MoveStep,
}

/// Whether nothing more is to be done.
fn is_over(step: &MoveStep) -> bool
    ensures { result ≡ is_over step.now }
{
    match step {
        MoveStep::Ended(_) => true,
        MoveStep::Give(held, _) => give_next(held).is_none(),
        _ => false,
    }
}

impl MoveOp {
    /// Goes on from what an insert kept that found no slot.
    pub fn new(kept: Kept) -> MoveOp
        ensures { result ≡ begun kept }
    {
        MoveOp {
            kept,
            step: MoveStep::Lock(Direction::Forward, Take::Look),
        }
    }

    /// Whether it wants nothing more.
    pub fn wants_nothing(&self) -> bool
        ensures { IsTrue result ↔ (wanted self.now ≡ want.Done) }
    {
        is_over(&self.step)
    }

    /// How it ended. It has to want nothing more.
    pub fn end(self) -> MoveEnd
        requires { wanted self ≡ want.Done }
        ensures { result ≡ end_at self.step }
    {
        match self.step {
            MoveStep::Ended(end) => end,
            MoveStep::Give(_, ending) => end_of(ending),
            _ => MoveEnd::Off,
        }
    }

    /// Whether no record can move and all locks are kept: another machine goes on with what is [`kept`](MoveOp::kept).
    pub fn hands_on(&self) -> bool
        ensures is { result ≡ is_without_move self.now.step }
        ensures no_more { result ≡ true → wanted self.now ≡ want.Done }
        ensures no_move { result ≡ true → end_at self.now.step ≡ NoMove }
    {
        matches!(self.step, MoveStep::Ended(MoveEnd::NoMove))
    }

    /// What is kept: the insert, the locks that were taken, and the words of their buckets.
    pub fn kept(&self) -> Kept
        ensures { result ≡ self.now.kept }
    {
        self.kept
    }
}

impl Machine for MoveOp {
    ghost use Rattle.move_op.specs.Steps.{taken};

    ghost wanted = { wanted };

    ghost taken = { taken };

    fn want(&self) -> Want {
        want_of(&self.kept, &self.step)
    }

    fn take(&mut self, ans: Ans) {
        take_in(self, ans)
    }
}
