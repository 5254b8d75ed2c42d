//! The machine.

ghost use Rattle.std.specs.Prelude.{◌≡◌, ◌↔◌, IsTrue, true};
ghost use Rattle.op_core.specs.declared.want.Want.TheVariants as want;
ghost use Rattle.stash_op.specs.Steps.{nothing, begun, wanted, end_at, is_over, needs_split, kept_of};

use crate::asking::want_of;
use crate::step::{Seen, Stage, StashBucket, StashEnd, StashStep};
use crate::taking::{at_first, end_of, take_in};
use bucket_meta::words::MARK_PLACE;
use op_core::{Ans, Machine, Want};
use phase::{Kept, Record, give_next};

/// An insert that found no slot and nothing to move goes on: its record comes to a stash bucket.
#[derive(Clone, Copy)]
pub struct StashOp {
    /// What was kept.
    pub kept: Kept,
    /// Where it stands.
    pub stage: Stage,
}

/// What was seen when it begins: what was kept.
fn nothing(kept: &Kept) -> Seen
    ensures { result ≡ nothing kept.now }
{
    Seen {
        held: kept.held,
        buckets: kept.buckets,
        bucket: StashBucket::First,
        written: Record {
            slot: 0,
            key: 0,
            value: 0,
            fingers: 0,
            published: MARK_PLACE as u8,
            mark: 0,
        },
    }
}

/// Whether nothing more is to be done.
fn is_over(step: &StashStep) -> bool
    ensures { result ≡ is_over step.now }
{
    match step {
        StashStep::Ended(_) => true,
        StashStep::Give(held, _) => give_next(held).is_none(),
        _ => false,
    }
}

impl StashOp {
    /// Goes on from what an insert kept that found no slot and nothing to move.
    pub fn new(kept: Kept) -> StashOp
        ensures { result ≡ begun kept }
    {
        let stage = at_first(&kept, &nothing(&kept), kept.held.first);
        StashOp { kept, stage }
    }

    /// Whether it wants nothing more.
    pub fn wants_nothing(&self) -> bool
        ensures { IsTrue result ↔ (wanted self.now ≡ want.Done) }
    {
        is_over(&self.stage.step)
    }

    /// How it ended. It has to want nothing more.
    pub fn end(self) -> StashEnd
        requires { wanted self ≡ want.Done }
        ensures { result ≡ end_at self.stage.step }
    {
        match self.stage.step {
            StashStep::Ended(end) => end,
            StashStep::Give(_, ending) => end_of(ending),
            _ => StashEnd::Off,
        }
    }

    /// Whether it found both stash buckets full and keeps its locks: another machine goes on with what is
    /// [`kept`](StashOp::kept).
    pub fn hands_on(&self) -> bool
        ensures is { result ≡ needs_split self.now.stage.step }
        ensures no_more { result ≡ true → wanted self.now ≡ want.Done }
    {
        matches!(self.stage.step, StashStep::Ended(StashEnd::NeedSplit(_)))
    }

    /// What it keeps then.
    pub fn kept(&self) -> Kept
        ensures { result ≡ kept_of self.now }
    {
        Kept {
            held: self.stage.seen.held,
            buckets: self.stage.seen.buckets,
            ..self.kept
        }
    }
}

impl Machine for StashOp {
    ghost use Rattle.stash_op.specs.Steps.{taken};

    ghost wanted = { wanted };

    ghost taken = { taken };

    fn want(&self) -> Want {
        want_of(&self.kept, &self.stage.seen, &self.stage.step)
    }

    fn take(&mut self, ans: Ans) {
        take_in(&self.kept, &mut self.stage, ans)
    }
}
