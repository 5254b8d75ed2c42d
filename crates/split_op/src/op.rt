//! The machine, and what it wants.

ghost use Rattle.std.specs.Prelude.{◌≡◌};
ghost use Rattle.split_op.specs.Fits.{hands_on_at};
ghost use Rattle.split_op.specs.Steps.{split_of, wanted, taken, end_of};

use crate::batch::{HEADER_NUMBER, due};
use crate::copied::Copied;
use crate::copy::side_words;
use crate::step::{SplitEnd, SplitStep};
use crate::taking::go_on;
use enclose_op::Enclosed;
use image_layout::{BUCKETS, FREE_GUARD, bucket_place};
use op_core::{Ans, Machine, Want};
use way::slot_word;

/// An enclosed segment is split, up to the copies.
#[derive(Clone, Copy)]
pub struct SplitOp {
    /// The segment, the slot of its side once one is found, and what is copied there.
    pub copied: Copied,
    /// The lock words of the slot, as they were loaded.
    pub locks: [u64; BUCKETS as usize],
    /// Where it stands.
    pub step: SplitStep,
}

impl SplitOp {
    /// Goes on from an enclosed segment. The words of the side are made of its records.
    pub fn new(whole: Enclosed) -> SplitOp
        ensures { result ≡ split_of whole }
    {
        let words = side_words(&whole);
        SplitOp {
            copied: Copied {
                whole,
                side: 0,
                words,
            },
            locks: [0; BUCKETS as usize],
            step: SplitStep::Take,
        }
    }

    /// How it ended, once it has.
    pub fn end(self) -> Option<SplitEnd>
        ensures { result ≡ end_of self }
    {
        match self.step {
            SplitStep::Ended(end) => Some(end),
            _ => None,
        }
    }

    /// Whether the side is made: another machine goes on with what is [`copied`](SplitOp::copied).
    pub fn hands_on(&self) -> bool
        ensures { result ≡ hands_on_at self.now.step }
    {
        matches!(self.step, SplitStep::Ended(SplitEnd::Copied))
    }
}

/// What a split wants.
fn want_of(op: &SplitOp) -> Want
    ensures { result ≡ wanted op.now }
{
    let geometry = &op.copied.whole.site.geometry;
    match &op.step {
        SplitStep::Take => Want::Exchange(
            geometry.allocation_guard(),
            FREE_GUARD,
            u64::from(op.copied.whole.site.caller),
        ),
        SplitStep::Search(slot) => Want::Load(slot_word(geometry, *slot, HEADER_NUMBER)),
        SplitStep::Count => Want::Load(geometry.counter_word()),
        SplitStep::Return(_) | SplitStep::Release => Want::Store(
            geometry.allocation_guard(),
            FREE_GUARD,
        ),
        SplitStep::Look(bucket) => Want::Load(slot_word(
            geometry,
            op.copied.side,
            bucket_place(*bucket % BUCKETS),
        )),
        SplitStep::Put(batch, rounds) => rounds.event(due(&op.copied, &op.locks, *batch)),
        SplitStep::Back(give, _) => op.copied.whole.give(*give),
        SplitStep::Ended(_) => Want::Done,
    }
}

impl Machine for SplitOp {
    ghost wanted = { wanted };

    ghost taken = { taken };

    fn want(&self) -> Want {
        want_of(self)
    }

    fn take(&mut self, ans: Ans) {
        go_on(self, ans);
    }
}
