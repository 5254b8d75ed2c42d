//! The machine, and its steps.

ghost use Rattle.std.specs.Prelude.{◌≡◌, ◌↔◌, IsTrue, true};
ghost use Rattle.op_core.specs.declared.want.Want.TheVariants as want;
ghost use Rattle.repair_op.specs.Steps.{begun, settle_wanted, settled, busy, headed, linked, met_side, freed, unmarked, wanted, taken, end_of, is_guarded};

use crate::guarded::Guarded;
use crate::heads::{is_new_side, is_ready_side};
use crate::step::{RepairEnd, RepairStep, Settling};
use image_layout::FREE_GUARD;
use op_core::{Ans, Machine, Want, Why};
use segment_head::link::linked_slot;
use segment_head::split::with_state;
use segment_head::word::{FREE, NORMAL, SPLITTING, state_of, version_of};
use trace::line_of;
use way::head_word;
use world::Site;

/// The beginning of a repair.
#[derive(Clone, Copy)]
pub struct RepairOp {
    /// The segment that is repaired.
    pub guarded: Guarded,
    /// Where it stands.
    pub step: RepairStep,
}

/// The event that comes next, to settle this value in this word.
fn settle_want(settling: Settling, word: u64, value: u64) -> Want
    ensures { result ≡ settle_wanted settling word value }
{
    match settling {
        Settling::Store => Want::Store(word, value),
        Settling::Flush => Want::Flush(line_of(word)),
        Settling::Fence => Want::Fence,
    }
}

/// What comes after it; none where the word is settled.
fn settled(settling: Settling) -> Option<Settling>
    ensures { result ≡ settled settling }
{
    match settling {
        Settling::Store => Some(Settling::Flush),
        Settling::Flush => Some(Settling::Fence),
        Settling::Fence => None,
    }
}

/// The end of an attempt that found this word of a guard taken, by this number.
fn busy(word: u64, seen: u64) -> RepairEnd
    ensures { result ≡ busy word seen }
{
    RepairEnd::Again(Why::Busy { word, seen })
}

impl RepairOp {
    /// A repair of the segment in a slot that has done nothing yet.
    pub fn new(site: Site, segment: u64) -> RepairOp
        ensures { result ≡ begun site segment }
    {
        RepairOp {
            guarded: Guarded {
                site,
                segment,
                head: 0,
                side: None,
            },
            step: RepairStep::Guard,
        }
    }

    /// After the load of the header: the segment may have the image's version by now; one that is not splitting is handed on as it is.
    fn meet_head(&mut self, head: u64)
        ensures { self.new ≡ headed self.old head }
    {
        self.guarded.head = head;
        self.step = if version_of(head) == self.guarded.site.version {
            RepairStep::Give(RepairEnd::Current)
        } else if state_of(head) == SPLITTING {
            RepairStep::Link
        } else {
            RepairStep::Ended(RepairEnd::Guarded)
        };
    }

    /// After the load of the header of the slot that is linked.
    fn meet_side(&mut self, slot: u64, side: u64)
        ensures { self.new ≡ met_side self.old slot side }
    {
        let head = self.guarded.head;
        if is_ready_side(head, side) {
            self.guarded.side = Some(slot);
            self.step = RepairStep::Ended(RepairEnd::Guarded);
        } else if is_new_side(head, side) {
            self.step = RepairStep::Slots(slot, side);
        } else {
            self.step = RepairStep::Unmark(Settling::Store);
        }
    }

    /// After an event by which the segment becomes normal.
    fn unmark(&mut self, settling: Settling)
        ensures { self.new ≡ unmarked self.old settling }
    {
        match settled(settling) {
            Some(more) => self.step = RepairStep::Unmark(more),
            None => {
                self.guarded.head = with_state(self.guarded.head, NORMAL);
                self.step = RepairStep::Ended(RepairEnd::Guarded);
            }
        }
    }

    /// Whether it wants nothing more.
    pub fn wants_nothing(&self) -> bool
        ensures { IsTrue result ↔ (wanted self.now ≡ want.Done) }
    {
        matches!(self.step, RepairStep::Ended(_))
    }

    /// How it ended, once it has.
    pub fn end(&self) -> Option<RepairEnd>
        ensures { result ≡ end_of self.now }
    {
        match self.step {
            RepairStep::Ended(end) => Some(end),
            _ => None,
        }
    }

    /// Whether the segment is guarded: another machine goes on with what is [`guarded`](RepairOp::guarded).
    pub fn hands_on(&self) -> bool
        ensures is { result ≡ is_guarded self.now.step }
        ensures no_more { result ≡ true → wanted self.now ≡ want.Done }
    {
        matches!(self.step, RepairStep::Ended(RepairEnd::Guarded))
    }
}

/// After the load of the link, by the slot that it names.
fn linked(link: u64) -> RepairStep
    ensures { result ≡ linked link }
{
    match linked_slot(link) {
        Some(slot) => RepairStep::Side(slot),
        None => RepairStep::Unmark(Settling::Store),
    }
}

/// After an event by which a slot becomes free.
fn freed(slot: u64, side: u64, settling: Settling) -> RepairStep
    ensures { result ≡ freed slot side settling }
{
    match settled(settling) {
        Some(more) => RepairStep::Free(slot, side, more),
        None => RepairStep::GiveSlots,
    }
}

/// The event that it wants.
fn want_of(op: &RepairOp) -> Want
    ensures { result ≡ wanted op.now }
{
    let guarded = &op.guarded;
    let geometry = &guarded.site.geometry;
    let caller = u64::from(guarded.site.caller);
    match &op.step {
        RepairStep::Guard => Want::Exchange(guarded.guard(), FREE_GUARD, caller),
        RepairStep::Head => Want::Load(head_word(geometry, guarded.segment)),
        RepairStep::Link => Want::Load(guarded.link()),
        RepairStep::Side(slot) => Want::Load(head_word(geometry, *slot)),
        RepairStep::Slots(_, _) => Want::Exchange(geometry.allocation_guard(), FREE_GUARD, caller),
        RepairStep::Free(slot, side, settling) => settle_want(
            *settling,
            head_word(geometry, *slot),
            with_state(*side, FREE),
        ),
        RepairStep::GiveSlots => Want::Store(geometry.allocation_guard(), FREE_GUARD),
        RepairStep::Unmark(settling) => settle_want(
            *settling,
            head_word(geometry, guarded.segment),
            with_state(guarded.head, NORMAL),
        ),
        RepairStep::Give(_) => Want::Store(guarded.guard(), FREE_GUARD),
        RepairStep::Ended(_) => Want::Done,
    }
}

/// What an answer makes of it; one of another kind than was asked for leaves it as it is.
fn take_in(op: &mut RepairOp, ans: Ans)
    ensures { op.new ≡ taken op.old ans }
{
    match (op.step, ans) {
        (RepairStep::Guard, Ans::Won) => op.step = RepairStep::Head,
        (RepairStep::Guard, Ans::Lost(seen)) => {
            op.step = RepairStep::Ended(busy(op.guarded.guard(), seen));
        }
        (RepairStep::Head, Ans::Value(head)) => op.meet_head(head),
        (RepairStep::Link, Ans::Value(link)) => op.step = linked(link),
        (RepairStep::Side(slot), Ans::Value(side)) => op.meet_side(slot, side),
        (RepairStep::Slots(slot, side), Ans::Won) => {
            op.step = RepairStep::Free(slot, side, Settling::Store);
        }
        (RepairStep::Slots(_, _), Ans::Lost(seen)) => {
            let word = op.guarded.site.geometry.allocation_guard();
            op.step = RepairStep::Give(busy(word, seen));
        }
        (RepairStep::Free(slot, side, settling), Ans::Passed) => {
            op.step = freed(slot, side, settling);
        }
        (RepairStep::GiveSlots, Ans::Passed) => op.step = RepairStep::Unmark(Settling::Store),
        (RepairStep::Unmark(settling), Ans::Passed) => op.unmark(settling),
        (RepairStep::Give(end), Ans::Passed) => op.step = RepairStep::Ended(end),
        _ => {}
    }
}

impl Machine for RepairOp {
    ghost wanted = { wanted };

    ghost taken = { taken };

    fn want(&self) -> Want {
        want_of(self)
    }

    fn take(&mut self, ans: Ans) {
        take_in(self, ans);
    }
}
