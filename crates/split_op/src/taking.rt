//! What an answer makes of a split.

ghost use Rattle.std.specs.Prelude.{◌≡◌};
ghost use Rattle.split_op.specs.Steps.{go, back, searched, looked, finished, put_to, stored, given_to, next_in, last_slot};

use crate::batch::{Batch, LINK_NUMBER, after, due};
use crate::op::SplitOp;
use crate::seek::copied_from;
use crate::step::{SplitEnd, SplitStep};
use enclose_op::{Give, give_from, given};
use image_layout::{BUCKETS, Geometry, HEADER_WORDS, LAST_BUCKET, MOST_SEGMENTS};
use op_core::{Ans, Why};
use rounds::Rounds;
use segment_head::word::{FREE, state_of};

/// The last slot in which a free one is looked for.
fn last_slot(geometry: &Geometry) -> u64
    ensures { result ≡ last_slot geometry.now }
{
    geometry.segments().min(MOST_SEGMENTS).saturating_sub(1)
}

/// What is held of the segment is given back, and then it ends so.
fn back(end: SplitEnd) -> SplitStep
    ensures { result ≡ back end }
{
    SplitStep::Back(give_from(0, BUCKETS), end)
}

/// After the load of the header of a slot.
fn searched(op: &mut SplitOp, slot: u64, head: u64)
    ensures { op.new ≡ searched op.old slot head }
{
    if state_of(head) == FREE {
        op.copied.side = slot;
        op.step = SplitStep::Look(0);
    } else if slot < last_slot(&op.copied.whole.site.geometry) {
        op.step = SplitStep::Search(slot + 1);
    } else {
        op.step = SplitStep::Count;
    }
}

/// After the load of a lock word of the slot.
fn looked(op: &mut SplitOp, bucket: u8, lock: u64)
    ensures { op.new ≡ looked op.old bucket lock }
{
    op.locks[usize::from(bucket % BUCKETS)] = lock;
    if bucket < LAST_BUCKET {
        op.step = SplitStep::Look(bucket + 1);
    } else {
        op.step = SplitStep::Put(Batch::Empty(LINK_NUMBER), Rounds::begun());
    }
}

/// What comes once all of a batch is stored and settled.
fn finished(batch: Batch) -> SplitStep
    ensures { result ≡ finished batch }
{
    match batch {
        Batch::Empty(_) => SplitStep::Put(Batch::Link(false), Rounds::begun()),
        Batch::Link(_) => SplitStep::Put(Batch::Mark(false), Rounds::begun()),
        Batch::Mark(_) => SplitStep::Put(Batch::New(false), Rounds::begun()),
        Batch::New(_) => SplitStep::Release,
        Batch::Copy(_) => SplitStep::Ended(SplitEnd::Copied),
    }
}

/// The step in which a batch is stored; where all of it is stored and settled, what comes then.
fn put_to(op: &SplitOp, batch: Batch, rounds: Rounds) -> SplitStep
    ensures { result ≡ put_to op.now batch rounds }
{
    match rounds.want(due(&op.copied, &op.locks, batch)) {
        Some(_) => SplitStep::Put(batch, rounds),
        None => finished(batch),
    }
}

/// After an event of the rounds.
fn stored(op: &SplitOp, batch: Batch, mut rounds: Rounds) -> SplitStep
    ensures { result ≡ stored op.now batch rounds }
{
    let next = due(&op.copied, &op.locks, batch);
    let batch = if rounds.stores(next) {
        after(&op.copied, &op.locks, batch)
    } else {
        batch
    };
    rounds.take(next);
    put_to(op, batch, rounds)
}

/// After something was given back.
fn given_to(next: Option<Give>, end: SplitEnd) -> SplitStep
    ensures { result ≡ given_to next end }
{
    match next {
        Some(give) => SplitStep::Back(give, end),
        None => SplitStep::Ended(end),
    }
}

/// What an answer makes of it; one of another kind than was asked for leaves it as it is.
pub fn go_on(op: &mut SplitOp, ans: Ans)
    ensures { op.new ≡ next_in op.old op.old.step ans }
{
    match (op.step, ans) {
        (SplitStep::Take, Ans::Won) => op.step = SplitStep::Search(0),
        (SplitStep::Take, Ans::Lost(seen)) => {
            let word = op.copied.whole.site.geometry.allocation_guard();
            op.step = back(SplitEnd::Again(Why::Busy { word, seen }));
        }
        (SplitStep::Search(slot), Ans::Value(head)) => searched(op, slot, head),
        (SplitStep::Count, Ans::Value(count)) => op.step = SplitStep::Return(count),
        (SplitStep::Return(count), Ans::Passed) => op.step = back(SplitEnd::Full(count)),
        (SplitStep::Look(bucket), Ans::Value(lock)) => looked(op, bucket, lock),
        (SplitStep::Put(batch, rounds), Ans::Passed) => op.step = stored(op, batch, rounds),
        (SplitStep::Release, Ans::Passed) => {
            let batch = Batch::Copy(copied_from(&op.copied.words, HEADER_WORDS));
            op.step = put_to(op, batch, Rounds::begun());
        }
        (SplitStep::Back(give, end), Ans::Passed) => op.step = given_to(given(give), end),
        _ => (),
    }
}
