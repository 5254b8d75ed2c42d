//! What an answer makes of it.

ghost use Rattle.std.specs.Prelude.{◌≡◌};
ghost use Rattle.stash_op.specs.Steps.{end_of, giving, give, answered, putting, in_second, at_second, in_first, at_first, searched, filled_with, locked_to, made_to, noted_to, next_in, IsElsewhere};

use crate::search::{free_slot, has_finger, noted, place_of, record_in};
use crate::step::{Seen, Stage, StashBucket, StashEnd, StashStep};
use bucket_meta::words::BUCKET_WORDS;
use map_model::Reply;
use op_core::{Ans, Why};
use phase::{
    Ending, Held, Kept, Load, Made, Make, NoteWord, Take, Taken, give_next, given, load_put,
    make_next, take_next,
};

// ---- ends

/// The end that comes once all locks are given back.
pub fn end_of(ending: Ending) -> StashEnd
    ensures { result ≡ end_of ending }
{
    match ending {
        Ending::Replied(reply, place) => StashEnd::Replied(reply, place),
        Ending::Again(why) => StashEnd::Again(why),
    }
}

/// The step in which these locks are given back, one after another; where there is none, the end.
fn giving(held: Held, ending: Ending) -> StashStep
    ensures { result ≡ giving held ending }
{
    match give_next(&held) {
        Some(_) => StashStep::Give(held, ending),
        None => StashStep::Ended(end_of(ending)),
    }
}

/// The locks that are held are to be given back, and then it ends so.
fn give(stage: &mut Stage, ending: Ending)
    ensures { stage.new ≡ give stage.old.seen ending }
{
    stage.step = giving(stage.seen.held, ending);
}

/// The insert is answered, with this place.
fn answered(stage: &mut Stage, place: u64, reply: Reply)
    ensures { stage.new ≡ answered stage.old.seen place reply }
{
    give(stage, Ending::Replied(reply, place));
}

// ---- a free slot

/// The record is put into this slot of a stash bucket.
fn putting(kept: &Kept, seen: &Seen, bucket: StashBucket, slot: u8) -> Stage
    ensures { result ≡ putting kept.now seen.now bucket slot }
{
    let written = record_in(kept, &seen.buckets, bucket, slot);
    Stage {
        seen: Seen {
            bucket,
            written,
            ..*seen
        },
        step: StashStep::Make(Make::Key),
    }
}

/// The same, with another step.
fn with_step(seen: &Seen, step: StashStep) -> Stage
    ensures { result ≡ Rattle.stash_op.specs.Steps.go seen.now step }
{
    Stage { seen: *seen, step }
}

/// By the lowest free slot of the second stash bucket, which is held: where it has none, both are full.
fn in_second(kept: &Kept, seen: &Seen, slot: Option<u8>) -> Stage
    ensures { result ≡ in_second kept.now seen.now slot }
{
    match slot {
        Some(slot) => putting(kept, seen, StashBucket::Second, slot),
        None => with_step(seen, StashStep::Ended(StashEnd::NeedSplit(kept.segment))),
    }
}

/// The second stash bucket is looked at, and its lock taken first where it is not held.
fn at_second(kept: &Kept, seen: &Seen, lock: Option<u64>) -> Stage
    ensures { result ≡ at_second kept.now seen.now lock }
{
    match lock {
        Some(_) => in_second(kept, seen, free_slot(&seen.buckets, StashBucket::Second)),
        None => with_step(seen, StashStep::Lock(StashBucket::Second, Take::Look)),
    }
}

/// By the lowest free slot of the first one, which is held.
fn in_first(kept: &Kept, seen: &Seen, slot: Option<u8>) -> Stage
    ensures { result ≡ in_first kept.now seen.now slot }
{
    match slot {
        Some(slot) => putting(kept, seen, StashBucket::First, slot),
        None => at_second(kept, seen, seen.held.second),
    }
}

/// The first one is looked at, and its lock taken first where it is not held.
pub fn at_first(kept: &Kept, seen: &Seen, lock: Option<u64>) -> Stage
    ensures { result ≡ at_first kept.now seen.now lock }
{
    match lock {
        Some(_) => in_first(kept, seen, free_slot(&seen.buckets, StashBucket::First)),
        None => with_step(seen, StashStep::Lock(StashBucket::First, Take::Look)),
    }
}

/// After the last word of a stash bucket, whose words were put in.
fn searched(kept: &Kept, seen: &Seen, bucket: StashBucket) -> Stage
    ensures { result ≡ searched kept.now seen.now bucket }
{
    let slot = free_slot(&seen.buckets, bucket);
    match bucket {
        StashBucket::First => in_first(kept, seen, slot),
        StashBucket::Second => in_second(kept, seen, slot),
    }
}

/// After the last word of a stash bucket.
fn filled_with(kept: &Kept, stage: &mut Stage, bucket: StashBucket, words: [u64; BUCKET_WORDS])
    ensures { stage.new ≡ filled_with kept.now stage.old.seen bucket words }
{
    let mut seen = stage.seen;
    seen.buckets.put(place_of(bucket), words);
    *stage = searched(kept, &seen, bucket);
}

// ---- locks

/// After a look at a lock word, or an exchange of it.
fn locked_to(stage: &mut Stage, bucket: StashBucket, lock: u64, taken: Taken)
    ensures { stage.new ≡ locked_to stage.old.seen bucket lock taken }
{
    match taken {
        Taken::On(take) => stage.step = StashStep::Lock(bucket, take),
        Taken::Held { free } => {
            stage.seen.held = stage.seen.held.with(place_of(bucket), free);
            stage.step = StashStep::Fill(bucket, Load::begin());
        }
        Taken::Busy { seen } => give(stage, Ending::Again(Why::Busy { word: lock, seen })),
        Taken::Moved { before, after } => give(
            stage,
            Ending::Again(Why::Moved {
                word: lock,
                before,
                after,
            }),
        ),
        Taken::Spent => stage.step = StashStep::CountSpent,
    }
}

// ---- stores, the note, and the draw

/// After a store, a flush or a fence: where the record is settled, its note is stored.
fn made_to(stage: &mut Stage, made: Made)
    ensures { stage.new ≡ made_to stage.old.seen made }
{
    stage.step = match made {
        Made::On(make) => StashStep::Make(make),
        Made::Settled => StashStep::Note(NoteWord::Mark),
    };
}

/// After a store of the note: once it is stored, the place of the insert is drawn.
fn noted_to(hash: u64, stage: &mut Stage, part: NoteWord)
    ensures { stage.new ≡ noted_to hash stage.old.seen part }
{
    stage.step = match part {
        NoteWord::Mark if has_finger(&stage.seen, &noted(hash, &stage.seen)) => {
            StashStep::Note(NoteWord::Fingers)
        }
        NoteWord::Mark | NoteWord::Fingers => StashStep::Draw,
    };
}

/// After an answer to any step but the load of a bucket's words. A call of its own, since what it needs to make a step would else be
/// got ready at each word of a bucket too, and these are most events.
#[inline(never)]
fn take_at(kept: &Kept, stage: &mut Stage, ans: Ans)
    requires { IsElsewhere stage.old.step }
    ensures { stage.new ≡ next_in kept.now stage.old.seen stage.old.step ans }
{
    match (stage.step, ans) {
        (StashStep::Lock(bucket, take), ans) => {
            let lock = kept.lock_of(place_of(bucket));
            locked_to(stage, bucket, lock, take_next(&take, ans));
        }
        (StashStep::Make(make), Ans::Passed) => {
            let made = make_next(stage.seen.written.slot, make);
            made_to(stage, made);
        }
        (StashStep::Note(part), Ans::Passed) => noted_to(kept.hash, stage, part),
        (StashStep::Draw, Ans::Drawn(place)) => answered(stage, place, Reply::Done),
        (StashStep::CountSpent, Ans::Value(count)) => answered(stage, count, Reply::Spent),
        (StashStep::Give(held, ending), Ans::Passed) => {
            stage.step = giving(given(&held), ending);
        }
        _ => {}
    }
}

/// After an answer. One of another kind than was asked for leaves it where it is.
pub fn take_in(kept: &Kept, stage: &mut Stage, ans: Ans)
    ensures { stage.new ≡ next_in kept.now stage.old.seen stage.old.step ans }
{
    if let StashStep::Fill(bucket, load) = &mut stage.step {
        if let Ans::Value(value) = ans {
            if !load_put(load, value) {
                let (bucket, words) = (*bucket, load.words);
                filled_with(kept, stage, bucket, words);
            }
        }
    } else {
        take_at(kept, stage, ans);
    }
}
