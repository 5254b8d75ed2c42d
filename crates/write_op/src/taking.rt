//! What an answer makes of a change.

ghost use Rattle.std.specs.Prelude.{◌≡◌, ◌<◌, IfSome};
ghost use Rattle.bucket_meta.specs.Bucket.{record_slots};
ghost use Rattle.write_op.specs.Steps.{end_of, giving, give, answered, amiss, arrived, walked_to, locked, locked_to, backed_to, visit_first, visit_second, filled, filled_with, making, inserting, changing, decided, counted, made_to, drawn_to, unnoted_to, next_in, IsElsewhere};

use crate::asking::lock_of;
use crate::search::{found, has_finger, leaves_note, record_at, room_in, unnoted, visits};
use crate::step::{Seen, Spot, Stage, Task, WriteEnd, WriteStep};
use bucket_meta::words::{BUCKET_WORDS, FIRST_STASH_INDEX, SECOND_STASH_INDEX};
use map_model::{Effect, Reply, SPENT_COUNT};
use op_core::{Ans, Why};
use phase::{
    Back, Backed, Ending, Held, Load, Made, Make, NoteWord, Path, Role, Take, Taken, Walked,
    back_next, give_next, given, load_put, make_next, take_next, walk_next,
};

// ---- ends

/// The end that comes once all locks are given back.
pub fn end_of(ending: Ending) -> WriteEnd
    ensures { result ≡ end_of ending }
{
    match ending {
        Ending::Replied(reply, place) => WriteEnd::Replied(reply, place),
        Ending::Again(why) => WriteEnd::Again(why),
    }
}

/// The step in which these locks are given back, one after another; where there is none, the end.
fn giving(held: Held, ending: Ending) -> WriteStep
    ensures { result ≡ giving held ending }
{
    match give_next(&held) {
        Some(_) => WriteStep::Give(held, ending),
        None => WriteStep::Ended(end_of(ending)),
    }
}

/// The locks that are held are to be given back, and then the change ends so.
fn give(stage: &mut Stage, ending: Ending)
    ensures { stage.new ≡ give stage.old.seen ending }
{
    stage.step = giving(stage.seen.held, ending);
}

/// The change is answered, with this place.
fn answered(stage: &mut Stage, place: u64, reply: Reply)
    ensures { stage.new ≡ answered stage.old.seen place reply }
{
    give(stage, Ending::Replied(reply, place));
}

/// The end of an attempt that can do nothing with the value of a word.
fn amiss(word: u64, seen: u64) -> WriteStep
    ensures { result ≡ amiss word seen }
{
    WriteStep::Ended(WriteEnd::Again(Why::Moved {
        word,
        before: seen,
        after: seen,
    }))
}

// ---- the way

/// The segment is found: its locks are next. Whether its header leads to the hash is asked where it is looked at again, under them.
fn arrived(stage: &mut Stage, path: Path)
    ensures { stage.new ≡ arrived stage.old.seen path }
{
    stage.seen.path = path;
    stage.step = WriteStep::Lock(Role::Home, Take::Look);
}

/// After a word on the way.
fn walked_to(stage: &mut Stage, walked: Walked)
    ensures { stage.new ≡ walked_to stage.old.seen walked }
{
    match walked {
        Walked::On(walk) => stage.step = WriteStep::Way(walk),
        Walked::There(path) => arrived(stage, path),
        Walked::Off => stage.step = WriteStep::Ended(WriteEnd::Off),
        Walked::Amiss { word, seen } => stage.step = amiss(word, seen),
        Walked::Stale { segment, version } => {
            stage.step = WriteStep::Ended(WriteEnd::Stale(segment, version));
        }
    }
}

// ---- locks

/// The step after the lock of a bucket is taken.
fn locked(place: Role) -> WriteStep
    ensures { result ≡ locked place }
{
    match place {
        Role::Home => WriteStep::Lock(Role::Probing, Take::Look),
        Role::Probing => WriteStep::Check(Back::Root),
        Role::First | Role::Second | Role::Next | Role::Previous => {
            WriteStep::Fill(place, Load::begin())
        }
    }
}

/// After a look at a lock word, or an exchange of it.
fn locked_to(stage: &mut Stage, place: Role, lock: u64, taken: Taken)
    ensures { stage.new ≡ locked_to stage.old.seen place lock taken }
{
    match taken {
        Taken::On(take) => stage.step = WriteStep::Lock(place, take),
        Taken::Held { free } => {
            stage.seen.held = stage.seen.held.with(place, free);
            stage.step = locked(place);
        }
        Taken::Busy { seen } => give(stage, Ending::Again(Why::Busy { word: lock, seen })),
        Taken::Moved { before, after } => give(
            stage,
            Ending::Again(Why::Moved {
                word: lock,
                before,
                after,
            }),
        ),
        Taken::Spent => stage.step = WriteStep::CountSpent,
    }
}

// ---- the way again

/// After a word on the way that was looked at again.
fn backed_to(stage: &mut Stage, backed: Backed)
    ensures { stage.new ≡ backed_to stage.old.seen backed }
{
    match backed {
        Backed::On(back) => stage.step = WriteStep::Check(back),
        Backed::Same => stage.step = WriteStep::Fill(Role::Home, Load::begin()),
        Backed::Moved {
            word,
            before,
            after,
        } => give(
            stage,
            Ending::Again(Why::Moved {
                word,
                before,
                after,
            }),
        ),
    }
}

// ---- buckets

/// The step where the second stash bucket is next, if it is to be visited.
fn visit_second(seen: &Seen) -> WriteStep
    ensures { result ≡ visit_second seen.now }
{
    if seen.second {
        WriteStep::Lock(Role::Second, Take::Look)
    } else {
        WriteStep::Count
    }
}

/// The step where the first one is next.
fn visit_first(seen: &Seen) -> WriteStep
    ensures { result ≡ visit_first seen.now }
{
    if seen.first {
        WriteStep::Lock(Role::First, Take::Look)
    } else {
        visit_second(seen)
    }
}

/// After the last word of a bucket, whose words were put in.
fn filled(hash: u64, stage: &mut Stage, place: Role)
    ensures { stage.new ≡ filled hash stage.old.seen place }
{
    match place {
        Role::Home => stage.step = WriteStep::Fill(Role::Probing, Load::begin()),
        Role::Probing => {
            let first = visits(hash, &stage.seen.buckets, FIRST_STASH_INDEX);
            let second = visits(hash, &stage.seen.buckets, SECOND_STASH_INDEX);
            stage.seen.first = first;
            stage.seen.second = second;
            stage.step = visit_first(&stage.seen);
        }
        Role::First => stage.step = visit_second(&stage.seen),
        Role::Second | Role::Next | Role::Previous => stage.step = WriteStep::Count,
    }
}

/// After the last word of a bucket; a call of its own for the same reason.
#[inline(never)]
fn filled_with(hash: u64, stage: &mut Stage, place: Role, words: [u64; BUCKET_WORDS])
    ensures { stage.new ≡ filled_with hash stage.old.seen place words }
{
    stage.seen.buckets.put(place, words);
    filled(hash, stage, place);
}

// ---- what is done, by where the key stands and where a slot is free, after so many changes

/// The record in this spot is stored, from this point on.
fn making(task: &Task, stage: &mut Stage, spot: Spot, make: Make)
    requires { spot.slot < record_slots }
    ensures { stage.new ≡ making task.now stage.old.seen spot make }
{
    stage.seen.written = record_at(task, &stage.seen.buckets, spot);
    stage.seen.place = spot.place;
    stage.step = WriteStep::Make(make);
}

/// An insert is made where its key stands nowhere and a slot is free.
fn inserting(task: &Task, stage: &mut Stage, count: u64, there: Option<Spot>, room: Option<Spot>)
    requires { IfSome room (λ spot. spot.slot < record_slots) }
    ensures { stage.new ≡ inserting task.now stage.old.seen count there room }
{
    match (there, room) {
        (Some(_), _) => answered(stage, count, Reply::Exists),
        (None, Some(spot)) => making(task, stage, spot, Make::Key),
        (None, None) => stage.step = WriteStep::Ended(WriteEnd::NoSlot),
    }
}

/// An update or a remove is made where its key stands.
fn changing(task: &Task, stage: &mut Stage, count: u64, there: Option<Spot>)
    requires { IfSome there (λ spot. spot.slot < record_slots) }
    ensures { stage.new ≡ changing task.now stage.old.seen count there }
{
    match there {
        Some(spot) => making(task, stage, spot, Make::Publish),
        None => answered(stage, count, Reply::Absent),
    }
}

/// What is done under all locks; a call of its own, since it comes once in an attempt and searches all buckets.
#[inline(never)]
fn decided(task: &Task, stage: &mut Stage, count: u64)
    ensures { stage.new ≡ decided task.now stage.old.seen count task.now.change.effect }
{
    let there = found(&stage.seen, task.change.key);
    match task.change.effect {
        Effect::Insert(_) => {
            let room = room_in(&stage.seen.buckets);
            inserting(task, stage, count, there, room);
        }
        Effect::Update(_) | Effect::Remove => changing(task, stage, count, there),
    }
}

/// After the load of the commit counter under all locks.
fn counted(task: &Task, stage: &mut Stage, count: u64)
    ensures { stage.new ≡ counted task.now stage.old.seen count }
{
    if count >= SPENT_COUNT {
        answered(stage, count, Reply::Spent);
    } else {
        decided(task, stage, count);
    }
}

// ---- stores, the draw, and the note

/// After a store, a flush or a fence.
fn made_to(stage: &mut Stage, made: Made)
    ensures { stage.new ≡ made_to stage.old.seen made }
{
    stage.step = match made {
        Made::On(make) => WriteStep::Make(make),
        Made::Settled => WriteStep::Draw,
    };
}

/// After the draw.
fn drawn_to(task: &Task, stage: &mut Stage, place: u64)
    ensures { stage.new ≡ drawn_to task.now stage.old.seen place }
{
    if leaves_note(task.change.effect, stage.seen.place) {
        stage.step = WriteStep::Unnote(NoteWord::Mark, place);
    } else {
        answered(stage, place, Reply::Done);
    }
}

/// After a store that took a note away.
fn unnoted_to(task: &Task, stage: &mut Stage, part: NoteWord, place: u64)
    ensures { stage.new ≡ unnoted_to task.now stage.old.seen part place }
{
    match part {
        NoteWord::Mark if has_finger(&stage.seen, &unnoted(task.hash, &stage.seen)) => {
            stage.step = WriteStep::Unnote(NoteWord::Fingers, place);
        }
        NoteWord::Mark | NoteWord::Fingers => answered(stage, place, Reply::Done),
    }
}

/// After an answer to any step but the load of a bucket's words. It is a call of its own, since what it needs to make a step would
/// else be got ready at each word of a bucket too, and these are most events.
#[inline(never)]
fn take_at(task: &Task, stage: &mut Stage, ans: Ans)
    requires { IsElsewhere stage.old.step }
    ensures { stage.new ≡ next_in task.now stage.old.seen stage.old.step ans }
{
    match (&stage.step, ans) {
        (WriteStep::Way(walk), Ans::Value(value)) => {
            let walked = walk_next(&task.site, task.hash, walk, value);
            walked_to(stage, walked);
        }
        (WriteStep::Lock(place, take), ans) => {
            let (place, taken) = (*place, take_next(take, ans));
            let lock = lock_of(task, &stage.seen, place);
            locked_to(stage, place, lock, taken);
        }
        (WriteStep::Check(back), Ans::Value(value)) => {
            let backed = back_next(&task.site, task.hash, &stage.seen.path, back, value);
            backed_to(stage, backed);
        }
        (WriteStep::Count, Ans::Value(count)) => counted(task, stage, count),
        (WriteStep::Make(make), Ans::Passed) => {
            let made = make_next(stage.seen.written.slot, *make);
            made_to(stage, made);
        }
        (WriteStep::Draw, Ans::Drawn(place)) => drawn_to(task, stage, place),
        (WriteStep::Unnote(part, place), Ans::Passed) => {
            let (part, place) = (*part, *place);
            unnoted_to(task, stage, part, place);
        }
        (WriteStep::CountSpent, Ans::Value(count)) => answered(stage, count, Reply::Spent),
        (WriteStep::Give(held, ending), Ans::Passed) => {
            let next = giving(given(held), *ending);
            stage.step = next;
        }
        _ => {}
    }
}

/// After an answer. One of another kind than was asked for leaves the change where it is.
pub fn take_in(task: &Task, stage: &mut Stage, ans: Ans)
    ensures { stage.new ≡ next_in task.now stage.old.seen stage.old.step ans }
{
    if let WriteStep::Fill(place, load) = &mut stage.step {
        if let Ans::Value(value) = ans {
            if !load_put(load, value) {
                let (place, words) = (*place, load.words);
                filled_with(task.hash, stage, place, words);
            }
        }
    } else {
        take_at(task, stage, ans);
    }
}
