//! What a change wants in each of its steps.

ghost use Rattle.std.specs.Prelude.{◌≡◌, ◌≤◌};
ghost use Rattle.image_layout.specs.Places.{most_words};
ghost use Rattle.write_op.specs.Steps.{lock_of, note_wanted, wanted_in};

use crate::search::{NoteWords, unnoted};
use crate::step::{Seen, Task, WriteStep};
use bucket_meta::words::{MARK_PLACE, REST_PLACE};
use op_core::Want;
use phase::{
    NoteWord, Role, back_want, give_want, load_want, lock_word, make_want, take_want, walk_want,
};

/// The lock word of a bucket.
pub fn lock_of(task: &Task, seen: &Seen, place: Role) -> u64
    ensures is { result ≡ lock_of task.now seen.now place }
    ensures most { result ≤ most_words }
{
    lock_word(&task.site, task.hash, seen.path.segment, place)
}

/// The store of a word of the note that is taken away.
fn want_note(task: &Task, seen: &Seen, part: NoteWord, note: &NoteWords) -> Want
    ensures { result ≡ note_wanted task.now seen.now part note.now }
{
    let lock = lock_of(task, seen, note.place);
    match part {
        NoteWord::Mark => Want::Store(lock + MARK_PLACE as u64, note.mark),
        NoteWord::Fingers => Want::Store(lock + REST_PLACE as u64, note.fingers),
    }
}

/// What a change wants.
pub fn want_of(task: &Task, seen: &Seen, step: &WriteStep) -> Want
    ensures { result ≡ wanted_in task.now seen.now step.now }
{
    match step {
        WriteStep::Way(walk) => walk_want(&task.site, task.hash, walk),
        WriteStep::Lock(place, take) => take_want(lock_of(task, seen, *place), take),
        WriteStep::Check(back) => back_want(&task.site, task.hash, &seen.path, back),
        WriteStep::Fill(place, load) => load_want(lock_of(task, seen, *place), load),
        WriteStep::Count | WriteStep::CountSpent => Want::Load(task.site.geometry.counter_word()),
        WriteStep::Make(make) => make_want(lock_of(task, seen, seen.place), &seen.written, *make),
        WriteStep::Draw => Want::Draw,
        WriteStep::Unnote(part, _) => want_note(task, seen, *part, &unnoted(task.hash, seen)),
        WriteStep::Give(held, _) => give_want(&task.site, task.hash, seen.path.segment, held),
        WriteStep::Ended(_) => Want::Done,
    }
}
