//! What is wanted in each step.

ghost use Rattle.std.specs.Prelude.{◌≡◌};
ghost use Rattle.stash_op.specs.Steps.{note_wanted, wanted_in};

use crate::search::{note_place, noted, place_of};
use crate::step::{NoteWords, Seen, StashStep};
use bucket_meta::words::{MARK_PLACE, REST_PLACE};
use op_core::Want;
use phase::{Kept, NoteWord, give_want, load_want, make_want, take_want};

/// The store of a word of the note.
fn want_note(kept: &Kept, part: NoteWord, note: &NoteWords) -> Want
    ensures { result ≡ note_wanted kept.now part note.now }
{
    let lock = kept.lock_of(note_place(note.bucket));
    match part {
        NoteWord::Mark => Want::Store(lock + MARK_PLACE as u64, note.mark),
        NoteWord::Fingers => Want::Store(lock + REST_PLACE as u64, note.fingers),
    }
}

/// What is wanted.
pub fn want_of(kept: &Kept, seen: &Seen, step: &StashStep) -> Want
    ensures { result ≡ wanted_in kept.now seen.now step.now }
{
    match step {
        StashStep::Lock(bucket, take) => take_want(kept.lock_of(place_of(*bucket)), take),
        StashStep::Fill(bucket, load) => load_want(kept.lock_of(place_of(*bucket)), load),
        StashStep::Make(make) => make_want(
            kept.lock_of(place_of(seen.bucket)),
            &seen.written,
            *make,
        ),
        StashStep::Note(part) => want_note(kept, *part, &noted(kept.hash, seen)),
        StashStep::Draw => Want::Draw,
        StashStep::CountSpent => Want::Load(kept.site.geometry.counter_word()),
        StashStep::Give(held, _) => give_want(&kept.site, kept.hash, kept.segment, held),
        StashStep::Ended(_) => Want::Done,
    }
}
