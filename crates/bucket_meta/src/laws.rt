//! Words and fields determine each other, and the words that are stored of one slot leave the others.

ghost use Rattle.std.specs.Prelude.{◌≡◌, ℕ, ◌^◌, ◌<◌, ◌≤◌};
ghost use Rattle.hash_word.specs.Hash.{fingerprint_bits};
ghost use Rattle.bucket_meta.specs.MetaWords.{meta_word, WordsGiveMeta, MetaGivesWords};
ghost use Rattle.bucket_meta.specs.Marks.{inserted_mark, member_mark, removed_mark, with_finger, TakesSlot, TakesSlotAsMember, FreesSlot, SetsFinger, SameNotes, KeepsUpper};
ghost use Rattle.bucket_meta.specs.NoteWords.{freed_mark, freed_fingers, FreesPlace};
ghost use Rattle.bucket_meta.specs.Bucket.{mark_place, fingers_of_word, note_slots, record_slots, spare_part};

use crate::Meta;
use crate::words::META_WORDS;

/// Fields that are those of the same words are the same fields.
pub fn words_give_meta()
    ensures { WordsGiveMeta }
{}

/// Words that have the same fields are the same words.
pub fn meta_gives_words()
    ensures { MetaGivesWords }
{}

/// The fields that are read of the words that a `Meta` writes are its own.
pub fn read_of_written(meta: &Meta) -> Meta
    ensures { result ≡ meta.now }
{
    Meta::read(meta.write())
}

/// The words that a `Meta` writes which was read of words are those words.
pub fn written_of_read(words: [u64; META_WORDS]) -> [u64; META_WORDS]
    requires { spare_part (meta_word words mark_place) ≡ 0 }
    ensures { result ≡ words }
{
    Meta::read(words).write()
}

/// The metadata word of an insert has its slot taken, by a member where it says so, and the one of a remove has it free; all that
/// they say of the other slots is as it was.
pub fn marks_change_one_slot()
    ensures inserted { (w1 slot : ℕ) → slot < record_slots → TakesSlot w1 slot }
    ensures member { (w1 slot : ℕ) → slot < record_slots → TakesSlotAsMember w1 slot }
    ensures removed { (w1 slot : ℕ) → slot < record_slots → FreesSlot w1 slot }
{}

/// Neither of them changes a note of the stash.
pub fn marks_keep_notes()
    ensures inserted { (w1 slot : ℕ) → slot < record_slots → SameNotes w1 (inserted_mark w1 slot) }
    ensures removed { (w1 slot : ℕ) → slot < record_slots → SameNotes w1 (removed_mark w1 slot) }
{}

/// Nor does one change anything above the bits of the slots.
pub fn marks_keep_the_upper_part()
    ensures inserted { (w1 slot : ℕ) → w1 < 2 ^ 64 → slot < record_slots → KeepsUpper w1 (inserted_mark w1 slot) }
    ensures member { (w1 slot : ℕ) → w1 < 2 ^ 64 → slot < record_slots → KeepsUpper w1 (member_mark w1 slot) }
    ensures removed { (w1 slot : ℕ) → w1 < 2 ^ 64 → slot < record_slots → KeepsUpper w1 (removed_mark w1 slot) }
{}

/// The words with a note's place freed have that place free, and say of the other places, of the count and of the record slots
/// what they said.
pub fn notes_are_freed()
    ensures { (w1 w3 i : ℕ) → w1 < 2 ^ 64 → i < note_slots → FreesPlace w1 w3 (freed_mark w1 i) (freed_fingers w3 i) i }
{}

/// A word of fingerprints with a slot's changed has that one there, and those of the other slots as they were.
pub fn fingers_change_one_slot()
    ensures low { (w2 w3 slot f : ℕ) → slot < fingers_of_word → f < 2 ^ fingerprint_bits → SetsFinger w2 w3 (with_finger w2 slot f) w3 slot f }
    ensures high { (w2 w3 slot f : ℕ) → fingers_of_word ≤ slot → slot < record_slots → f < 2 ^ fingerprint_bits → SetsFinger w2 w3 w2 (with_finger w3 slot f) slot f }
{}
