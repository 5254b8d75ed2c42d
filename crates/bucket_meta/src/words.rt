//! The words of a bucket, bit by bit. They may have any bits that no field has, which `Meta` does not keep: so a machine
//! that loads and stores single words looks at them and changes them here.

ghost use Rattle.std.specs.Prelude.{◌≡◌, ◌==◌, ℕ, ◌^◌, ◌<◌, ◌≤◌, ◌↔◌, IfSome, IfNone, IsTrue, slice_set, ◌%◌};
ghost use Rattle.bucket_meta.specs.Bucket.{allocated, member, finger, note_used, note_member, note_index, note_finger, overflow_count, record_slots, note_slots, first_key, key_place, value_place, slot_of_place, count_bits, stash_indices, last_lock_version, free_lock, locked, unlocked, given_back, without_lock, lock_bit, lock_version, slot_fingers_part};
ghost use Rattle.bucket_meta.specs.Search.{is_taken, IsThere, lowest_with, lowest_free};
ghost use Rattle.bucket_meta.specs.Notes.{IsNoteOn};
ghost use Rattle.bucket_meta.specs.Marks.{inserted_mark, member_mark, removed_mark, finger_place, with_finger};
ghost use Rattle.bucket_meta.specs.Visits.{is_note, is_named, must_visit};
ghost use Rattle.bucket_meta.specs.NoteWords.{note_place, finger_bits, freed_mark, freed_fingers, lowered_count, is_unused, unused_place, with_bit, with_note_finger, noted_mark, noted_fingers, raised_count};

use hash_word::{FINGER_MASK, FINGERPRINT_BITS};
use word_bits::{WORD_BITS, bits_of, is_set, mask};

/// How many words a bucket has.
pub const BUCKET_WORDS: usize = 32;

/// How many record slots a bucket has.
pub const SLOTS: u8 = 14;

/// How many bits a set of record slots has.
pub(crate) const SET_BITS: u32 = SLOTS as u32;

/// How many note slots a bucket has.
pub const NOTE_SLOTS: u8 = 4;

/// How many of them have their fingerprints in word 3: the lower ones, and the others, the upper ones, have theirs in word 1.
const LOWER_NOTES: u8 = 2;

/// The last of the lower ones.
const LAST_LOWER_NOTE: u8 = LOWER_NOTES - 1;

/// The last note slot.
const LAST_NOTE: u8 = NOTE_SLOTS - 1;

/// How many bits a set of note slots has.
pub(crate) const NOTE_SET_BITS: u32 = NOTE_SLOTS as u32;

/// From which bit of the metadata word on a bit of each record slot says whether it has a record.
pub(crate) const ALLOCATED_FROM: u32 = 0;

/// From which bit of it on a bit of each record slot says whether its record stands in its probing bucket.
pub(crate) const MEMBER_FROM: u32 = ALLOCATED_FROM + SET_BITS;

/// How many bits of the metadata word are of the record slots: an allocation bit and a membership bit of each.
pub const MARKS_BITS: u32 = 2 * SET_BITS;

/// From which bit of the metadata word on a bit of each note slot says whether it holds a note.
pub const NOTE_USED_FROM: u32 = MARKS_BITS;

/// From which bit of it on a bit of each note slot says whether this bucket is the probing bucket of the note's record.
pub const NOTE_MEMBER_FROM: u32 = NOTE_USED_FROM + NOTE_SET_BITS;

/// The side of a note, as this bit says it: that of a record of which the bucket is the home.
pub const HOME_SIDE: u8 = 0;

/// That of a record of which it is the probing bucket.
pub const PROBING_SIDE: u8 = 1;

/// The number of the first stash bucket among the two, as a note names it.
pub const FIRST_STASH_INDEX: u8 = 0;

/// The number of the second one among them.
pub const SECOND_STASH_INDEX: u8 = 1;

/// How many stash buckets a note may name.
pub const STASH_INDICES: u8 = SECOND_STASH_INDEX + 1;

/// From which bit of the metadata word on a bit of each note slot says which stash bucket the note names.
pub const NOTE_INDEX_FROM: u32 = NOTE_MEMBER_FROM + NOTE_SET_BITS;

/// From which bit of it on the count of records without a note stands.
pub const COUNT_FROM: u32 = NOTE_INDEX_FROM + NOTE_SET_BITS;

/// How many bits that count has.
pub const COUNT_BITS: u32 = 5;

/// From which bit of it on the fingerprints of the upper note slots stand.
pub const UPPER_FINGERS_FROM: u32 = COUNT_FROM + COUNT_BITS;

/// From which bit of it on the fingerprint of the last note slot stands.
pub(crate) const LAST_FINGER_FROM: u32 = UPPER_FINGERS_FROM + FINGERPRINT_BITS;

/// How many fingerprints a word has room for.
pub const FINGERS_OF_WORD: u8 = (WORD_BITS / FINGERPRINT_BITS) as u8;

/// How many fingerprints of record slots stand in the last word before the records: those that the word before it has no room for.
pub const REST_FINGERS: u8 = SLOTS - FINGERS_OF_WORD;

/// From which bit of word 3 on the fingerprints of the lower note slots stand, above those of record slots.
pub const NOTE_FINGERS_FROM: u32 = FINGERPRINT_BITS * REST_FINGERS as u32;

/// How many lock words a version has: a free one, and a locked one above it.
const LOCKS_OF_VERSION: u64 = 2;

/// How many bits of a lock word its version has: all but the lowest, which is the lock.
const LOCK_VERSION_BITS: u32 = WORD_BITS - 1;

/// The last version that a lock may have.
const LAST_LOCK_VERSION: u64 = (1 << LOCK_VERSION_BITS) - 1;

/// The lock word that is free with the last version, so that nobody takes the lock any more.
pub const SPENT_LOCK: u64 = LOCKS_OF_VERSION * LAST_LOCK_VERSION;

/// The words of a bucket before its records, by their numbers in it: its lock word.
pub const LOCK_PLACE: usize = 0;

/// Its metadata word: which slots have a record, and what is said of the stash.
pub const MARK_PLACE: usize = 1;

/// The word of the fingerprints of its first slots.
pub const FINGERS_PLACE: usize = 2;

/// The word of the rest of them, with the fingerprints of two notes.
pub const REST_PLACE: usize = 3;

/// The word of a bucket in which the key of its first record slot stands: before it stand the lock word and the three metadata words.
pub const FIRST_KEY: usize = REST_PLACE + 1;

/// The word of the value of that slot, behind its key.
pub const FIRST_VALUE: usize = FIRST_KEY + 1;

/// How many words a record has: its key, and its value behind it.
pub const RECORD_WORDS: usize = 2;

/// How many words of metadata a bucket has: those from its metadata word to before its records.
pub const META_WORDS: usize = FIRST_KEY - MARK_PLACE;

/// The word of a bucket in which the key of a record slot stands.
pub fn key_place(slot: u8) -> usize
    ensures { result ≡ key_place slot }
{
    FIRST_KEY + RECORD_WORDS * usize::from(slot)
}

/// The word in which its value stands.
pub fn value_place(slot: u8) -> usize
    ensures { result ≡ value_place slot }
{
    FIRST_VALUE + RECORD_WORDS * usize::from(slot)
}

/// The record slot whose key or value stands in a word of a bucket, which is one of its records.
pub fn slot_of_place(place: usize) -> u8
    requires from { first_key ≤ place }
    requires within { place < key_place record_slots }
    ensures { result ≡ slot_of_place place }
{
    ((place - FIRST_KEY) / RECORD_WORDS) as u8
}

/// Whether a lock word says that its bucket is locked.
pub fn is_locked(w0: u64) -> bool
    ensures { result ≡ (lock_bit w0 == 1) }
{
    w0 % LOCKS_OF_VERSION == 1
}

/// The version of a lock word, in all the bits above the lock.
pub fn lock_version(w0: u64) -> u64
    ensures { result ≡ lock_version w0 }
{
    w0 / LOCKS_OF_VERSION
}

/// The lock word that is free with this version.
pub fn free_lock(version: u64) -> u64
    requires { version ≤ last_lock_version }
    ensures { result ≡ free_lock version }
{
    LOCKS_OF_VERSION * version
}

/// The lock word that is locked, of the free one with the same version.
pub fn locked(free: u64) -> u64
    ensures { result ≡ locked free % 2 ^ 64 }
{
    free.wrapping_add(1)
}

/// The lock word with which a locked one is given back: free, with the next version.
pub fn unlocked(held: u64) -> u64
    ensures { result ≡ unlocked held % 2 ^ 64 }
{
    held.wrapping_add(1)
}

/// The same, of the free one that was locked.
pub fn given_back(free: u64) -> u64
    ensures { result ≡ given_back free % 2 ^ 64 }
{
    unlocked(locked(free))
}

/// The lock word that is free with the version of a lock word, be that locked or free.
pub fn without_lock(w0: u64) -> u64
    ensures { result ≡ without_lock w0 }
{
    free_lock(lock_version(w0))
}

// ---- record slots

/// Whether a record slot has a record, by the metadata word.
pub fn is_taken(w1: u64, slot: u8) -> bool
    requires { slot < record_slots }
    ensures { result ≡ is_taken w1 slot }
{
    is_set(w1, u32::from(slot))
}

/// Whether the record of a slot stands in its probing bucket, by the metadata word.
pub fn is_member(w1: u64, slot: u8) -> bool
    requires { slot < record_slots }
    ensures { result ≡ (member slot w1 == 1) }
{
    is_set(w1, MEMBER_FROM + u32::from(slot))
}

/// Whether no record slot has a record, by the metadata word.
pub fn is_empty(w1: u64) -> bool
    ensures { IsTrue result ↔ ((s : ℕ) → s < record_slots → allocated s w1 ≡ 0) }
{
    bits_of(w1, ALLOCATED_FROM, SET_BITS) == 0
}

/// The fingerprint of a record slot: 0 to 7 stand in word 2 of the bucket, 8 to 13 in word 3.
pub fn finger_of(w2: u64, w3: u64, slot: u8) -> u8
    requires { slot < record_slots }
    ensures { result ≡ finger slot w2 w3 }
{
    if slot < FINGERS_OF_WORD {
        bits_of(w2, FINGERPRINT_BITS * u32::from(slot), FINGERPRINT_BITS) as u8
    } else {
        bits_of(
            w3,
            FINGERPRINT_BITS * u32::from(slot - FINGERS_OF_WORD),
            FINGERPRINT_BITS,
        ) as u8
    }
}

/// The lowest taken slot with this key, among a bucket's words by their numbers in it.
pub fn lowest_with(words: &[u64; BUCKET_WORDS], key: u64) -> Option<u8>
    ensures is { result ≡ lowest_with words.now key }
    ensures there { IfSome result (λ slot. (slot < record_slots) × IsThere words.now key slot) }
    ensures nowhere { IfNone result ((slot : ℕ) → slot < record_slots → IsThere words.now key slot → ⊥) }
{
    for slot in 0..SLOTS {
        if is_taken(words[MARK_PLACE], slot) && words[key_place(slot)] == key {
            return Some(slot);
        }
    }
    None
}

/// The lowest slot without a record, by the metadata word.
pub fn lowest_free(w1: u64) -> Option<u8>
    ensures is { result ≡ lowest_free w1 }
    ensures free { IfSome result (λ slot. (slot < record_slots) × (allocated slot w1 ≡ 0)) }
    ensures full { IfNone result ((slot : ℕ) → slot < record_slots → allocated slot w1 ≡ 1) }
{
    for slot in 0..SLOTS {
        if !is_taken(w1, slot) {
            return Some(slot);
        }
    }
    None
}

/// The metadata word with the slot taken, by a record that is at home there.
pub fn inserted_mark(w1: u64, slot: u8) -> u64
    ensures { result ≡ inserted_mark w1 slot }
{
    let slot = u32::from(slot);
    (w1 | mask(slot)) & !mask(MEMBER_FROM + slot)
}

/// The metadata word with the slot taken, by a record that stands in its probing bucket.
pub fn member_mark(w1: u64, slot: u8) -> u64
    ensures { result ≡ member_mark w1 slot }
{
    let slot = u32::from(slot);
    w1 | mask(slot) | mask(MEMBER_FROM + slot)
}

/// The metadata word with the slot free.
pub fn removed_mark(w1: u64, slot: u8) -> u64
    ensures { result ≡ removed_mark w1 slot }
{
    let slot = u32::from(slot);
    w1 & !mask(slot) & !mask(MEMBER_FROM + slot)
}

/// The number of the word, 2 or 3, that has a slot's fingerprint.
pub fn finger_place(slot: u8) -> usize
    ensures is { result ≡ finger_place slot }
    ensures within { result < first_key }
{
    if slot < FINGERS_OF_WORD {
        FINGERS_PLACE
    } else {
        REST_PLACE
    }
}

/// A word of fingerprints with that of a slot changed.
pub fn with_finger(word: u64, slot: u8, finger: u8) -> u64
    ensures { result ≡ with_finger word slot finger }
{
    let mut bytes = word.to_le_bytes();
    bytes[usize::from(slot % FINGERS_OF_WORD)] = finger;
    u64::from_le_bytes(bytes)
}

/// The fingerprints of record slots alone, of word 3.
pub fn slot_fingers_part(w3: u64) -> u64
    ensures { result ≡ slot_fingers_part w3 }
{
    w3 % (1 << NOTE_FINGERS_FROM)
}

/// Puts a word among a bucket's words, where they stand; a number past them changes none.
pub fn set_word(words: &mut [u64; BUCKET_WORDS], at: u8, value: u64)
    ensures { words.new ≡ slice_set words.old at value }
{
    let at = usize::from(at);
    if at < BUCKET_WORDS {
        words[at] = value;
    }
}

// ---- overflow notes

/// Whether a note slot holds a note.
pub fn has_note(w1: u64, note_slot: u8) -> bool
    requires { note_slot < note_slots }
    ensures { result ≡ (note_used note_slot w1 == 1) }
{
    is_set(w1, NOTE_USED_FROM + u32::from(note_slot))
}

/// Whether the note on a note slot is of a record whose probing bucket this is.
pub fn is_note_of_member(w1: u64, note_slot: u8) -> bool
    requires { note_slot < note_slots }
    ensures { result ≡ (note_member note_slot w1 == 1) }
{
    is_set(w1, NOTE_MEMBER_FROM + u32::from(note_slot))
}

/// Whether a note slot holds a note of this side: [`HOME_SIDE`] for records whose home this bucket is, [`PROBING_SIDE`] for those whose
/// probing bucket it is.
pub fn is_note_on(w1: u64, note_slot: u8, side: u64) -> bool
    requires { note_slot < note_slots }
    ensures { IsTrue result ↔ IsNoteOn w1 side note_slot }
{
    has_note(w1, note_slot) && u64::from(is_note_of_member(w1, note_slot)) == side
}

/// The stash bucket that the note on a note slot names, 0 or 1.
pub fn note_index_of(w1: u64, note_slot: u8) -> u8
    requires { note_slot < note_slots }
    ensures is { result ≡ note_index note_slot w1 }
    ensures stash { result < stash_indices }
{
    bits_of(w1, NOTE_INDEX_FROM + u32::from(note_slot), 1) as u8
}

/// The fingerprint of the note on a note slot: those of the lower ones stand in word 3 of the bucket, those of the upper ones in word 1.
pub fn note_finger_of(w1: u64, w3: u64, note_slot: u8) -> u8
    requires { note_slot < note_slots }
    ensures { result ≡ note_finger note_slot w1 w3 }
{
    if note_slot < LOWER_NOTES {
        bits_of(
            w3,
            NOTE_FINGERS_FROM + FINGERPRINT_BITS * u32::from(note_slot),
            FINGERPRINT_BITS,
        ) as u8
    } else {
        bits_of(
            w1,
            UPPER_FINGERS_FROM + FINGERPRINT_BITS * u32::from(note_slot - LOWER_NOTES),
            FINGERPRINT_BITS,
        ) as u8
    }
}

/// How many records of the bucket stand in the stash without a note, 0 to 31.
pub fn overflow_count_of(w1: u64) -> u8
    ensures is { result ≡ overflow_count w1 }
    ensures most { result < 2 ^ count_bits }
{
    bits_of(w1, COUNT_FROM, COUNT_BITS) as u8
}

/// Whether no note slot holds a note.
pub fn has_no_note(w1: u64) -> bool
    ensures { IsTrue result ↔ ((i : ℕ) → i < note_slots → note_used i w1 ≡ 0) }
{
    bits_of(w1, NOTE_USED_FROM, u32::from(NOTE_SLOTS)) == 0
}

/// The side of the note on a note slot.
fn note_side_of(w1: u64, place: u8) -> u8
    requires { place < note_slots }
    ensures { result ≡ note_member place w1 }
{
    bits_of(w1, NOTE_MEMBER_FROM + u32::from(place), 1) as u8
}

/// Whether a note slot has a note of this side, fingerprint and stash bucket.
fn is_note(w1: u64, w3: u64, side: u8, finger: u8, index: u8, place: u8) -> bool
    requires { place < note_slots }
    ensures { result ≡ is_note w1 w3 side finger index place }
{
    has_note(w1, place)
        && note_side_of(w1, place) == side
        && note_index_of(w1, place) == index
        && note_finger_of(w1, w3, place) == finger
}

/// Whether one of the note slots has, by words 1 and 3 of the bucket. They are gone through without a loop, since each get asks this:
/// the first and the last of the lower ones, and the first and the last of the upper ones.
fn is_named(w1: u64, w3: u64, side: u8, finger: u8, index: u8) -> bool
    ensures { result ≡ is_named w1 w3 side finger index }
{
    is_note(w1, w3, side, finger, index, 0)
        || is_note(w1, w3, side, finger, index, LAST_LOWER_NOTE)
        || is_note(w1, w3, side, finger, index, LOWER_NOTES)
        || is_note(w1, w3, side, finger, index, LAST_NOTE)
}

/// Whether stash bucket `index`, 0 or 1, is to be visited for a fingerprint, by words 1 and 3 of the home bucket, `w1` and
/// `w3`, and of the probing bucket, `u1` and `u3`: the home has records there without a note, or a note names both.
pub fn must_visit(w1: u64, w3: u64, u1: u64, u3: u64, finger: u8, index: u8) -> bool
    ensures { result ≡ must_visit w1 w3 u1 u3 finger index }
{
    overflow_count_of(w1) > 0
        || is_named(w1, w3, HOME_SIDE, finger, index)
        || is_named(u1, u3, PROBING_SIDE, finger, index)
}

/// The lowest note slot with a note of this side, fingerprint and stash bucket.
pub fn note_place(w1: u64, w3: u64, side: u8, finger: u8, index: u8) -> Option<u8>
    ensures is { result ≡ note_place w1 w3 side finger index }
    ensures within { IfSome result (λ place. place < note_slots) }
{
    for place in 0..NOTE_SLOTS {
        if is_note(w1, w3, side, finger, index, place) {
            return Some(place);
        }
    }
    None
}

/// The bits of the metadata word that have the fingerprint of a note slot.
fn finger_bits(place: u8) -> u64
    ensures { result ≡ finger_bits place }
{
    match place {
        LOWER_NOTES => FINGER_MASK << UPPER_FINGERS_FROM,
        LAST_NOTE => FINGER_MASK << LAST_FINGER_FROM,
        _ => 0,
    }
}

/// The metadata word with a note slot freed: all that it has of it is 0.
pub fn freed_mark(w1: u64, place: u8) -> u64
    ensures { result ≡ freed_mark w1 place }
{
    let place_bits = u32::from(place);
    w1 & !mask(NOTE_USED_FROM + place_bits)
        & !mask(NOTE_MEMBER_FROM + place_bits)
        & !mask(NOTE_INDEX_FROM + place_bits)
        & !finger_bits(place)
}

/// Word 3 with that note slot freed: its fingerprint, where that stands there, becomes 0.
pub fn freed_fingers(w3: u64, place: u8) -> u64
    ensures { result ≡ freed_fingers w3 place }
{
    noted_fingers(w3, place, 0)
}

/// The metadata word with one less of the records that stand in the stash without a note; there has to be one.
pub fn lowered_count(w1: u64) -> u64
    ensures { result ≡ lowered_count w1 }
{
    w1.saturating_sub(1 << COUNT_FROM)
}

/// Whether no note stands on a note slot.
fn is_unused(w1: u64, place: u8) -> bool
    requires { place < note_slots }
    ensures { result ≡ is_unused w1 place }
{
    !has_note(w1, place)
}

/// The lowest note slot on which no note stands.
pub fn unused_place(w1: u64) -> Option<u8>
    ensures is { result ≡ unused_place w1 }
    ensures within { IfSome result (λ place. place < note_slots) }
{
    for place in 0..NOTE_SLOTS {
        if is_unused(w1, place) {
            return Some(place);
        }
    }
    None
}

/// A word with a bit set where `on` is 1, and else cleared.
fn with_bit(word: u64, i: u32, on: u8) -> u64
    ensures { result ≡ with_bit word i on }
{
    if on == 1 {
        word | mask(i)
    } else {
        word & !mask(i)
    }
}

/// The metadata word with the fingerprint of a note slot, where that stands there: those of the upper ones do.
fn with_note_finger(w1: u64, place: u8, finger: u8) -> u64
    ensures { result ≡ with_note_finger w1 place finger }
{
    let finger = u64::from(finger);
    match place {
        LOWER_NOTES => (w1 & !finger_bits(LOWER_NOTES)) | (finger * (1 << UPPER_FINGERS_FROM)),
        LAST_NOTE => (w1 & !finger_bits(LAST_NOTE)) | (finger * (1 << LAST_FINGER_FROM)),
        _ => w1,
    }
}

/// The metadata word with a note put on a note slot: of this side, [`HOME_SIDE`] for a record whose home this bucket is and [`PROBING_SIDE`]
/// for one whose probing bucket it is, of this fingerprint and this stash bucket, 0 or 1. All that the note slot had is overwritten.
pub fn noted_mark(w1: u64, place: u8, side: u8, finger: u8, index: u8) -> u64
    ensures { result ≡ noted_mark w1 place side finger index }
{
    let at = u32::from(place);
    let used = with_bit(w1, NOTE_USED_FROM + at, 1);
    let on_side = with_bit(used, NOTE_MEMBER_FROM + at, side);
    let of_index = with_bit(on_side, NOTE_INDEX_FROM + at, index);
    with_note_finger(of_index, place, finger)
}

/// Word 3 with the fingerprint of that note, where it stands there: those of the lower note slots do.
pub fn noted_fingers(w3: u64, place: u8, finger: u8) -> u64
    ensures { result ≡ noted_fingers w3 place finger }
{
    match place {
        0 => with_finger(w3, REST_FINGERS, finger),
        LAST_LOWER_NOTE => with_finger(w3, REST_FINGERS + LAST_LOWER_NOTE, finger),
        _ => w3,
    }
}

/// The metadata word with one more of the records that stand in the stash without a note; there have to be fewer than 31.
pub fn raised_count(w1: u64) -> u64
    ensures { result ≡ raised_count w1 }
{
    w1.wrapping_add(1 << COUNT_FROM)
}
