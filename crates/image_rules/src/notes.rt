//! Overflow notes of home buckets, and whether they are exact.

ghost use Rattle.std.specs.Prelude.{◌≡◌, ◌*◌, ◌<◌, ◌≤◌, ◌↔◌, IsTrue, length, slice_index};
ghost use Rattle.image_layout.specs.Places.{words_of, homes, stash_buckets, stash_slots, buckets, block};
ghost use Rattle.bucket_meta.specs.Bucket.{note_index, note_finger, record_slots, note_slots, note_sides};
ghost use Rattle.sound_image.specs.Records.{word_in, notes_of, stashed_of, HasExactNotes};
ghost use Rattle.image_rules.specs.Noted.{matches, how_many, piece_on, noted, IsStashed, piece_in, stashed_below, IsNamed, AreNamed};
ghost use Rattle.image_rules.specs.Slots.{IsRecordSlot};

use crate::record_slot::{RecordSlot, bucket_word, is_empty, is_taken};
use crate::records::hash_in;
use bucket_meta::words::{
    self, FIRST_STASH_INDEX, MARK_PLACE, NOTE_SLOTS, REST_PLACE, SECOND_STASH_INDEX, SLOTS,
    has_no_note, is_note_on, note_finger_of, note_index_of, overflow_count_of,
};
use image_layout::{Geometry, HOMES, SECOND_STASH, stash_bucket};

/// The side of the notes that a bucket keeps of its own home.
const HOME_SIDE: u64 = words::HOME_SIDE as u64;

/// The side of those that it keeps of the home that has it as its probing bucket.
const PROBING_SIDE: u64 = words::PROBING_SIDE as u64;

/// An overflow note, or a record in the stash: its fingerprint, and its stash bucket.
#[derive(Clone, Copy)]
pub(crate) struct OverflowNote {
    /// The fingerprint.
    pub finger: u8,
    /// The stash bucket, 0 or 1.
    pub index: u8,
}

/// Word `i` of a bucket.
fn meta_in(geometry: &Geometry, words: &[u64], s: u64, b: u8, i: usize) -> u64
    requires whole { length words.now ≡ words_of geometry.now }
    requires segment { s < geometry.now.segments }
    requires bucket { b < buckets }
    requires word { i < block }
    ensures { result ≡ word_in geometry.now (slice_index words.now) s b i }
{
    words[bucket_word(geometry, s, b) + i]
}

/// The note on a note slot of a bucket.
fn note_on(w1: u64, w3: u64, note_slot: u8) -> OverflowNote
    requires { note_slot < note_slots }
    ensures finger { result.finger ≡ note_finger note_slot w1 w3 }
    ensures index { result.index ≡ note_index note_slot w1 }
{
    OverflowNote {
        finger: note_finger_of(w1, w3, note_slot),
        index: note_index_of(w1, note_slot),
    }
}

/// Whether a note is the one that is sought; each is where none is.
fn is_sought(sought: Option<OverflowNote>, note: OverflowNote) -> bool
    ensures { result ≡ matches sought (note.finger, note.index) }
{
    match sought {
        Some(other) => note.finger == other.finger && note.index == other.index,
        None => true,
    }
}

/// One if there is a note on a note slot of a bucket, for records of this side, that is the one that is sought.
fn count_at(w1: u64, w3: u64, side: u64, note_slot: u8, sought: Option<OverflowNote>) -> u8
    requires { note_slot < note_slots }
    ensures is { result ≡ how_many sought (piece_on w1 w3 side note_slot) }
    ensures most { result ≤ 1 }
{
    if !is_note_on(w1, note_slot, side) {
        return 0;
    }
    if is_sought(sought, note_on(w1, w3, note_slot)) {
        1
    } else {
        0
    }
}

/// How many notes on one side of a bucket are the one that is sought.
fn count_on(w1: u64, w3: u64, side: u64, sought: Option<OverflowNote>) -> u8
    ensures is { result ≡ how_many sought (noted w1 w3 side note_slots) }
    ensures most { result ≤ note_slots }
{
    let mut count = 0;
    for note_slot in 0..NOTE_SLOTS {
        count += count_at(w1, w3, side, note_slot, sought);
    }
    count
}

/// Whether slot `slot` of stash bucket `k` has a record of home bucket `b`.
fn is_stashed(geometry: &Geometry, words: &[u64], b: u8, record_slot: RecordSlot) -> bool
    requires whole { length words.now ≡ words_of geometry.now }
    requires record_slot { IsRecordSlot geometry.now record_slot }
    ensures { IsTrue result ↔ IsStashed geometry.now (slice_index words.now) b record_slot }
{
    is_taken(geometry, words, record_slot)
        && hash_word::home(hash_in(geometry, words, record_slot)) == b
}

/// One if a slot of stash bucket `k` has a record of home bucket `b` that is the one that is sought.
fn count_slot(
    geometry: &Geometry,
    words: &[u64],
    s: u64,
    b: u8,
    k: u8,
    slot: u8,
    sought: Option<OverflowNote>,
) -> u8
    requires whole { length words.now ≡ words_of geometry.now }
    requires segment { s < geometry.now.segments }
    requires stash { k < stash_buckets }
    requires slot { slot < record_slots }
    ensures is { result ≡ how_many sought (piece_in geometry.now (slice_index words.now) s b k slot) }
    ensures most { result ≤ 1 }
{
    let record_slot = RecordSlot {
        segment: s,
        bucket: stash_bucket(k),
        slot,
    };
    if !is_stashed(geometry, words, b, record_slot) {
        return 0;
    }
    let finger = hash_word::finger(hash_in(geometry, words, record_slot));
    if is_sought(sought, OverflowNote { finger, index: k }) {
        1
    } else {
        0
    }
}

/// How many records of home bucket `b` in stash bucket `k` are the one that is sought.
fn count_in(
    geometry: &Geometry,
    words: &[u64],
    s: u64,
    b: u8,
    k: u8,
    sought: Option<OverflowNote>,
) -> u8
    requires whole { length words.now ≡ words_of geometry.now }
    requires segment { s < geometry.now.segments }
    requires stash { k < stash_buckets }
    ensures is { result ≡ how_many sought (stashed_below geometry.now (slice_index words.now) s b k record_slots) }
    ensures most { result ≤ record_slots }
{
    if is_empty(geometry, words, s, stash_bucket(k)) {
        return 0;
    }
    let mut count = 0;
    for slot in 0..SLOTS {
        count += count_slot(geometry, words, s, b, k, slot, sought);
    }
    count
}

/// How many notes of home bucket `b` are the one that is sought.
fn count_notes(
    geometry: &Geometry,
    words: &[u64],
    s: u64,
    b: u8,
    sought: Option<OverflowNote>,
) -> u8
    requires whole { length words.now ≡ words_of geometry.now }
    requires segment { s < geometry.now.segments }
    requires bucket { b < homes }
    ensures is { result ≡ how_many sought (notes_of geometry.now (slice_index words.now) s b) }
    ensures most { result ≤ note_sides * note_slots }
{
    let beside = hash_word::probing(b);
    let own = count_on(
        meta_in(geometry, words, s, b, MARK_PLACE),
        meta_in(geometry, words, s, b, REST_PLACE),
        HOME_SIDE,
        sought,
    );
    let others = count_on(
        meta_in(geometry, words, s, beside, MARK_PLACE),
        meta_in(geometry, words, s, beside, REST_PLACE),
        PROBING_SIDE,
        sought,
    );
    own + others
}

/// How many records of home bucket `b` in the stash are the one that is sought.
fn count_stashed(
    geometry: &Geometry,
    words: &[u64],
    s: u64,
    b: u8,
    sought: Option<OverflowNote>,
) -> u8
    requires whole { length words.now ≡ words_of geometry.now }
    requires segment { s < geometry.now.segments }
    ensures is { result ≡ how_many sought (stashed_of geometry.now (slice_index words.now) s b) }
    ensures most { result ≤ stash_slots }
{
    count_in(geometry, words, s, b, FIRST_STASH_INDEX, sought)
        + count_in(geometry, words, s, b, SECOND_STASH_INDEX, sought)
}

/// Whether a note of home bucket `b` on a note slot of bucket `c`, if there is one on this side, stands at most as often among
/// all its notes as its record does in the stash.
fn is_named(
    geometry: &Geometry,
    words: &[u64],
    s: u64,
    b: u8,
    c: u8,
    side: u64,
    note_slot: u8,
) -> bool
    requires whole { length words.now ≡ words_of geometry.now }
    requires segment { s < geometry.now.segments }
    requires bucket { b < homes }
    requires other { c < homes }
    requires note_slot { note_slot < note_slots }
    ensures { IsTrue result ↔ IsNamed geometry.now (slice_index words.now) s b c side note_slot }
{
    let w1 = meta_in(geometry, words, s, c, MARK_PLACE);
    if !is_note_on(w1, note_slot, side) {
        return true;
    }
    let note = note_on(w1, meta_in(geometry, words, s, c, REST_PLACE), note_slot);
    let noted = count_notes(geometry, words, s, b, Some(note));
    let stashed = count_stashed(geometry, words, s, b, Some(note));
    if noted > stashed {
        return false;
    }
    true
}

/// Whether each note of home bucket `b` in bucket `c`, on this side, stands at most as often among all its notes as its
/// record does in the stash.
fn are_named(geometry: &Geometry, words: &[u64], s: u64, b: u8, c: u8, side: u64) -> bool
    requires whole { length words.now ≡ words_of geometry.now }
    requires segment { s < geometry.now.segments }
    requires bucket { b < homes }
    requires other { c < homes }
    ensures { IsTrue result ↔ AreNamed geometry.now (slice_index words.now) s b c side note_slots }
{
    for note_slot in 0..NOTE_SLOTS {
        if !is_named(geometry, words, s, b, c, side, note_slot) {
            return false;
        }
    }
    true
}

/// True only where nothing is noted or counted of home bucket `b`, and nothing is in the stash: as in most buckets, by
/// four words alone.
fn has_nothing_noted(geometry: &Geometry, words: &[u64], s: u64, b: u8) -> bool
    requires whole { length words.now ≡ words_of geometry.now }
    requires segment { s < geometry.now.segments }
    requires bucket { b < homes }
    ensures { IsTrue result → HasExactNotes geometry.now (slice_index words.now) s b }
{
    let own = meta_in(geometry, words, s, b, MARK_PLACE);
    if overflow_count_of(own) > 0 {
        return false;
    }
    if !has_no_note(own) {
        return false;
    }
    if !has_no_note(meta_in(geometry, words, s, hash_word::probing(b), MARK_PLACE)) {
        return false;
    }
    if !is_empty(geometry, words, s, HOMES) {
        return false;
    }
    is_empty(geometry, words, s, SECOND_STASH)
}

/// Whether the notes and the count of home bucket `b` are exact for its records in the stash.
pub(crate) fn has_exact_notes(geometry: &Geometry, words: &[u64], s: u64, b: u8) -> bool
    requires whole { length words.now ≡ words_of geometry.now }
    requires segment { s < geometry.now.segments }
    requires bucket { b < homes }
    ensures { IsTrue result ↔ HasExactNotes geometry.now (slice_index words.now) s b }
{
    if has_nothing_noted(geometry, words, s, b) {
        return true;
    }
    let unnoted = overflow_count_of(meta_in(geometry, words, s, b, MARK_PLACE));
    let noted = count_notes(geometry, words, s, b, None);
    if unnoted + noted != count_stashed(geometry, words, s, b, None) {
        return false;
    }
    if !are_named(geometry, words, s, b, b, HOME_SIDE) {
        return false;
    }
    are_named(geometry, words, s, b, hash_word::probing(b), PROBING_SIDE)
}
