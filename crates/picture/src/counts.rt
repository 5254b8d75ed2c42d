//! How many records buckets have, and how many the stash has for them.

ghost use Rattle.std.specs.Prelude.{◌≡◌, ℕ, ◌+◌, ◌^◌, ◌<◌, ◌≤◌, length, slice_index};
ghost use Rattle.bucket_meta.specs.Bucket.{mark_place, record_slots, records_of, note_slots, count_bits};
ghost use Rattle.image_layout.specs.Places.{bucket_at, buckets, homes, words_of};
ghost use Rattle.picture.specs.Counts.{notes_below, filled, stashed, stashed_below, sign};

use bucket_meta::Meta;
use bucket_meta::words::{MARK_PLACE, NOTE_SLOTS, has_note, overflow_count_of};
use image_layout::{Geometry, HOMES};

/// The metadata word of a bucket.
fn metadata_of(geometry: &Geometry, words: &[u64], s: u64, b: u8) -> u64
    requires whole { length words.now ≡ words_of geometry.now }
    requires slot { s < geometry.now.segments }
    requires bucket { b < buckets }
    ensures { result ≡ slice_index words.now (bucket_at geometry.now s b + mark_place) }
{
    words[geometry.bucket_at(s, b) as usize + MARK_PLACE]
}

/// How many record slots are taken, by the metadata word.
fn taken_in(w1: u64) -> u8
    ensures is { result ≡ records_of w1 }
    ensures most { result ≤ record_slots }
{
    Meta::read([w1, 0, 0]).filled()
}

/// How many note slots hold a note, by the metadata word.
fn notes_in(w1: u64) -> u8
    ensures is { result ≡ notes_below note_slots w1 }
    ensures most { result ≤ note_slots }
{
    let mut count = 0;
    for note_slot in 0..NOTE_SLOTS {
        if has_note(w1, note_slot) {
            count += 1;
        }
    }
    count
}

/// How many records bucket `b` of the segment in slot `s` has, 0 to 14.
pub fn filled(geometry: &Geometry, words: &[u64], s: u64, b: u8) -> u8
    requires whole { length words.now ≡ words_of geometry.now }
    requires slot { s < geometry.now.segments }
    requires bucket { b < buckets }
    ensures is { result ≡ filled geometry.now (slice_index words.now) s b }
    ensures most { result ≤ record_slots }
{
    taken_in(metadata_of(geometry, words, s, b))
}

/// How many records the stash has for home bucket `b` of the segment in slot `s`, as the bucket itself says: one for each of its
/// notes, and those that it only counts.
pub fn stashed(geometry: &Geometry, words: &[u64], s: u64, b: u8) -> u8
    requires whole { length words.now ≡ words_of geometry.now }
    requires slot { s < geometry.now.segments }
    requires bucket { b < buckets }
    ensures is { result ≡ stashed geometry.now (slice_index words.now) s b }
    ensures most { result < note_slots + 2 ^ count_bits }
{
    let w1 = metadata_of(geometry, words, s, b);
    notes_in(w1) + overflow_count_of(w1)
}

/// How many records the stash has for the home buckets of the segment in slot `s`, as they say.
#[tactic(auto, using(crate::proofs::Totals::one_bucket))]
pub fn all_stashed(geometry: &Geometry, words: &[u64], s: u64) -> u64
    requires whole { length words.now ≡ words_of geometry.now }
    requires slot { s < geometry.now.segments }
    ensures { result ≡ stashed_below homes geometry.now (slice_index words.now) s }
{
    let mut count = 0;
    for b in 0..HOMES {
        count += u64::from(stashed(geometry, words, s, b));
    }
    count
}

/// The sign of a bucket with so many records: a dot for none, then `1` to `9` and `a` to `e`.
pub fn sign(count: u8) -> char
    requires { count ≤ record_slots }
    ensures { result ≡ sign count }
{
    match count {
        0 => '.',
        1..=9 => (b'0' + count) as char,
        _ => (b'a' - 10 + count) as char,
    }
}
