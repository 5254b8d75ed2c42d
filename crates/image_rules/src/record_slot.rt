//! Record slots of an image, and what stands in them.

ghost use Rattle.std.specs.Prelude.{◌≡◌, ℕ, ◌+◌, ◌<◌, ◌≤◌, ◌↔◌, IsTrue, length, slice_index};
ghost use Rattle.bucket_meta.specs.Bucket.{record_slots};
ghost use Rattle.image_layout.specs.Places.{bucket_at, words_of, buckets, block, most_words};
ghost use Rattle.sound_image.specs.Records.{slot_key, slot_value};
ghost use Rattle.image_rules.specs.Slots.{IsRecordSlot, IsTaken};

use bucket_meta::words::{self, MARK_PLACE, key_place, value_place};
use image_layout::Geometry;

/// A record slot.
#[derive(Clone, Copy, Debug, PartialEq, Eq)]
pub struct RecordSlot {
    /// The slot of its segment.
    pub segment: u64,
    /// Its bucket in the segment, 0 to 65 with the stash buckets.
    pub bucket: u8,
    /// Its number in the bucket, 0 to 13.
    pub slot: u8,
}

/// The word where bucket `b` of a segment begins, 0 to 65 with the stash buckets.
pub(crate) fn bucket_word(geometry: &Geometry, s: u64, b: u8) -> usize
    requires segment { s < geometry.now.segments }
    requires bucket { b < buckets }
    ensures is { result ≡ bucket_at geometry.now s b }
    ensures within { result + block ≤ words_of geometry.now }
    ensures most { result + block ≤ most_words }
{
    geometry.bucket_at(s, b) as usize
}

/// Whether a record slot has a record.
pub(crate) fn is_taken(geometry: &Geometry, words: &[u64], record_slot: RecordSlot) -> bool
    requires whole { length words.now ≡ words_of geometry.now }
    requires record_slot { IsRecordSlot geometry.now record_slot }
    ensures { IsTrue result ↔ IsTaken geometry.now (slice_index words.now) record_slot.segment record_slot.bucket record_slot.slot }
{
    words::is_taken(
        words[bucket_word(geometry, record_slot.segment, record_slot.bucket) + MARK_PLACE],
        record_slot.slot,
    )
}

/// Whether a bucket has no record.
pub(crate) fn is_empty(geometry: &Geometry, words: &[u64], s: u64, b: u8) -> bool
    requires whole { length words.now ≡ words_of geometry.now }
    requires segment { s < geometry.now.segments }
    requires bucket { b < buckets }
    ensures { IsTrue result → (r : ℕ) → r < record_slots → IsTaken geometry.now (slice_index words.now) s b r → ⊥ }
{
    words::is_empty(words[bucket_word(geometry, s, b) + MARK_PLACE])
}

/// The key in a record slot.
pub(crate) fn key_in(geometry: &Geometry, words: &[u64], record_slot: RecordSlot) -> u64
    requires whole { length words.now ≡ words_of geometry.now }
    requires record_slot { IsRecordSlot geometry.now record_slot }
    ensures { result ≡ slot_key geometry.now (slice_index words.now) record_slot.segment record_slot.bucket record_slot.slot }
{
    words[bucket_word(geometry, record_slot.segment, record_slot.bucket)
        + key_place(record_slot.slot)]
}

/// The value in a record slot.
pub(crate) fn value_in(geometry: &Geometry, words: &[u64], record_slot: RecordSlot) -> u64
    requires whole { length words.now ≡ words_of geometry.now }
    requires record_slot { IsRecordSlot geometry.now record_slot }
    ensures { result ≡ slot_value geometry.now (slice_index words.now) record_slot.segment record_slot.bucket record_slot.slot }
{
    words[bucket_word(geometry, record_slot.segment, record_slot.bucket)
        + value_place(record_slot.slot)]
}
