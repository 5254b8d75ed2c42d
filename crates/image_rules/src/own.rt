//! The pairs of an image, by record slots.

ghost use Rattle.std.specs.Prelude.{◌≡◌, ◌*◌, ◌<◌, ◌↔◌, length, slice_index, IsTrue};
ghost use Rattle.image_layout.specs.Places.{words_of, segment_slots, most_segments};
ghost use Rattle.image_rules.specs.Slots.{IsStanding};
ghost use Rattle.image_rules.specs.Own.{record_slot_at, pair_at, IsFirstAt};

use crate::record_slot::{RecordSlot, is_taken, key_in, value_in};
use crate::records::{RecordRule, is_own};
use bucket_meta::words::SLOTS;
use image_layout::{Geometry, SEGMENT_SLOTS};

/// How many record slots a bucket has.
const BUCKET_SLOTS: u64 = SLOTS as u64;

/// Record slot `n` of an image, of the 924 of each segment, bucket by bucket.
fn record_slot_of(n: u64) -> RecordSlot
    requires { n < segment_slots * most_segments }
    ensures { result ≡ record_slot_at n }
{
    RecordSlot {
        segment: n / SEGMENT_SLOTS,
        bucket: (n % SEGMENT_SLOTS / BUCKET_SLOTS) as u8,
        slot: (n % BUCKET_SLOTS) as u8,
    }
}

/// Whether record slot `n` has a record that is its segment's own and the first of its key there.
pub fn is_first_at(geometry: &Geometry, words: &[u64], n: u64) -> bool
    requires whole { length words.now ≡ words_of geometry.now }
    requires standing { IsStanding geometry.now (slice_index words.now) }
    requires slot { n < segment_slots * geometry.now.segments }
    ensures { IsTrue result ↔ IsFirstAt geometry.now (slice_index words.now) n }
{
    let _ = geometry.segments();
    let record_slot = record_slot_of(n);
    if !is_taken(geometry, words, record_slot) {
        return false;
    }
    if !is_own(geometry, words, record_slot) {
        return false;
    }
    RecordRule::Once.agree_before(geometry, words, record_slot)
}

/// The key and the value in record slot `n`, whether it has a record or not.
pub fn pair_at(geometry: &Geometry, words: &[u64], n: u64) -> (u64, u64)
    requires whole { length words.now ≡ words_of geometry.now }
    requires slot { n < segment_slots * geometry.now.segments }
    ensures { result ≡ pair_at geometry.now (slice_index words.now) n }
{
    let _ = geometry.segments();
    let record_slot = record_slot_of(n);
    (
        key_in(geometry, words, record_slot),
        value_in(geometry, words, record_slot),
    )
}
