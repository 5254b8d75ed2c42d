//! The records that a repair clears.

ghost use Rattle.std.specs.Prelude.{◌≡◌, ℕ, ◌≤◌, ◌<◌, ◌+◌, ◌↔◌, IsTrue};
ghost use Rattle.bucket_meta.specs.Bucket.{record_slots};
ghost use Rattle.hash_word.specs.Hash.{hash_bits};
ghost use Rattle.image_layout.specs.Places.{homes, buckets, slots_of_key};
ghost use Rattle.sound_image.specs.Records.{key_hash};
ghost use Rattle.whole_segment.specs.Order.{bucket_in_order, position_of};

use crate::Loaded;
use bucket_meta::cleared_mark;
use bucket_meta::words::SLOTS;
use hash_word::{covers, home, probing};
use image_layout::{BUCKETS, Geometry, HOMES, SECOND_STASH, SLOTS_OF_KEY};
use word_bits::{each_fits, mask};

/// The bucket of a position, for a key of this home.
fn bucket_in_order(home: u8, position: u8) -> u8
    requires home { home < homes }
    requires position { position < slots_of_key }
    ensures is { result ≡ bucket_in_order home position }
    ensures bucket { result < buckets }
{
    if position < SLOTS {
        home
    } else if position < 2 * SLOTS {
        probing(home)
    } else if position < 3 * SLOTS {
        HOMES
    } else {
        SECOND_STASH
    }
}

/// The position of a slot of a bucket, for a key of this home.
fn position_of(home: u8, bucket: u8, slot: u8) -> u8
    requires home { home < homes }
    requires slot { slot < record_slots }
    ensures is { result ≡ position_of home bucket slot }
    ensures most { result ≤ slots_of_key }
{
    if bucket == home {
        slot
    } else if bucket == probing(home) {
        SLOTS + slot
    } else if bucket == HOMES {
        2 * SLOTS + slot
    } else if bucket == SECOND_STASH {
        3 * SLOTS + slot
    } else {
        SLOTS_OF_KEY
    }
}

impl Loaded {
    ghost use Rattle.whole_segment.specs.Slots.{IsSetOf};
    ghost use Rattle.whole_segment.specs.Records.{first_in, key_in};
    ghost use Rattle.whole_segment.specs.Order.{IsAt, StandsBefore};
    ghost use Rattle.whole_segment.specs.Mending.{IsSpoiled, spoiled_set, without_spoiled, IsMended};

    /// Whether a record of this key stands at a position of this home.
    fn is_at(&self, home: u8, key: u64, position: u8) -> bool
        requires home { home < homes }
        requires position { position < slots_of_key }
        ensures { IsTrue result ↔ IsAt (first_in self.now) (key_in self.now) home key position }
    {
        let bucket = bucket_in_order(home, position);
        let slot = position % SLOTS;
        self.is_taken(bucket, slot) && self.key(bucket, slot) == key
    }

    /// Whether the key in a record slot stands at an earlier position too.
    fn stands_before(&self, geometry: &Geometry, bucket: u8, slot: u8) -> bool
        requires bucket { bucket < buckets }
        requires slot { slot < record_slots }
        ensures { IsTrue result ↔ StandsBefore (first_in self.now) (key_in self.now) (key_hash geometry.now) bucket slot }
    {
        let home = home(self.hash(geometry, bucket, slot));
        let key = self.key(bucket, slot);
        for position in 0..position_of(home, bucket, slot) {
            if self.is_at(home, key, position) {
                return true;
            }
        }
        false
    }

    /// Whether a record slot is to be cleared by a repair of a segment of this depth and pattern.
    fn is_spoiled(&self, geometry: &Geometry, bucket: u8, slot: u8, depth: u8, pattern: u32) -> bool
        requires bucket { bucket < buckets }
        requires slot { slot < record_slots }
        requires depth { depth ≤ hash_bits }
        ensures { IsTrue result ↔ IsSpoiled (first_in self.now) (key_in self.now) (key_hash geometry.now) depth pattern bucket slot }
    {
        self.is_taken(bucket, slot)
            && (!covers(depth, pattern, self.hash(geometry, bucket, slot))
                || self.stands_before(geometry, bucket, slot))
    }

    /// The slots of a bucket that a repair of a segment of this depth and pattern clears, as a set: those with records that it does not
    /// cover, and of a key that stands twice all but the first in the order home, probing bucket, stash, slots ascending.
    pub fn spoiled_slots(&self, geometry: &Geometry, bucket: u8, depth: u8, pattern: u32) -> u64
        requires bucket { bucket < buckets }
        requires depth { depth ≤ hash_bits }
        ensures set { IsSetOf (IsSpoiled (first_in self.now) (key_in self.now) (key_hash geometry.now) depth pattern bucket) result }
        ensures is { result ≡ spoiled_set (first_in self.now) (key_in self.now) (key_hash geometry.now) depth pattern bucket }
    {
        let mut slots = 0;
        for slot in 0..SLOTS {
            if self.is_spoiled(geometry, bucket, slot, depth, pattern) {
                slots |= mask(u32::from(slot));
            }
        }
        slots
    }

    /// The segment with its spoiled slots cleared in all buckets, and with its overflow notes as they are: what a repair leaves of it.
    pub fn mended(&self, geometry: &Geometry, depth: u8, pattern: u32) -> Loaded
        requires { depth ≤ hash_bits }
        ensures is { (b : ℕ) → b < buckets → first_in result b
            ≡ without_spoiled (first_in self.now) (spoiled_set (first_in self.now) (key_in self.now) (key_hash geometry.now) depth pattern) b }
        ensures mended { IsMended (first_in self.now) (first_in result) (key_in self.now) (key_hash geometry.now) depth pattern }
        ensures third { result.third ≡ self.now.third }
        ensures keys { result.keys ≡ self.now.keys }
    {
        each_fits(&self.first);
        let mut mended = *self;
        for bucket in 0..BUCKETS {
            let spoiled = self.spoiled_slots(geometry, bucket, depth, pattern);
            let mark = cleared_mark(self.first[usize::from(bucket)], spoiled);
            mended.set_first(bucket, mark);
        }
        mended
    }
}
