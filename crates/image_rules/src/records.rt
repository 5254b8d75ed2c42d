//! What the rules say of records, slot by slot.

ghost use Rattle.std.specs.Prelude.{◌≡◌, ℕ, ◌+◌, ◌*◌, ◌<◌, ◌≤◌, ◌↔◌, IfSome, IfNone, IsTrue, length, slice_index};
ghost use Rattle.image_layout.specs.Places.{words_of, buckets};
ghost use Rattle.bucket_meta.specs.Bucket.{finger, record_slots};
ghost use Rattle.sound_image.specs.Segments.{frame_of, Owns};
ghost use Rattle.sound_image.specs.Records.{slot_hash};
ghost use Rattle.sound_image.specs.Rules.{StandsRight};
ghost use Rattle.image_rules.specs.Divided.{IsDivided};
ghost use Rattle.image_rules.specs.Slots.{IsRecordSlot, IsTwin, Needs, IsStandingIn, Agrees, AgreeBelow, AgreeIn, AgreeBefore, Follows, FollowBelow, IsFirstBroken, BucketsFollow, IsFirstKey, SegmentsFollow, IsFirstOfAll};

use crate::heads::owns;
use crate::record_slot::{RecordSlot, bucket_word, is_empty, is_taken, key_in, value_in};
use bucket_meta::words::{
    FINGERS_PLACE, MARK_PLACE, REST_PLACE, SLOTS, finger_of, is_member, key_place,
};
use image_layout::{BUCKETS, Geometry, HOMES, SECOND_STASH};
use way::key_hash;

/// One thing that a rule says of each record.
#[derive(Clone, Copy)]
pub(crate) enum RecordRule {
    /// It stands where it is looked for, with its fingerprint, if it is its segment's own.
    Stand,
    /// Those of its key before it have its value, if it is its segment's own.
    Value,
    /// It is its segment's own, and none of its key is before it.
    Once,
}

/// The hash of the key in a record slot.
pub(crate) fn hash_in(geometry: &Geometry, words: &[u64], record_slot: RecordSlot) -> u64
    requires whole { length words.now ≡ words_of geometry.now }
    requires record_slot { IsRecordSlot geometry.now record_slot }
    ensures { result ≡ slot_hash geometry.now (slice_index words.now) record_slot.segment record_slot.bucket record_slot.slot }
{
    key_hash(geometry, key_in(geometry, words, record_slot))
}

/// Whether a record stands in its home bucket without the membership bit, in its probing bucket with it, or in the stash;
/// and with the fingerprint of its key.
fn stands_right(geometry: &Geometry, words: &[u64], record_slot: RecordSlot) -> bool
    requires whole { length words.now ≡ words_of geometry.now }
    requires record_slot { IsRecordSlot geometry.now record_slot }
    ensures { IsTrue result ↔ StandsRight geometry.now (slice_index words.now) record_slot.segment record_slot.bucket record_slot.slot }
{
    let at = bucket_word(geometry, record_slot.segment, record_slot.bucket);
    let hash = hash_in(geometry, words, record_slot);
    if finger_of(
        words[at + FINGERS_PLACE],
        words[at + REST_PLACE],
        record_slot.slot,
    ) != hash_word::finger(hash)
    {
        return false;
    }
    let home = hash_word::home(hash);
    let own = if is_member(words[at + MARK_PLACE], record_slot.slot) {
        hash_word::probing(home)
    } else {
        home
    };
    record_slot.bucket == own || record_slot.bucket >= HOMES
}

/// Whether a segment owns the record in one of its slots.
pub(crate) fn is_own(geometry: &Geometry, words: &[u64], record_slot: RecordSlot) -> bool
    requires whole { length words.now ≡ words_of geometry.now }
    requires divided { IsDivided geometry.now (slice_index words.now) }
    requires record_slot { IsRecordSlot geometry.now record_slot }
    ensures { IsTrue result ↔ Owns (frame_of geometry.now (slice_index words.now)) record_slot.segment (slot_hash geometry.now (slice_index words.now) record_slot.segment record_slot.bucket record_slot.slot) }
{
    owns(
        geometry,
        words,
        record_slot.segment,
        hash_in(geometry, words, record_slot),
    )
}

/// Whether two record slots of a segment have records of one key.
fn is_twin(geometry: &Geometry, words: &[u64], record_slot: RecordSlot, other: RecordSlot) -> bool
    requires whole { length words.now ≡ words_of geometry.now }
    requires record_slot { IsRecordSlot geometry.now record_slot }
    requires other { IsRecordSlot geometry.now other }
    requires segment { other.segment ≡ record_slot.segment }
    ensures { IsTrue result ↔ IsTwin geometry.now (slice_index words.now) record_slot other }
{
    is_taken(geometry, words, other)
        && key_in(geometry, words, other) == key_in(geometry, words, record_slot)
}

impl RecordRule {
    /// Whether the rule allows two records of a key.
    fn agrees(
        self,
        geometry: &Geometry,
        words: &[u64],
        record_slot: RecordSlot,
        other: RecordSlot,
    ) -> bool
        requires whole { length words.now ≡ words_of geometry.now }
        requires record_slot { IsRecordSlot geometry.now record_slot }
        requires other { IsRecordSlot geometry.now other }
        ensures { IsTrue result ↔ Agrees geometry.now (slice_index words.now) self record_slot other }
    {
        match self {
            RecordRule::Value => {
                value_in(geometry, words, other) == value_in(geometry, words, record_slot)
            }
            RecordRule::Stand | RecordRule::Once => false,
        }
    }

    /// Whether the rule allows the records of the key in slots of bucket `c` below a limit.
    fn agree_below(
        self,
        geometry: &Geometry,
        words: &[u64],
        record_slot: RecordSlot,
        c: u8,
        limit: u8,
    ) -> bool
        requires whole { length words.now ≡ words_of geometry.now }
        requires record_slot { IsRecordSlot geometry.now record_slot }
        requires bucket { c < buckets }
        requires limit { limit ≤ record_slots }
        ensures { IsTrue result ↔ AgreeBelow geometry.now (slice_index words.now) self record_slot c limit }
    {
        for slot in 0..limit {
            let other = RecordSlot {
                bucket: c,
                slot,
                ..record_slot
            };
            if is_twin(geometry, words, record_slot, other)
                && !self.agrees(geometry, words, record_slot, other)
            {
                return false;
            }
        }
        true
    }

    /// Whether the rule allows the records of the key in bucket `c` that are before this one.
    fn agree_in(self, geometry: &Geometry, words: &[u64], record_slot: RecordSlot, c: u8) -> bool
        requires whole { length words.now ≡ words_of geometry.now }
        requires record_slot { IsRecordSlot geometry.now record_slot }
        requires bucket { c < buckets }
        ensures { IsTrue result ↔ AgreeIn geometry.now (slice_index words.now) self record_slot c }
    {
        let limit = if c < record_slot.bucket {
            SLOTS
        } else if c == record_slot.bucket {
            record_slot.slot
        } else {
            0
        };
        self.agree_below(geometry, words, record_slot, c, limit)
    }

    /// Whether the rule allows the records of the key that are before this one in its segment, whose own it is. Those
    /// are the segment's own too, so they stand in their home bucket, in their probing bucket or in the stash, which are
    /// those of this one.
    pub(crate) fn agree_before(
        self,
        geometry: &Geometry,
        words: &[u64],
        record_slot: RecordSlot,
    ) -> bool
        requires whole { length words.now ≡ words_of geometry.now }
        requires standing { IsStandingIn geometry.now (slice_index words.now) record_slot.segment }
        requires record_slot { IsRecordSlot geometry.now record_slot }
        requires own { Owns (frame_of geometry.now (slice_index words.now)) record_slot.segment (slot_hash geometry.now (slice_index words.now) record_slot.segment record_slot.bucket record_slot.slot) }
        ensures { IsTrue result ↔ AgreeBefore geometry.now (slice_index words.now) self record_slot }
    {
        let home = hash_word::home(hash_in(geometry, words, record_slot));
        if !self.agree_in(geometry, words, record_slot, home) {
            return false;
        }
        if !self.agree_in(geometry, words, record_slot, hash_word::probing(home)) {
            return false;
        }
        if !self.agree_in(geometry, words, record_slot, HOMES) {
            return false;
        }
        self.agree_in(geometry, words, record_slot, SECOND_STASH)
    }

    /// Whether the rule holds of the record in a slot.
    fn holds(self, geometry: &Geometry, words: &[u64], record_slot: RecordSlot) -> bool
        requires whole { length words.now ≡ words_of geometry.now }
        requires needs { Needs geometry.now (slice_index words.now) self record_slot.segment }
        requires record_slot { IsRecordSlot geometry.now record_slot }
        ensures { IsTrue result ↔ Follows geometry.now (slice_index words.now) self record_slot.segment record_slot.bucket record_slot.slot }
    {
        match self {
            RecordRule::Stand => {
                !is_own(geometry, words, record_slot) || stands_right(geometry, words, record_slot)
            }
            RecordRule::Value => {
                !is_own(geometry, words, record_slot)
                    || self.agree_before(geometry, words, record_slot)
            }
            RecordRule::Once => {
                is_own(geometry, words, record_slot)
                    && self.agree_before(geometry, words, record_slot)
            }
        }
    }

    /// The first slot of a bucket with a record of which the rule does not hold.
    pub(crate) fn first_broken(
        self,
        geometry: &Geometry,
        words: &[u64],
        s: u64,
        b: u8,
    ) -> Option<u8>
        requires whole { length words.now ≡ words_of geometry.now }
        requires needs { Needs geometry.now (slice_index words.now) self s }
        requires segment { s < geometry.now.segments }
        requires bucket { b < buckets }
        ensures some { IfSome result (λ slot. IsFirstBroken geometry.now (slice_index words.now) self s b slot) }
        ensures none { IfNone result (FollowBelow geometry.now (slice_index words.now) self s b record_slots) }
    {
        if is_empty(geometry, words, s, b) {
            return None;
        }
        for slot in 0..SLOTS {
            let record_slot = RecordSlot {
                segment: s,
                bucket: b,
                slot,
            };
            if is_taken(geometry, words, record_slot) && !self.holds(geometry, words, record_slot) {
                return Some(slot);
            }
        }
        None
    }

    /// The word of the key of the first record of a segment of which the rule does not hold.
    pub(crate) fn first_key(self, geometry: &Geometry, words: &[u64], s: u64) -> Option<u64>
        requires whole { length words.now ≡ words_of geometry.now }
        requires needs { Needs geometry.now (slice_index words.now) self s }
        requires segment { s < geometry.now.segments }
        ensures some { IfSome result (λ w. IsFirstKey geometry.now (slice_index words.now) self s w) }
        ensures none { IfNone result (BucketsFollow geometry.now (slice_index words.now) self s buckets) }
    {
        for b in 0..BUCKETS {
            if let Some(slot) = self.first_broken(geometry, words, s, b) {
                let key = bucket_word(geometry, s, b) + key_place(slot);
                return Some(key as u64);
            }
        }
        None
    }

    /// The word of the key of the first record of the image of which the rule does not hold.
    pub(crate) fn first_of_all(self, geometry: &Geometry, words: &[u64]) -> Option<u64>
        requires whole { length words.now ≡ words_of geometry.now }
        requires needs { (s : ℕ) → Needs geometry.now (slice_index words.now) self s }
        ensures some { IfSome result (λ w. IsFirstOfAll geometry.now (slice_index words.now) self w) }
        ensures none { IfNone result (SegmentsFollow geometry.now (slice_index words.now) self geometry.now.segments) }
    {
        for s in 0..geometry.segments() {
            if let Some(word) = self.first_key(geometry, words, s) {
                return Some(word);
            }
        }
        None
    }
}
