//! What is loaded of a segment, and which of its records a segment covers.

ghost use Rattle.std.specs.Prelude.{◌≡◌, ◌≢◌, ℕ, ◌+◌, ◌*◌, ◌^◌, ◌<◌, ◌≤◌, ◌↔◌, IsTrue, length};
ghost use Rattle.bucket_meta.specs.Bucket.{allocated, record_slots};
ghost use Rattle.hash_word.specs.Hash.{hash_bits, Covers};
ghost use Rattle.image_layout.specs.Places.{buckets, segment_slots};
ghost use Rattle.sound_image.specs.Records.{key_hash};

use bucket_meta::words::{MARK_PLACE, REST_PLACE, SLOTS, is_taken, key_place};
use hash_word::covers;
use image_layout::{BUCKETS, Geometry, SEGMENT_SLOTS, WORDS_OF_BUCKETS, first_among_buckets};
use way::key_hash;
use word_bits::mask;

/// What is loaded of a segment.
#[derive(Clone, Copy)]
pub struct Loaded {
    /// Word 1 of each bucket: which of its slots are taken, and its overflow notes.
    pub first: [u64; BUCKETS as usize],
    /// Word 3 of each bucket: fingerprints of its slots and of its notes.
    pub third: [u64; BUCKETS as usize],
    /// The keys in all record slots: that of slot `r` of bucket `b` is number `14 * b + r`.
    pub keys: [u64; SEGMENT_SLOTS as usize],
    pub ghost each_first: { length first ≡ buckets },
    pub ghost each_third: { length third ≡ buckets },
    pub ghost each_key: { length keys ≡ segment_slots },
}

impl Loaded {
    ghost use Rattle.whole_segment.specs.Slots.{IsSetOf};
    ghost use Rattle.whole_segment.specs.Records.{first_in, third_in, key_in, key_of, HasWords, IsCovered, covered_set};

    /// Nothing loaded: no slot is taken.
    pub fn blank() -> Loaded
        ensures first { (b : ℕ) → first_in result b ≡ 0 }
        ensures third { (b : ℕ) → third_in result b ≡ 0 }
        ensures keys { (b r : ℕ) → key_in result b r ≡ 0 }
    {
        Loaded {
            first: [0; BUCKETS as usize],
            third: [0; BUCKETS as usize],
            keys: [0; SEGMENT_SLOTS as usize],
        }
    }

    /// Puts word 1 of a bucket.
    pub fn set_first(&mut self, bucket: u8, word: u64)
        requires { bucket < buckets }
        ensures here { first_in self.new bucket ≡ word }
        ensures others { (b : ℕ) → b ≢ bucket → first_in self.new b ≡ first_in self.old b }
        ensures third { self.new.third ≡ self.old.third }
        ensures keys { self.new.keys ≡ self.old.keys }
    {
        self.first[usize::from(bucket)] = word;
    }

    /// Puts word 3 of a bucket.
    pub fn set_third(&mut self, bucket: u8, word: u64)
        requires { bucket < buckets }
        ensures here { third_in self.new bucket ≡ word }
        ensures others { (b : ℕ) → b ≢ bucket → third_in self.new b ≡ third_in self.old b }
        ensures first { self.new.first ≡ self.old.first }
        ensures keys { self.new.keys ≡ self.old.keys }
    {
        self.third[usize::from(bucket)] = word;
    }

    /// Puts the key in a record slot.
    pub fn set_key(&mut self, bucket: u8, slot: u8, key: u64)
        requires bucket { bucket < buckets }
        requires slot { slot < record_slots }
        ensures here { key_in self.new bucket slot ≡ key }
        ensures others { (b r : ℕ) → r < record_slots → (b ≡ bucket → r ≡ slot → ⊥) → key_in self.new b r ≡ key_in self.old b r }
        ensures first { self.new.first ≡ self.old.first }
        ensures third { self.new.third ≡ self.old.third }
    {
        self.keys[usize::from(SLOTS) * usize::from(bucket) + usize::from(slot)] = key;
    }

    /// Puts the keys of a bucket, by the words of all buckets.
    fn put_keys(&mut self, words: &[u64; WORDS_OF_BUCKETS as usize], bucket: u8)
        requires { bucket < buckets }
        ensures here { (r : ℕ) → r < record_slots → key_in self.new bucket r ≡ key_of words.now bucket r }
        ensures others { (b r : ℕ) → b < bucket → r < record_slots → key_in self.new b r ≡ key_in self.old b r }
        ensures first { self.new.first ≡ self.old.first }
        ensures third { self.new.third ≡ self.old.third }
    {
        for slot in 0..SLOTS {
            let at = usize::from(first_among_buckets(bucket)) + key_place(slot);
            self.set_key(bucket, slot, words[at]);
        }
    }

    /// What is loaded where these are the words of its buckets, numbered as `word_among_buckets` says.
    pub fn of_words(words: &[u64; WORDS_OF_BUCKETS as usize]) -> Loaded
        ensures { HasWords words.now result }
    {
        let mut loaded = Loaded::blank();
        for bucket in 0..BUCKETS {
            let at = usize::from(first_among_buckets(bucket));
            loaded.set_first(bucket, words[at + MARK_PLACE]);
            loaded.set_third(bucket, words[at + REST_PLACE]);
            loaded.put_keys(words, bucket);
        }
        loaded
    }

    /// The key in a record slot.
    pub fn key(&self, bucket: u8, slot: u8) -> u64
        requires bucket { bucket < buckets }
        requires slot { slot < record_slots }
        ensures { result ≡ key_in self.now bucket slot }
    {
        self.keys[usize::from(SLOTS) * usize::from(bucket) + usize::from(slot)]
    }

    /// The hash of the key in a record slot.
    pub(crate) fn hash(&self, geometry: &Geometry, bucket: u8, slot: u8) -> u64
        requires bucket { bucket < buckets }
        requires slot { slot < record_slots }
        ensures { result ≡ key_hash geometry.now (key_in self.now bucket slot) }
    {
        key_hash(geometry, self.key(bucket, slot))
    }

    /// Whether a record slot is taken.
    pub(crate) fn is_taken(&self, bucket: u8, slot: u8) -> bool
        requires bucket { bucket < buckets }
        requires slot { slot < record_slots }
        ensures { IsTrue result ↔ (allocated slot (first_in self.now bucket) ≡ 1) }
    {
        is_taken(self.first[usize::from(bucket)], slot)
    }

    /// Whether a record stands in a slot whose hash a segment of this depth and pattern covers.
    fn is_covered(&self, geometry: &Geometry, bucket: u8, slot: u8, depth: u8, pattern: u32) -> bool
        requires bucket { bucket < buckets }
        requires slot { slot < record_slots }
        requires depth { depth ≤ hash_bits }
        ensures { IsTrue result ↔ IsCovered (first_in self.now) (key_in self.now) (key_hash geometry.now) depth pattern bucket slot }
    {
        self.is_taken(bucket, slot) && covers(depth, pattern, self.hash(geometry, bucket, slot))
    }

    /// The slots of a bucket with records whose hash a segment of this depth and pattern covers, as a set. Those of depth `d + 1` and
    /// pattern `2 * p + 1` go to the 1-side in a split of a segment of depth `d` and pattern `p`.
    pub fn covered_slots(&self, geometry: &Geometry, bucket: u8, depth: u8, pattern: u32) -> u64
        requires bucket { bucket < buckets }
        requires depth { depth ≤ hash_bits }
        ensures set { IsSetOf (IsCovered (first_in self.now) (key_in self.now) (key_hash geometry.now) depth pattern bucket) result }
        ensures is { result ≡ covered_set (first_in self.now) (key_in self.now) (key_hash geometry.now) depth pattern bucket }
    {
        let mut slots = 0;
        for slot in 0..SLOTS {
            if self.is_covered(geometry, bucket, slot, depth, pattern) {
                slots |= mask(u32::from(slot));
            }
        }
        slots
    }
}
