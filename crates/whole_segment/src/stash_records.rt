//! The records that stand in the stash of a segment.

ghost use Rattle.std.specs.Prelude.{◌≡◌, ◌<◌, ◌≤◌, ◌+◌, ◌*◌, [], ◌∷◌, ◌++◌, length, All};
ghost use Rattle.bucket_meta.specs.Bucket.{record_slots};
ghost use Rattle.image_layout.specs.Places.{stash_buckets, stash_slots};
ghost use Rattle.sound_image.specs.Records.{key_hash};

use crate::Loaded;
use bucket_meta::words::{FIRST_STASH_INDEX, SECOND_STASH_INDEX, SLOTS};
use hash_word::{finger, home};
use image_layout::{Geometry, STASH_SLOTS, stash_bucket};

/// Records in the stash of a segment, each as its home, its fingerprint and its stash bucket.
#[derive(Clone, Copy)]
pub(crate) struct StashRecords {
    records: [(u8, u8, u8); STASH_SLOTS],
    count: usize,
    ghost places: { length records ≡ stash_slots },
    ghost most: { count ≤ stash_slots },
}

impl Loaded {
    ghost use Rattle.stash.specs.Segment.{IsStashed};
    ghost use Rattle.whole_segment.specs.Records.{first_in, key_in};
    ghost use Rattle.whole_segment.specs.Notes.{entry_of};

    /// The record in a slot of a stash bucket.
    fn stash_record(&self, geometry: &Geometry, index: u8, slot: u8) -> (u8, u8, u8)
        requires stash { index < stash_buckets }
        requires slot { slot < record_slots }
        ensures is { result ≡ entry_of (key_in self.now) (key_hash geometry.now) index slot }
        ensures stashed { IsStashed result }
    {
        let h = self.hash(geometry, stash_bucket(index), slot);
        (home(h), finger(h), index)
    }
}

impl StashRecords {
    ghost use Rattle.stash.specs.Segment.{IsStashed};
    ghost use Rattle.whole_segment.specs.Records.{first_in, key_in};
    ghost use Rattle.whole_segment.specs.Notes.{entries_below, stash_entries};
    ghost use Rattle.whole_segment.specs.Gathered.{records_of};

    /// No records.
    fn none() -> StashRecords
        ensures { records_of result ≡ [] }
    {
        StashRecords {
            records: [(0, 0, 0); STASH_SLOTS],
            count: 0,
        }
    }

    /// One more.
    fn push(&mut self, entry: (u8, u8, u8))
        requires { length (records_of self.old) < stash_slots }
        ensures { records_of self.new ≡ records_of self.old ++ entry ∷ [] }
    {
        self.records[self.count] = entry;
        self.count += 1;
    }

    /// Those of a stash bucket, slots ascending.
    fn extend(&mut self, loaded: &Loaded, geometry: &Geometry, index: u8)
        requires stash { index < stash_buckets }
        requires room { length (records_of self.old) ≤ record_slots * index }
        requires stashed { All IsStashed (records_of self.old) }
        ensures more { records_of self.new ≡ records_of self.old
            ++ entries_below (first_in loaded.now) (key_in loaded.now) (key_hash geometry.now) index record_slots }
        ensures most { length (records_of self.new) ≤ record_slots * (index + 1) }
        ensures stashed { All IsStashed (records_of self.new) }
    {
        for slot in 0..SLOTS {
            if loaded.is_taken(stash_bucket(index), slot) {
                self.push(loaded.stash_record(geometry, index, slot));
            }
        }
    }

    /// All of a segment, by stash bucket, then slot.
    pub(crate) fn gathered(loaded: &Loaded, geometry: &Geometry) -> StashRecords
        ensures are { records_of result ≡ stash_entries (first_in loaded.now) (key_in loaded.now) (key_hash geometry.now) }
        ensures stashed { All IsStashed (records_of result) }
    {
        let mut gathered = StashRecords::none();
        gathered.extend(loaded, geometry, FIRST_STASH_INDEX);
        gathered.extend(loaded, geometry, SECOND_STASH_INDEX);
        gathered
    }

    /// The records in their order.
    pub(crate) fn as_slice(&self) -> &[(u8, u8, u8)]
        ensures is { result.now ≡ records_of self.now }
        ensures most { length result.now ≤ stash_slots }
    {
        &self.records[..self.count]
    }
}
