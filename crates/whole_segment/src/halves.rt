//! The two halves of a segment that is split, as they are stored.

ghost use Rattle.std.specs.Prelude.{◌≡◌, ℕ, ◌<◌, ◌≤◌, ◌↔◌};
ghost use Rattle.hash_word.specs.Hash.{hash_bits, Covers};
ghost use Rattle.image_layout.specs.Places.{buckets};
ghost use Rattle.sound_image.specs.Records.{key_hash};

use crate::Loaded;
use bucket_meta::{cleared_mark, copied_mark};
use image_layout::{BUCKETS, Geometry};
use word_bits::each_fits;

impl Loaded {
    ghost use Rattle.whole_segment.specs.Records.{first_in, key_in, Stands, covered_first, uncovered_first};

    /// The segment with those records alone that a segment of this depth and pattern covers, and without overflow notes: the copy that a
    /// split makes.
    pub fn half(&self, geometry: &Geometry, depth: u8, pattern: u32) -> Loaded
        requires { depth ≤ hash_bits }
        ensures is { (b : ℕ) → b < buckets → first_in result b
            ≡ covered_first (first_in self.now) (key_in self.now) (key_hash geometry.now) depth pattern b }
        ensures records { (b r k : ℕ) → Stands (first_in result) (key_in result) b r k
            ↔ (Stands (first_in self.now) (key_in self.now) b r k × Covers depth pattern (key_hash geometry.now k)) }
        ensures third { result.third ≡ self.now.third }
        ensures keys { result.keys ≡ self.now.keys }
    {
        each_fits(&self.first);
        let mut half = *self;
        for bucket in 0..BUCKETS {
            let covered = self.covered_slots(geometry, bucket, depth, pattern);
            let mark = copied_mark(self.first[usize::from(bucket)], covered);
            half.set_first(bucket, mark);
        }
        half
    }

    /// The segment without the records that a segment of this depth and pattern covers, and with its overflow notes as they are: what a
    /// split leaves of it.
    pub fn without_half(&self, geometry: &Geometry, depth: u8, pattern: u32) -> Loaded
        requires { depth ≤ hash_bits }
        ensures is { (b : ℕ) → b < buckets → first_in result b
            ≡ uncovered_first (first_in self.now) (key_in self.now) (key_hash geometry.now) depth pattern b }
        ensures records { (b r k : ℕ) → Stands (first_in result) (key_in result) b r k
            ↔ (Stands (first_in self.now) (key_in self.now) b r k × (Covers depth pattern (key_hash geometry.now k) → ⊥)) }
        ensures third { result.third ≡ self.now.third }
        ensures keys { result.keys ≡ self.now.keys }
    {
        each_fits(&self.first);
        let mut rest = *self;
        for bucket in 0..BUCKETS {
            let covered = self.covered_slots(geometry, bucket, depth, pattern);
            let mark = cleared_mark(self.first[usize::from(bucket)], covered);
            rest.set_first(bucket, mark);
        }
        rest
    }
}
