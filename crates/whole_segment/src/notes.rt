//! The overflow notes of all homes of a segment, made anew from the records in its stash.

ghost use Rattle.std.specs.Prelude.{◌≡◌, ℕ, ◌<◌, slice_index};
ghost use Rattle.bucket_meta.specs.Bucket.{spare_part};
ghost use Rattle.bucket_meta.specs.MetaWords.{IsMetaOf};
ghost use Rattle.bucket_meta.specs.declared.metadata.Meta.{Meta as MetaValue};
ghost use Rattle.image_layout.specs.Places.{homes};
ghost use Rattle.sound_image.specs.Records.{key_hash};
ghost use Rattle.stash.specs.Segment.{bucket};
ghost use Rattle.whole_segment.specs.Records.{first_in, third_in, key_in};
ghost use Rattle.whole_segment.specs.Rebuilding.{first_with, third_with, rebuilt};
ghost use Rattle.image_layout.specs.Standing.{stashed_of, HasExactNotes};
ghost use Rattle.bucket_meta.specs.Bucket.{KeepsRecords};

use crate::Loaded;
use crate::stash_records::StashRecords;
use bucket_meta::Meta;
use image_layout::{Geometry, HOMES};
use stash::rebuild;
use word_bits::each_fits;

/// Words 1 and 3 of the 64 homes.
#[derive(Clone, Copy)]
pub struct Notes {
    /// Word 1 of each home.
    pub first: [u64; HOMES as usize],
    /// Word 3 of each home.
    pub third: [u64; HOMES as usize],
}

/// The metadata of all homes.
fn metas_of(loaded: &Loaded) -> [Meta; HOMES as usize]
    ensures { (b : ℕ) (d : MetaValue) → b < homes → IsMetaOf (bucket result b d) (first_in loaded.now b) 0 (third_in loaded.now b) }
{
    let mut metas = [Meta::read([0, 0, 0]); HOMES as usize];
    for bucket in 0..HOMES {
        let at = usize::from(bucket);
        metas[at] = Meta::read([loaded.first[at], 0, loaded.third[at]]);
    }
    metas
}

/// Words 1 and 3 of all homes with this metadata.
fn words_of(metas: &[Meta; HOMES as usize]) -> Notes
    ensures upper { (b : ℕ) → b < homes → spare_part (slice_index result.first b) ≡ 0 }
    ensures fields { (b : ℕ) (d : MetaValue) → b < homes
        → (w2 : ℕ) × IsMetaOf (bucket metas.now b d) (slice_index result.first b) w2 (slice_index result.third b) }
{
    let mut first = [0; HOMES as usize];
    let mut third = [0; HOMES as usize];
    for bucket in 0..HOMES {
        let at = usize::from(bucket);
        let [w1, _, w3] = metas[at].write();
        first[at] = w1;
        third[at] = w3;
    }
    Notes { first, third }
}

/// Words 1 and 3 of the 64 homes with exact overflow notes, whatever notes they had before; of the record slots they say what they said. The
/// records of the stash are noted by stash bucket, then slot.
pub fn rebuilt_notes(loaded: &Loaded, geometry: &Geometry) -> Notes
    ensures exact { (b : ℕ) → b < homes
        → HasExactNotes (λ c. slice_index result.first c) (λ c. slice_index result.third c) b
        (stashed_of (first_in loaded.now) (key_in loaded.now) (key_hash geometry.now) b) }
    ensures is { (b : ℕ) → b < homes
        → let o = rebuilt (first_in loaded.now) (key_in loaded.now) (key_hash geometry.now) b in
        (slice_index result.first b ≡ first_with (first_in loaded.now b) o) × (slice_index result.third b ≡ third_with (third_in loaded.now b) o) }
    ensures records { (b : ℕ) → b < homes
        → KeepsRecords (first_in loaded.now b) (third_in loaded.now b) (slice_index result.first b) (slice_index result.third b) }
{
    let stashed = StashRecords::gathered(loaded, geometry);
    let mut metas = metas_of(loaded);
    rebuild(&mut metas, stashed.as_slice());
    let notes = words_of(&metas);
    each_fits(&notes.first);
    each_fits(&notes.third);
    notes
}
