//! The notes and the counts of all homes of a segment.

ghost use Rattle.std.specs.Prelude.{◌≡◌, ℕ, ◌+◌, ◌<◌, ◌≤◌, List, [], ◌∷◌, ◌++◌, length, All};
ghost use Rattle.bucket_meta.specs.declared.metadata.Meta.{Meta as MetaValue};
ghost use Rattle.image_layout.specs.Places.{homes, stash_buckets, stash_slots};
ghost use Rattle.bucket_meta.specs.Bucket.{greatest_count};
ghost use Rattle.stash.specs.Noted.{IsNotedInSegment, IsCleared, IsRebuilt};
ghost use Rattle.stash.specs.NoteSlots.{SameSlots, IsBare};
ghost use Rattle.stash.specs.Segment.{Stashed, IsStashed, IsExactSegment, SameSlotsInAll, bucket};

use crate::notes::note;
use bucket_meta::Meta;
use bucket_meta::words::NOTE_SLOTS;
use hash_word::probing;
use image_layout::HOMES;

/// Makes all that a bucket says of the stash 0.
fn clear_notes(meta: &mut Meta)
    ensures bare { IsBare meta.new }
    ensures slots { SameSlots meta.old meta.new }
{
    meta.used = 0;
    meta.omember = 0;
    meta.oindex = 0;
    meta.ocount = 0;
    meta.ofps = [0; NOTE_SLOTS as usize];
}

/// Makes all that the buckets say of the stash 0.
fn clear_all(metas: &mut [Meta; HOMES as usize])
    ensures { IsCleared metas.old metas.new }
{
    for meta in metas.iter_mut() {
        clear_notes(meta);
    }
}

/// Notes a record of one home that stands in stash bucket `index`.
fn note_in(metas: &mut [Meta; HOMES as usize], home: u8, finger: u8, index: u8)
    requires home { home < homes }
    requires stash { index < stash_buckets }
    requires room { (d : MetaValue) → (bucket metas.old home d).ocount < greatest_count }
    ensures noted { IsNotedInSegment metas.old metas.new (home, finger, index) }
    ensures exact { (records : List Stashed) → IsExactSegment metas.old records
        → IsExactSegment metas.new (records ++ (home, finger, index) ∷ []) }
    ensures slots { SameSlotsInAll metas.old metas.new }
{
    let next = usize::from(probing(home));
    let home = usize::from(home);
    let mut own = metas[home];
    let mut probe = metas[next];
    note(&mut own, &mut probe, finger, index);
    metas[home] = own;
    metas[next] = probe;
}

/// Makes the notes and the counts of all 64 homes of a segment anew, from the records in its stash.
///
/// All that the buckets say of the stash becomes 0, and then each record is noted, in the order given: a record
/// is its home bucket (0 to 63), its fingerprint and its stash bucket (0 or 1). The two stash buckets have room
/// for 28 records.
pub fn rebuild(metas: &mut [Meta; HOMES as usize], stashed: &[(u8, u8, u8)])
    requires within { All IsStashed stashed.now }
    requires room { length stashed.now ≤ stash_slots }
    ensures rebuilt { IsRebuilt metas.old metas.new stashed.now }
    ensures exact { IsExactSegment metas.new stashed.now }
    ensures slots { SameSlotsInAll metas.old metas.new }
{
    clear_all(metas);
    for &(home, finger, index) in stashed {
        note_in(metas, home, finger, index);
    }
}
