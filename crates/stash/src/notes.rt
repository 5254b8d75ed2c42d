//! The notes and the count of one home.

ghost use Rattle.std.specs.Prelude.{◌≡◌, ◌≢◌, ℕ, ◌+◌, ◌-◌, ◌^◌, ◌<◌, ◌↔◌, IsTrue, List, ◌∷◌, Contains};
ghost use Rattle.word_bits.specs.Bits.{bit};
ghost use Rattle.bucket_meta.specs.Bucket.{greatest_count, home_side, probing_side};
ghost use Rattle.bucket_meta.specs.Notes.{OverflowNote, how_often};
ghost use Rattle.stash.specs.Exact.{notes_at, notes_of, IsExactFor, IsNamed, IsNotedOrCounted};
ghost use Rattle.image_layout.specs.Places.{stash_buckets};
ghost use Rattle.stash.specs.NoteSlots.{IsUnused, IsNoteAt, IsLowest, HoldsNowhere, SameSlots, NoteSlotBecomes, CountBecomes, filled_note_slot, freed_note_slot};

use crate::note_slots::{fill, free, note_slot_of, unused_note_slot};
use bucket_meta::Meta;
use bucket_meta::words::{FIRST_STASH_INDEX, HOME_SIDE, PROBING_SIDE, SECOND_STASH_INDEX};
use image_layout::STASH_BUCKETS;

/// The set of both stash buckets.
const BOTH: u8 = (1 << STASH_BUCKETS) - 1;

/// Notes a record that went into stash bucket `index`, 0 or 1, in its home bucket and its probing bucket.
///
/// The note takes the lowest unused note slot of the home bucket, else the lowest unused one of the
/// probing bucket, and every field of that note slot is overwritten. Where all eight are used, the home's count of
/// records without a note is raised.
pub fn note(home: &mut Meta, probe: &mut Meta, finger: u8, index: u8)
    requires stash { index < stash_buckets }
    requires room { home.old.ocount < greatest_count }

    ensures in_home { (note_slot : ℕ) → IsLowest (IsUnused home.old) note_slot
        → NoteSlotBecomes home.old home.new note_slot (filled_note_slot home_side (finger, index)) × (probe.new ≡ probe.old) }
    ensures in_probe { HoldsNowhere (IsUnused home.old) → (note_slot : ℕ) → IsLowest (IsUnused probe.old) note_slot
        → NoteSlotBecomes probe.old probe.new note_slot (filled_note_slot probing_side (finger, index)) × (home.new ≡ home.old) }
    ensures counted { HoldsNowhere (IsUnused home.old) → HoldsNowhere (IsUnused probe.old)
        → CountBecomes home.old home.new (home.old.ocount + 1) × (probe.new ≡ probe.old) }
    ensures exact { (stashed : List OverflowNote) → IsExactFor home.old probe.old stashed
        → IsExactFor home.new probe.new ((finger, index) ∷ stashed) }

    // What is said of other homes, and of the record slots, stays.
    ensures home_before { notes_at home.new probing_side ≡ notes_at home.old probing_side }
    ensures home_after { notes_at probe.new home_side ≡ notes_at probe.old home_side }
    ensures count_after { probe.new.ocount ≡ probe.old.ocount }
    ensures home_slots { SameSlots home.old home.new }
    ensures probe_slots { SameSlots probe.old probe.new }
{
    if let Some(note_slot) = unused_note_slot(home) {
        fill(home, note_slot, HOME_SIDE, finger, index);
        return;
    }
    if let Some(note_slot) = unused_note_slot(probe) {
        fill(probe, note_slot, PROBING_SIDE, finger, index);
        return;
    }
    home.ocount += 1;
}

/// Takes away the note of a record that left stash bucket `index`, from its home bucket or its probing bucket.
///
/// The lowest note slot of the home bucket with this note is freed, else the lowest one of the probing
/// bucket, and every field of a freed note slot is 0. Where neither has the note, the home's count of records
/// without a note is lowered.
pub fn unnote(home: &mut Meta, probe: &mut Meta, finger: u8, index: u8)
    requires { IsNotedOrCounted home.old probe.old (finger, index) }

    ensures in_home { (note_slot : ℕ) → IsLowest (IsNoteAt home.old home_side (finger, index)) note_slot
        → NoteSlotBecomes home.old home.new note_slot freed_note_slot × (probe.new ≡ probe.old) }
    ensures in_probe { HoldsNowhere (IsNoteAt home.old home_side (finger, index))
        → (note_slot : ℕ) → IsLowest (IsNoteAt probe.old probing_side (finger, index)) note_slot
        → NoteSlotBecomes probe.old probe.new note_slot freed_note_slot × (home.new ≡ home.old) }
    ensures counted { HoldsNowhere (IsNoteAt home.old home_side (finger, index)) → HoldsNowhere (IsNoteAt probe.old probing_side (finger, index))
        → CountBecomes home.old home.new (home.old.ocount - 1) × (probe.new ≡ probe.old) }
    ensures exact { (rest : List OverflowNote) → IsExactFor home.old probe.old ((finger, index) ∷ rest)
        → IsExactFor home.new probe.new rest }

    // What is said of other homes, and of the record slots, stays.
    ensures home_before { notes_at home.new probing_side ≡ notes_at home.old probing_side }
    ensures home_after { notes_at probe.new home_side ≡ notes_at probe.old home_side }
    ensures count_after { probe.new.ocount ≡ probe.old.ocount }
    ensures home_slots { SameSlots home.old home.new }
    ensures probe_slots { SameSlots probe.old probe.new }
{
    if let Some(note_slot) = note_slot_of(home, HOME_SIDE, finger, index) {
        free(home, note_slot);
        return;
    }
    if let Some(note_slot) = note_slot_of(probe, PROBING_SIDE, finger, index) {
        free(probe, note_slot);
        return;
    }
    home.ocount -= 1;
}

/// Whether a bucket has this note, where `member` is its membership bit.
fn has_note(meta: &Meta, member: u8, finger: u8, index: u8) -> bool
    ensures { IsTrue result ↔ (0 < how_often (finger, index) (notes_at meta.now member)) }
{
    note_slot_of(meta, member, finger, index).is_some()
}

/// Whether a note of the home names this fingerprint and stash bucket `index`.
fn is_named(home: &Meta, probe: &Meta, finger: u8, index: u8) -> bool
    ensures { IsTrue result ↔ IsNamed home.now probe.now (finger, index) }
{
    has_note(home, HOME_SIDE, finger, index) || has_note(probe, PROBING_SIDE, finger, index)
}

/// 1 where a note of the home names this fingerprint and stash bucket `index`, else 0.
fn named_bit(home: &Meta, probe: &Meta, finger: u8, index: u8) -> u8
    ensures is_bit { result < 2 }
    ensures named { (result ≡ 1) ↔ IsNamed home.now probe.now (finger, index) }
{
    u8::from(is_named(home, probe, finger, index))
}

/// The stash buckets in which a record with this fingerprint may stand, as a set: bit `k` is of stash bucket `k`.
///
/// These are both where the home's count of records without a note is not 0, and else those that a note of the
/// home with this fingerprint names.
pub fn must_visit(home: &Meta, probe: &Meta, finger: u8) -> u8
    ensures set { result < 2 ^ stash_buckets }
    ensures counted { 0 < home.now.ocount → result ≡ 2 ^ stash_buckets - 1 }
    ensures named { home.now.ocount ≡ 0 → (k : ℕ) → k < stash_buckets
        → (bit k result ≡ 1) ↔ IsNamed home.now probe.now (finger, k) }
    ensures exact { (stashed : List OverflowNote) (k : ℕ) → k < stash_buckets → IsExactFor home.now probe.now stashed
        → Contains stashed (finger, k) → bit k result ≡ 1 }
{
    if home.ocount > 0 {
        return BOTH;
    }
    let first = named_bit(home, probe, finger, FIRST_STASH_INDEX);
    let second = named_bit(home, probe, finger, SECOND_STASH_INDEX);
    first + 2 * second
}
