//! The four note slots of one bucket.

ghost use Rattle.std.specs.Prelude.{◌≡◌, ◌≢◌, ℕ, ◌^◌, ◌<◌, ◌↔◌, IsTrue, MatchOption};
ghost use Rattle.word_bits.specs.Bits.{bit};
ghost use Rattle.bucket_meta.specs.Bucket.{note_slots, note_sides};
ghost use Rattle.image_layout.specs.Places.{stash_buckets};
ghost use Rattle.stash.specs.NoteSlots.{IsUnused, IsNoteAt, IsLowest, HoldsNowhere, NoteSlotBecomes, filled_note_slot, freed_note_slot};

use bucket_meta::Meta;
use bucket_meta::words::NOTE_SLOTS;

/// Bit `note_slot` of the four bits, 0 or 1.
fn bit_at(bits: u8, note_slot: u8) -> u8
    requires { note_slot < note_slots }
    ensures { result ≡ bit note_slot bits }
{
    (bits >> note_slot) & 1
}

/// The four bits with `value`, 0 or 1, as bit `note_slot`.
fn with_bit(bits: u8, note_slot: u8, value: u8) -> u8
    requires four { bits < 2 ^ note_slots }
    requires within { note_slot < note_slots }
    requires is_bit { value < 2 }
    ensures four { result < 2 ^ note_slots }
    ensures here { bit note_slot result ≡ value }
    ensures elsewhere { (i : ℕ) → i ≢ note_slot → bit i result ≡ bit i bits }
{
    if value == 1 {
        bits | (1 << note_slot)
    } else {
        bits & !(1 << note_slot)
    }
}

/// The lowest note slot that holds no note.
pub(crate) fn unused_note_slot(meta: &Meta) -> Option<u8>
    ensures { MatchOption result (HoldsNowhere (IsUnused meta.now)) (IsLowest (IsUnused meta.now)) }
{
    let note_slot = meta.used.trailing_ones() as u8;
    if note_slot < NOTE_SLOTS {
        Some(note_slot)
    } else {
        None
    }
}

/// Whether a note slot holds this note, where `member` is its membership bit.
fn is_note_at(meta: &Meta, note_slot: u8, member: u8, finger: u8, index: u8) -> bool
    requires { note_slot < note_slots }
    ensures { IsTrue result ↔ IsNoteAt meta.now member (finger, index) note_slot }
{
    bit_at(meta.used, note_slot) == 1
        && bit_at(meta.omember, note_slot) == member
        && bit_at(meta.oindex, note_slot) == index
        && meta.ofps[note_slot as usize] == finger
}

/// The lowest note slot that holds this note, where `member` is its membership bit.
pub(crate) fn note_slot_of(meta: &Meta, member: u8, finger: u8, index: u8) -> Option<u8>
    ensures { let held = IsNoteAt meta.now member (finger, index) in
        MatchOption result (HoldsNowhere held) (IsLowest held) }
{
    for note_slot in 0..NOTE_SLOTS {
        if is_note_at(meta, note_slot, member, finger, index) {
            return Some(note_slot);
        }
    }
    None
}

/// Overwrites every field of a note slot with those of a note, where `member` is its membership bit.
pub(crate) fn fill(meta: &mut Meta, note_slot: u8, member: u8, finger: u8, index: u8)
    requires within { note_slot < note_slots }
    requires side { member < note_sides }
    requires stash { index < stash_buckets }
    ensures { NoteSlotBecomes meta.old meta.new note_slot (filled_note_slot member (finger, index)) }
{
    meta.used = with_bit(meta.used, note_slot, 1);
    meta.omember = with_bit(meta.omember, note_slot, member);
    meta.oindex = with_bit(meta.oindex, note_slot, index);
    meta.ofps[note_slot as usize] = finger;
}

/// Makes every field of a note slot 0.
pub(crate) fn free(meta: &mut Meta, note_slot: u8)
    requires within { note_slot < note_slots }
    ensures { NoteSlotBecomes meta.old meta.new note_slot freed_note_slot }
{
    meta.used = with_bit(meta.used, note_slot, 0);
    meta.omember = with_bit(meta.omember, note_slot, 0);
    meta.oindex = with_bit(meta.oindex, note_slot, 0);
    meta.ofps[note_slot as usize] = 0;
}
