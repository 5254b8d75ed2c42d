//! A bucket's metadata, field by field.

ghost use Rattle.std.specs.Prelude.{◌≡◌, ◌≢◌, ℕ, ◌+◌, ◌*◌, ◌^◌, ◌<◌, ◌≤◌, ◌↔◌, IfSome, IsNone, length, slice_index, slice_set, count_ones, if◌then◌else◌};
ghost use Rattle.word_bits.specs.Bits.{bits, bit};
ghost use Rattle.hash_word.specs.Hash.{fingerprint_bits};
ghost use Rattle.bucket_meta.specs.Bucket.{mark_place, fingers_place, rest_place, record_slots, note_slots, fingers_of_word, count_bits, spare_part};

use crate::words::{
    ALLOCATED_FROM, COUNT_BITS, COUNT_FROM, FINGERS_OF_WORD, LAST_FINGER_FROM, MEMBER_FROM,
    META_WORDS, NOTE_INDEX_FROM, NOTE_MEMBER_FROM, NOTE_SET_BITS, NOTE_SLOTS, NOTE_USED_FROM,
    SET_BITS, SLOTS, UPPER_FINGERS_FROM,
};
use hash_word::FINGERPRINT_BITS;
use word_bits::{bits_of, with_bits};

/// What the three words of metadata of a bucket say.
///
/// Bit `s` of `alloc` and of `member` is of record slot `s`, of 14; bit `i` of `used`, `omember` and
/// `oindex` is of note slot `i`, of 4.
#[derive(Clone, Copy, Debug, PartialEq, Eq)]
pub struct Meta {
    /// The record slots that have a record.
    pub alloc: u16,
    /// The record slots whose record stands in its probing bucket.
    pub member: u16,
    /// The note slots that hold the note of a record in the stash.
    pub used: u8,
    /// The note slots whose note is of a record whose probing bucket this is.
    pub omember: u8,
    /// For each note slot, the stash bucket that its note names.
    pub oindex: u8,
    /// How many records of this bucket stand in the stash without a note.
    pub ocount: u8,
    /// The fingerprints of the record slots.
    pub fps: [u8; SLOTS as usize],
    /// The fingerprints of the note slots.
    pub ofps: [u8; NOTE_SLOTS as usize],
    pub ghost alloc_fits: { alloc < 2 ^ record_slots },
    pub ghost member_fits: { member < 2 ^ record_slots },
    pub ghost used_fits: { used < 2 ^ note_slots },
    pub ghost omember_fits: { omember < 2 ^ note_slots },
    pub ghost oindex_fits: { oindex < 2 ^ note_slots },
    pub ghost ocount_fits: { ocount < 2 ^ count_bits },
    pub ghost each_finger: { length fps ≡ record_slots },
    pub ghost each_note_finger: { length ofps ≡ note_slots },
}

/// The word that eight fingerprints make, the first one lowest.
fn word_of(bytes: [u8; FINGERS_OF_WORD as usize]) -> u64
    ensures { (i : ℕ) → i < fingers_of_word → bits (fingerprint_bits * i) fingerprint_bits result ≡ slice_index bytes i }
{
    u64::from_le_bytes(bytes)
}

/// The set of slots with this slot in it.
fn with_slot(slots: u16, slot: u8) -> u16
    requires whole { slots < 2 ^ record_slots }
    requires within { slot < record_slots }
    ensures whole { result < 2 ^ record_slots }
    ensures set { bit slot result ≡ 1 }
    ensures others { (s : ℕ) → s ≢ slot → bit s result ≡ bit s slots }
{
    slots | (1 << slot)
}

/// The set of slots without this slot.
fn without_slot(slots: u16, slot: u8) -> u16
    requires whole { slots < 2 ^ record_slots }
    requires within { slot < record_slots }
    ensures whole { result < 2 ^ record_slots }
    ensures cleared { bit slot result ≡ 0 }
    ensures others { (s : ℕ) → s ≢ slot → bit s result ≡ bit s slots }
{
    slots & !(1 << slot)
}

impl Meta {
    ghost use Rattle.bucket_meta.specs.Slots.{IsFull, SameElsewhere, SameOverflow};
    ghost use Rattle.bucket_meta.specs.MetaWords.{meta_word, IsMetaOf};

    /// The fields of words 1, 2 and 3 of a bucket.
    pub fn read(words: [u64; META_WORDS]) -> Meta
        ensures { IsMetaOf result (meta_word words mark_place) (meta_word words fingers_place) (meta_word words rest_place) }
    {
        let [w1, w2, w3] = words;
        let [f0, f1, f2, f3, f4, f5, f6, f7] = w2.to_le_bytes();
        let [f8, f9, f10, f11, f12, f13, o0, o1] = w3.to_le_bytes();
        Meta {
            alloc: bits_of(w1, ALLOCATED_FROM, SET_BITS) as u16,
            member: bits_of(w1, MEMBER_FROM, SET_BITS) as u16,
            used: bits_of(w1, NOTE_USED_FROM, NOTE_SET_BITS) as u8,
            omember: bits_of(w1, NOTE_MEMBER_FROM, NOTE_SET_BITS) as u8,
            oindex: bits_of(w1, NOTE_INDEX_FROM, NOTE_SET_BITS) as u8,
            ocount: bits_of(w1, COUNT_FROM, COUNT_BITS) as u8,
            fps: [f0, f1, f2, f3, f4, f5, f6, f7, f8, f9, f10, f11, f12, f13],
            ofps: [
                o0,
                o1,
                bits_of(w1, UPPER_FINGERS_FROM, FINGERPRINT_BITS) as u8,
                bits_of(w1, LAST_FINGER_FROM, FINGERPRINT_BITS) as u8,
            ],
        }
    }

    /// Words 1, 2 and 3 of a bucket with these fields. Bits 61 to 63 of word 1 are 0.
    pub fn write(&self) -> [u64; META_WORDS]
        ensures fields { IsMetaOf self.now (meta_word result mark_place) (meta_word result fingers_place) (meta_word result rest_place) }
        ensures zero { spare_part (meta_word result mark_place) ≡ 0 }
    {
        let [f0, f1, f2, f3, f4, f5, f6, f7, f8, f9, f10, f11, f12, f13] = self.fps;
        let [o0, o1, o2, o3] = self.ofps;
        let w1 = u64::from(self.alloc);
        let w1 = with_bits(w1, MEMBER_FROM, u64::from(self.member));
        let w1 = with_bits(w1, NOTE_USED_FROM, u64::from(self.used));
        let w1 = with_bits(w1, NOTE_MEMBER_FROM, u64::from(self.omember));
        let w1 = with_bits(w1, NOTE_INDEX_FROM, u64::from(self.oindex));
        let w1 = with_bits(w1, COUNT_FROM, u64::from(self.ocount));
        let w1 = with_bits(w1, UPPER_FINGERS_FROM, u64::from(o2));
        let w1 = with_bits(w1, LAST_FINGER_FROM, u64::from(o3));
        let w2 = word_of([f0, f1, f2, f3, f4, f5, f6, f7]);
        let w3 = word_of([f8, f9, f10, f11, f12, f13, o0, o1]);
        [w1, w2, w3]
    }

    /// The lowest slot that has no record.
    pub fn free_slot(&self) -> Option<u8>
        ensures within { IfSome result (λ slot. slot < record_slots) }
        ensures free { IfSome result (λ slot. bit slot self.now.alloc ≡ 0) }
        ensures lowest { IfSome result (λ slot. (s : ℕ) → s < slot → bit s self.now.alloc ≡ 1) }
        ensures full { IsNone result ↔ IsFull self.now.alloc }
        ensures filled { IsNone result ↔ (count_ones self.now.alloc ≡ record_slots) }
    {
        let slot = self.alloc.trailing_ones();
        if slot < u32::from(SLOTS) {
            Some(slot as u8)
        } else {
            None
        }
    }

    /// How many slots have a record, at most 14.
    pub fn filled(&self) -> u8
        ensures count { result ≡ count_ones self.now.alloc }
        ensures at_most { result ≤ record_slots }
        ensures full { (result ≡ record_slots) ↔ IsFull self.now.alloc }
    {
        self.alloc.count_ones() as u8
    }

    /// Says of a slot, from 0 to 13, that it has a record with this fingerprint. `is_member` is true where
    /// this is the record's probing bucket.
    pub fn place(&mut self, slot: u8, finger: u8, is_member: bool)
        requires { slot < record_slots }
        ensures allocated { bit slot self.new.alloc ≡ 1 }
        ensures other_alloc { SameElsewhere self.old.alloc self.new.alloc slot }
        ensures member { bit slot self.new.member ≡ (if is_member then 1 else 0) }
        ensures other_member { SameElsewhere self.old.member self.new.member slot }
        ensures finger { self.new.fps ≡ slice_set self.old.fps slot finger }
        ensures overflow { SameOverflow self.old self.new }
    {
        self.alloc = with_slot(self.alloc, slot);
        self.member = if is_member {
            with_slot(self.member, slot)
        } else {
            without_slot(self.member, slot)
        };
        self.fps[slot as usize] = finger;
    }

    /// Says of a slot, from 0 to 13, that it has no record. The fingerprint there stays.
    pub fn clear(&mut self, slot: u8)
        requires { slot < record_slots }
        ensures allocated { bit slot self.new.alloc ≡ 0 }
        ensures other_alloc { SameElsewhere self.old.alloc self.new.alloc slot }
        ensures member { bit slot self.new.member ≡ 0 }
        ensures other_member { SameElsewhere self.old.member self.new.member slot }
        ensures fingers { self.new.fps ≡ self.old.fps }
        ensures overflow { SameOverflow self.old self.new }
    {
        self.alloc = without_slot(self.alloc, slot);
        self.member = without_slot(self.member, slot);
    }
}
