//! A metadata word with some of its slots alone, or without them.

ghost use Rattle.std.specs.Prelude.{◌≡◌, ◌^◌, ◌<◌};
ghost use Rattle.bucket_meta.specs.Bucket.{record_slots};
ghost use Rattle.bucket_meta.specs.Marks.{slot_bits, copied_mark, cleared_mark};

use crate::words::MEMBER_FROM;
use word_bits::with_bits;

/// The allocation bits and the membership bits of a set of slots.
fn slot_bits(slots: u64) -> u64
    requires { slots < 2 ^ record_slots }
    ensures { result ≡ slot_bits slots }
{
    with_bits(slots, MEMBER_FROM, slots)
}

/// The metadata word of a copy that has these slots alone, with their membership bits and without overflow parts.
pub fn copied_mark(w1: u64, slots: u64) -> u64
    requires { slots < 2 ^ record_slots }
    ensures { result ≡ copied_mark w1 slots }
{
    w1 & slot_bits(slots)
}

/// The metadata word with these slots free; its overflow parts stay.
pub fn cleared_mark(w1: u64, slots: u64) -> u64
    requires { slots < 2 ^ record_slots }
    ensures { result ≡ cleared_mark w1 slots }
{
    w1 & !slot_bits(slots)
}
