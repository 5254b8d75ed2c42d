//! The record slot to be freed.
//!
//! A record stands in its home bucket `b` or in its probing bucket `b + 1`, where it is a member, so
//! a bucket has records of its own home and members, which are of the home before it.

ghost use Rattle.std.specs.Prelude.{◌≡◌, ℕ, ◌^◌, ◌<◌, ◌↔◌, ◌⊎◌, IfSome, IsNone, count_ones};
ghost use Rattle.word_bits.specs.Bits.{bit};
ghost use Rattle.bucket_meta.specs.Bucket.{record_slots};
ghost use Rattle.bucket_meta.specs.Slots.{IsFull};
ghost use Rattle.displace.specs.Members.{OnlyMembersBelow, NoMembersBelow};

use bucket_meta::Meta;
use bucket_meta::words::SLOTS;

/// The lowest slot of a set, of 14.
fn lowest(slots: u16) -> Option<u8>
    requires { slots < 2 ^ record_slots }
    ensures within { IfSome result (λ slot. slot < record_slots) }
    ensures inside { IfSome result (λ slot. bit slot slots ≡ 1) }
    ensures lowest { IfSome result (λ slot. (s : ℕ) → s < slot → bit s slots ≡ 0) }
    ensures none { IsNone result ↔ ((s : ℕ) → s < record_slots → bit s slots ≡ 0) }
{
    if slots == 0 {
        None
    } else {
        Some(slots.trailing_zeros() as u8)
    }
}

/// The lowest slot of the probing bucket, 0 to 13, with a record that can move on to the bucket
/// after it, `next`: one whose home the probing bucket is.
///
/// `None` where there is no such record or `next` is full.
pub fn forward(probe: &Meta, next: &Meta) -> Option<u8>
    ensures within { IfSome result (λ slot. slot < record_slots) }
    ensures allocated { IfSome result (λ slot. bit slot probe.now.alloc ≡ 1) }
    ensures own { IfSome result (λ slot. bit slot probe.now.member ≡ 0) }
    ensures lowest { IfSome result (λ slot. OnlyMembersBelow slot probe.now) }
    ensures room { IfSome result (λ _. count_ones next.now.alloc < record_slots) }
    ensures none { IsNone result ↔ (IsFull next.now.alloc ⊎ OnlyMembersBelow record_slots probe.now) }
{
    if next.filled() == SLOTS {
        return None;
    }
    lowest(probe.alloc & !probe.member)
}

/// The lowest slot of the home bucket, 0 to 13, with a record that can move back to the bucket
/// before it, `prev`: a member, whose home is `prev`.
///
/// `None` where there is no such record or `prev` is full.
pub fn backward(home: &Meta, prev: &Meta) -> Option<u8>
    ensures within { IfSome result (λ slot. slot < record_slots) }
    ensures allocated { IfSome result (λ slot. bit slot home.now.alloc ≡ 1) }
    ensures member { IfSome result (λ slot. bit slot home.now.member ≡ 1) }
    ensures lowest { IfSome result (λ slot. NoMembersBelow slot home.now) }
    ensures room { IfSome result (λ _. count_ones prev.now.alloc < record_slots) }
    ensures none { IsNone result ↔ (IsFull prev.now.alloc ⊎ NoMembersBelow record_slots home.now) }
{
    if prev.filled() == SLOTS {
        return None;
    }
    lowest(home.alloc & home.member)
}
