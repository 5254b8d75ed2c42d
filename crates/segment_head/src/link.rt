//! The link of a segment, the header word behind the one that has its fields: one more than the number of the slot that it names, or [`NO_LINK`].

ghost use Rattle.std.specs.Prelude.{◌≡◌, ◌%◌, ◌^◌, ◌↔◌, IsTrue, IfSome, IfNone};
ghost use Rattle.segment_head.specs.HeadWord.{link_to, no_link, linked_in, LinksWithin};

/// The link that names no slot.
pub const NO_LINK: u64 = 0;

/// The link that names this slot. Of number `u64::MAX`, which no slot has, it would be [`NO_LINK`].
pub fn link_to(slot: u64) -> u64
    ensures { result ≡ link_to slot % 2 ^ 64 }
{
    slot.wrapping_add(1)
}

/// The slot that a link names; none where it is [`NO_LINK`].
pub fn linked_slot(link: u64) -> Option<u64>
    ensures is { result ≡ linked_in link }
    ensures some { IfSome result (λ slot. link ≡ link_to slot) }
    ensures none { IfNone result (link ≡ no_link) }
{
    if link > NO_LINK { Some(link - 1) } else { None }
}

/// Whether a link names one of so many slots, or none.
pub fn links_within(slots: u64, link: u64) -> bool
    ensures { IsTrue result ↔ LinksWithin slots link }
{
    link <= slots
}
