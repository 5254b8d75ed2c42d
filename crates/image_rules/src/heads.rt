//! Segments by their headers: which are live, which hashes they cover, and which of these they own.

ghost use Rattle.std.specs.Prelude.{◌≡◌, ℕ, ◌^◌, ◌<◌, ◌≤◌, ◌↔◌, IfSome, IfNone, IsTrue, length, slice_index};
ghost use Rattle.segment_head.specs.HeadWord.{version_in};
ghost use Rattle.image_layout.specs.Places.{words_of, most_depth};
ghost use Rattle.sound_image.specs.Segments.{frame_of, state_at, IsLive, IsReadySide, HasReadySide, Owns};
ghost use Rattle.image_rules.specs.Divided.{IsNumbered, IsDivided, IsPrefixOf, IsNamed, IsGivenAway};

use hash_word::covers;
use image_layout::Geometry;
use segment_head::link::linked_slot;
use segment_head::prefix::{Prefix, in_one_side, is_side, prefix_in};
use segment_head::word::{self, SPLITTING};

/// The header word of a segment.
pub(crate) fn header_at(geometry: &Geometry, words: &[u64], s: u64) -> u64
    requires whole { length words.now ≡ words_of geometry.now }
    requires slot { s < geometry.now.segments }
    ensures { result ≡ (frame_of geometry.now (slice_index words.now)).header s }
{
    words[geometry.header_word(s) as usize]
}

/// The state byte of a segment.
pub(crate) fn state_of(geometry: &Geometry, words: &[u64], s: u64) -> u8
    requires whole { length words.now ≡ words_of geometry.now }
    requires slot { s < geometry.now.segments }
    ensures { result ≡ state_at (frame_of geometry.now (slice_index words.now)) s }
{
    word::state_of(header_at(geometry, words, s))
}

/// The version of a segment.
pub(crate) fn version_of(geometry: &Geometry, words: &[u64], s: u64) -> u8
    requires whole { length words.now ≡ words_of geometry.now }
    requires slot { s < geometry.now.segments }
    ensures { result ≡ version_in ((frame_of geometry.now (slice_index words.now)).header s) }
{
    word::version_of(header_at(geometry, words, s))
}

/// Whether a segment is live: normal or splitting.
pub(crate) fn is_live(geometry: &Geometry, words: &[u64], s: u64) -> bool
    requires whole { length words.now ≡ words_of geometry.now }
    requires slot { s < geometry.now.segments }
    ensures { IsTrue result ↔ IsLive (frame_of geometry.now (slice_index words.now)) s }
{
    word::is_live(header_at(geometry, words, s))
}

/// The prefix of a live segment.
pub(crate) fn prefix_of(geometry: &Geometry, words: &[u64], s: u64) -> Prefix
    requires whole { length words.now ≡ words_of geometry.now }
    requires numbered { IsNumbered geometry.now (slice_index words.now) }
    requires slot { s < geometry.now.segments }
    requires live { IsLive (frame_of geometry.now (slice_index words.now)) s }
    ensures is { IsPrefixOf (frame_of geometry.now (slice_index words.now)) s result }
    ensures depth { result.depth ≤ geometry.now.depth }
    ensures most { result.depth ≤ most_depth }
    ensures pattern { result.pattern < 2 ^ result.depth }
{
    prefix_in(header_at(geometry, words, s))
}

/// The slot that the side link of a segment names, if it names one.
fn named_slot(geometry: &Geometry, words: &[u64], s: u64) -> Option<u64>
    requires whole { length words.now ≡ words_of geometry.now }
    requires slot { s < geometry.now.segments }
    ensures some { IfSome result (λ n. IsNamed (frame_of geometry.now (slice_index words.now)) s n) }
    ensures none { IfNone result ((n : ℕ) → IsNamed (frame_of geometry.now (slice_index words.now)) s n → ⊥) }
{
    let link = words[geometry.link_word(s) as usize];
    let Some(slot) = linked_slot(link) else {
        return None;
    };
    if slot < geometry.segments() {
        Some(slot)
    } else {
        None
    }
}

/// The ready side of a segment that is splitting, if it has one.
pub(crate) fn ready_side(geometry: &Geometry, words: &[u64], s: u64) -> Option<u64>
    requires whole { length words.now ≡ words_of geometry.now }
    requires numbered { IsNumbered geometry.now (slice_index words.now) }
    requires slot { s < geometry.now.segments }
    ensures some { IfSome result (λ n. IsReadySide (frame_of geometry.now (slice_index words.now)) s n) }
    ensures none { IfNone result (HasReadySide (frame_of geometry.now (slice_index words.now)) s → ⊥) }
{
    if state_of(geometry, words, s) != SPLITTING {
        return None;
    }
    let Some(side) = named_slot(geometry, words, s) else {
        return None;
    };
    if is_live(geometry, words, side)
        && is_side(
            prefix_of(geometry, words, s),
            prefix_of(geometry, words, side),
        )
    {
        Some(side)
    } else {
        None
    }
}

/// Whether a segment gives a hash that it covers away: to its ready side.
pub(crate) fn gives_away(geometry: &Geometry, words: &[u64], s: u64, hash: u64) -> bool
    requires whole { length words.now ≡ words_of geometry.now }
    requires numbered { IsNumbered geometry.now (slice_index words.now) }
    requires slot { s < geometry.now.segments }
    requires live { IsLive (frame_of geometry.now (slice_index words.now)) s }
    ensures { IsTrue result ↔ IsGivenAway (frame_of geometry.now (slice_index words.now)) s hash }
{
    in_one_side(prefix_of(geometry, words, s), hash) && ready_side(geometry, words, s).is_some()
}

/// Whether a segment owns a hash, in an image in which each hash has one owner.
pub(crate) fn owns(geometry: &Geometry, words: &[u64], s: u64, hash: u64) -> bool
    requires whole { length words.now ≡ words_of geometry.now }
    requires divided { IsDivided geometry.now (slice_index words.now) }
    requires slot { s < geometry.now.segments }
    ensures { IsTrue result ↔ Owns (frame_of geometry.now (slice_index words.now)) s hash }
{
    if !is_live(geometry, words, s) {
        return false;
    }
    let prefix = prefix_of(geometry, words, s);
    covers(prefix.depth, prefix.pattern, hash) && !gives_away(geometry, words, s, hash)
}
