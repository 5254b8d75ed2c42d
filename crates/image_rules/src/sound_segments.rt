//! Rules 4 to 7 in one pass over the segments.

ghost use Rattle.std.specs.Prelude.{◌≡◌, ◌<◌, ◌↔◌, IsTrue, length, slice_index};
ghost use Rattle.image_layout.specs.Places.{words_of};
ghost use Rattle.sound_image.specs.Segments.{frame_of};
ghost use Rattle.sound_image.specs.Directory.{VersionIsPast};
ghost use Rattle.image_rules.specs.Divided.{IsDivided};
ghost use Rattle.image_rules.specs.Slots.{IsStandingIn};
ghost use Rattle.image_rules.specs.Repairs.{HoldsItsPairs, IsSoundSegment, AreSoundSegments};

use crate::heads::version_of;
use crate::records::RecordRule;
use crate::repaired::{is_clean_and_current, segment_breach};
use image_layout::{Geometry, STATE_WORD, state};

/// Whether the version of a segment is not above the image's.
fn is_past(geometry: &Geometry, words: &[u64], s: u64) -> bool
    requires whole { length words.now ≡ words_of geometry.now }
    requires segment { s < geometry.now.segments }
    ensures { IsTrue result ↔ VersionIsPast (frame_of geometry.now (slice_index words.now)) s }
{
    version_of(geometry, words, s) <= state::version_of(words[STATE_WORD as usize])
}

/// True only where rules 5 and 7 hold of a segment. In a clean image a repaired segment of its version has no key twice,
/// so rule 5 is looked at in others alone.
fn holds_its_pairs(geometry: &Geometry, words: &[u64], s: u64) -> bool
    requires whole { length words.now ≡ words_of geometry.now }
    requires standing { IsStandingIn geometry.now (slice_index words.now) s }
    requires segment { s < geometry.now.segments }
    ensures { IsTrue result → HoldsItsPairs geometry.now (slice_index words.now) s }
{
    if is_clean_and_current(geometry, words, s) {
        if let Some(_) = segment_breach(geometry, words, s) {
            return false;
        }
        return true;
    }
    if let Some(_) = RecordRule::Value.first_key(geometry, words, s) {
        return false;
    }
    true
}

/// True only where rules 4 to 7 hold of a segment.
fn is_sound_segment(geometry: &Geometry, words: &[u64], s: u64) -> bool
    requires whole { length words.now ≡ words_of geometry.now }
    requires divided { IsDivided geometry.now (slice_index words.now) }
    requires segment { s < geometry.now.segments }
    ensures { IsTrue result → IsSoundSegment geometry.now (slice_index words.now) s }
{
    if let Some(_) = RecordRule::Stand.first_key(geometry, words, s) {
        return false;
    }
    is_past(geometry, words, s) && holds_its_pairs(geometry, words, s)
}

/// True only where rules 4 to 7 hold of each segment. Each is looked at whole before the next, so its words are fetched
/// from memory once.
pub(crate) fn are_sound_segments(geometry: &Geometry, words: &[u64]) -> bool
    requires whole { length words.now ≡ words_of geometry.now }
    requires divided { IsDivided geometry.now (slice_index words.now) }
    ensures { IsTrue result → AreSoundSegments geometry.now (slice_index words.now) geometry.now.segments }
{
    for s in 0..geometry.segments() {
        if !is_sound_segment(geometry, words, s) {
            return false;
        }
    }
    true
}
