//! Rules 1, 4, 5 and 6 of a sound image, one by one: each says at which word it is broken first.

ghost use Rattle.std.specs.Prelude.{◌≡◌, ℕ, ◌+◌, ◌%◌, ◌^◌, ◌<◌, ◌≤◌, ◌↔◌, IfSome, IfNone, IsTrue, length, slice_index};
ghost use Rattle.image_layout.specs.Places.{words_of};
ghost use Rattle.sound_image.specs.Segments.{frame_of};
ghost use Rattle.sound_image.specs.Directory.{HeadInRange, LinkInRange};
ghost use Rattle.sound_image.specs.Rules.{NumbersFit, RecordsStandRight, KeysHaveOneValue, VersionsArePast};
ghost use Rattle.image_rules.specs.Breach.{IsLeast};
ghost use Rattle.image_rules.specs.Divided.{IsDivided};
ghost use Rattle.image_rules.specs.Slots.{IsStanding};

use crate::heads::{header_at, version_of};
use crate::records::RecordRule;
use image_layout::state::{self, FIRST_VERSION};
use image_layout::{Geometry, ROOT_WORD, STATE_WORD};
use segment_head::link::links_within;
use segment_head::word::{FREE, LAST_STATE, depth_of, pattern_of, state_of};

/// Whether a header word is in its range.
fn head_in_range(geometry: &Geometry, words: &[u64], s: u64) -> bool
    requires whole { length words.now ≡ words_of geometry.now }
    requires slot { s < geometry.now.segments }
    ensures { IsTrue result ↔ HeadInRange (frame_of geometry.now (slice_index words.now)) geometry.now.depth s }
{
    let header = header_at(geometry, words, s);
    let state = state_of(header);
    let depth = depth_of(header);
    let pattern = u64::from(pattern_of(header));
    state <= LAST_STATE
        && (state == FREE || (u64::from(depth) <= geometry.depth() && pattern < 1 << depth))
}

/// Whether a side link is in its range.
fn link_in_range(geometry: &Geometry, words: &[u64], s: u64) -> bool
    requires whole { length words.now ≡ words_of geometry.now }
    requires slot { s < geometry.now.segments }
    ensures { IsTrue result ↔ LinkInRange (frame_of geometry.now (slice_index words.now)) s }
{
    state_of(header_at(geometry, words, s)) == FREE
        || links_within(geometry.segments(), words[geometry.link_word(s) as usize])
}

/// The least word at which rule 1 is broken: a number of the image or of a header is out of its range.
pub(crate) fn rule_one(geometry: &Geometry, words: &[u64]) -> Option<u64>
    requires whole { length words.now ≡ words_of geometry.now }
    ensures none { IfNone result ((w : ℕ) → NumbersFit geometry.now (slice_index words.now) w) }
    ensures some { IfSome result (λ w. IsLeast (NumbersFit geometry.now (slice_index words.now)) w) }
{
    if words[ROOT_WORD as usize] > geometry.depth() {
        return Some(ROOT_WORD);
    }
    if state::version_of(words[STATE_WORD as usize]) < FIRST_VERSION {
        return Some(STATE_WORD);
    }
    for s in 0..geometry.segments() {
        if !head_in_range(geometry, words, s) {
            return Some(geometry.header_word(s));
        }
        if !link_in_range(geometry, words, s) {
            return Some(geometry.link_word(s));
        }
    }
    None
}

/// The least word at which rule 4 is broken: a record in its owner does not stand where it is looked for.
pub(crate) fn rule_four(geometry: &Geometry, words: &[u64]) -> Option<u64>
    requires whole { length words.now ≡ words_of geometry.now }
    requires divided { IsDivided geometry.now (slice_index words.now) }
    ensures none { IfNone result ((w : ℕ) → RecordsStandRight geometry.now (slice_index words.now) w) }
    ensures some { IfSome result (λ w. IsLeast (RecordsStandRight geometry.now (slice_index words.now)) w) }
{
    RecordRule::Stand.first_of_all(geometry, words)
}

/// The least word at which rule 5 is broken: a key stands twice in its owner with two values.
pub(crate) fn rule_five(geometry: &Geometry, words: &[u64]) -> Option<u64>
    requires whole { length words.now ≡ words_of geometry.now }
    requires standing { IsStanding geometry.now (slice_index words.now) }
    ensures none { IfNone result ((w : ℕ) → KeysHaveOneValue geometry.now (slice_index words.now) w) }
    ensures some { IfSome result (λ w. IsLeast (KeysHaveOneValue geometry.now (slice_index words.now)) w) }
{
    RecordRule::Value.first_of_all(geometry, words)
}

/// The least word at which rule 6 is broken: a version is above the image's.
pub(crate) fn rule_six(geometry: &Geometry, words: &[u64]) -> Option<u64>
    requires whole { length words.now ≡ words_of geometry.now }
    ensures none { IfNone result ((w : ℕ) → VersionsArePast geometry.now (slice_index words.now) w) }
    ensures some { IfSome result (λ w. IsLeast (VersionsArePast geometry.now (slice_index words.now)) w) }
{
    let version = state::version_of(words[STATE_WORD as usize]);
    for s in 0..geometry.segments() {
        if version_of(geometry, words, s) > version {
            return Some(geometry.header_word(s));
        }
    }
    None
}
