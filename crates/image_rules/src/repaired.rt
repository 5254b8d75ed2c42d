//! Rule 7: a clean image is repaired.

ghost use Rattle.std.specs.Prelude.{◌≡◌, ℕ, ◌<◌, ◌↔◌, IfSome, IfNone, IsTrue, length, slice_index};
ghost use Rattle.image_layout.specs.Places.{words_of, homes, buckets};
ghost use Rattle.sound_image.specs.Segments.{frame_of, IsClean};
ghost use Rattle.sound_image.specs.Records.{HasExactNotes};
ghost use Rattle.sound_image.specs.Rules.{CleanMeansRepaired, IsCleanAndCurrent};
ghost use Rattle.image_rules.specs.Breach.{IsLeast};
ghost use Rattle.image_rules.specs.Slots.{IsStanding, IsStandingIn, IsRepairedAt, IsBrokenIn};
ghost use Rattle.image_rules.specs.Repairs.{IsRepairedSegmentAt, IsBrokenSegment};

use crate::heads::{is_live, state_of, version_of};
use crate::notes::has_exact_notes;
use crate::record_slot::bucket_word;
use crate::records::RecordRule;
use bucket_meta::words::{self, is_locked, key_place};
use image_layout::{BUCKETS, Geometry, HOMES, STATE_WORD, state};
use segment_head::word::NORMAL;

/// The metadata word of a bucket, by its number in it.
const MARK_PLACE: u64 = words::MARK_PLACE as u64;

/// Whether the notes of a bucket are exact, if it is a home.
fn has_its_notes(geometry: &Geometry, words: &[u64], s: u64, b: u8) -> bool
    requires whole { length words.now ≡ words_of geometry.now }
    requires segment { s < geometry.now.segments }
    requires bucket { b < buckets }
    ensures { IsTrue result ↔ (b < homes → HasExactNotes geometry.now (slice_index words.now) s b) }
{
    if b >= HOMES {
        return true;
    }
    has_exact_notes(geometry, words, s, b)
}

/// The least word of bucket `b` of a segment at which a clean image is not repaired: the bucket is locked, its notes are
/// not exact, or a record is not the segment's own or not the first of its key.
fn bucket_breach(geometry: &Geometry, words: &[u64], s: u64, b: u8) -> Option<u64>
    requires whole { length words.now ≡ words_of geometry.now }
    requires standing { IsStandingIn geometry.now (slice_index words.now) s }
    requires segment { s < geometry.now.segments }
    requires bucket { b < buckets }
    ensures none { IfNone result ((w : ℕ) → IsRepairedAt geometry.now (slice_index words.now) s b w) }
    ensures some { IfSome result (λ w. IsBrokenIn geometry.now (slice_index words.now) s b w) }
{
    let at = bucket_word(geometry, s, b);
    if is_locked(words[at]) {
        return Some(at as u64);
    }
    if !has_its_notes(geometry, words, s, b) {
        return Some(at as u64 + MARK_PLACE);
    }
    match RecordRule::Once.first_broken(geometry, words, s, b) {
        Some(slot) => Some((at + key_place(slot)) as u64),
        None => None,
    }
}

/// Whether a segment is live and has the image's version.
fn is_current(geometry: &Geometry, words: &[u64], s: u64) -> bool
    requires whole { length words.now ≡ words_of geometry.now }
    requires segment { s < geometry.now.segments }
    requires clean { IsClean (frame_of geometry.now (slice_index words.now)) }
    ensures { IsTrue result ↔ IsCleanAndCurrent geometry.now (slice_index words.now) s }
{
    is_live(geometry, words, s)
        && version_of(geometry, words, s) == state::version_of(words[STATE_WORD as usize])
}

/// Whether an image is marked clean, and a segment of it is live and has its version.
pub(crate) fn is_clean_and_current(geometry: &Geometry, words: &[u64], s: u64) -> bool
    requires whole { length words.now ≡ words_of geometry.now }
    requires segment { s < geometry.now.segments }
    ensures { IsTrue result ↔ IsCleanAndCurrent geometry.now (slice_index words.now) s }
{
    if !state::is_marked(words[STATE_WORD as usize]) {
        return false;
    }
    is_current(geometry, words, s)
}

/// The least word of a segment at which a clean image is not repaired, if the segment has the image's version.
pub(crate) fn segment_breach(geometry: &Geometry, words: &[u64], s: u64) -> Option<u64>
    requires whole { length words.now ≡ words_of geometry.now }
    requires standing { IsStandingIn geometry.now (slice_index words.now) s }
    requires segment { s < geometry.now.segments }
    requires clean { IsClean (frame_of geometry.now (slice_index words.now)) }
    ensures none { IfNone result (IsCleanAndCurrent geometry.now (slice_index words.now) s → (w : ℕ) → IsRepairedSegmentAt geometry.now (slice_index words.now) s w) }
    ensures some { IfSome result (λ w. IsCleanAndCurrent geometry.now (slice_index words.now) s × IsBrokenSegment geometry.now (slice_index words.now) s w) }
{
    if !is_current(geometry, words, s) {
        return None;
    }
    if state_of(geometry, words, s) != NORMAL {
        return Some(geometry.header_word(s));
    }
    for b in 0..BUCKETS {
        if let Some(word) = bucket_breach(geometry, words, s, b) {
            return Some(word);
        }
    }
    None
}

/// The least word at which rule 7 is broken: the image is marked clean, and a segment of its version is not as in a
/// clean one.
pub(crate) fn rule_seven(geometry: &Geometry, words: &[u64]) -> Option<u64>
    requires whole { length words.now ≡ words_of geometry.now }
    requires standing { IsStanding geometry.now (slice_index words.now) }
    ensures none { IfNone result ((w : ℕ) → CleanMeansRepaired geometry.now (slice_index words.now) w) }
    ensures some { IfSome result (λ w. IsLeast (CleanMeansRepaired geometry.now (slice_index words.now)) w) }
{
    if !state::is_marked(words[STATE_WORD as usize]) {
        return None;
    }
    for s in 0..geometry.segments() {
        if let Some(word) = segment_breach(geometry, words, s) {
            return Some(word);
        }
    }
    None
}
