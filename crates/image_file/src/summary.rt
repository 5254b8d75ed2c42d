//! What an image holds.

ghost use Rattle.std.specs.Prelude.{◌≡◌, ℕ, ◌*◌, ◌<◌, ◌↔◌, List, length, slice_index, IfOk, IsTrue};
ghost use Rattle.std.specs.List.Sorted.{IsStrictlyIncreasing};
ghost use Rattle.image_layout.specs.Places.{words_of, segment_slots};
ghost use Rattle.sound_image.specs.Segments.{frame_of, image_version, IsClean};
ghost use Rattle.sound_image.specs.Image.{IsSoundImage};
ghost use Rattle.sound_image.specs.Rules.{KeysHaveOneValue};
ghost use Rattle.image_rules.specs.Slots.{IsStanding};
ghost use Rattle.image_file.specs.Pairs.{live_slots, keys_of, ArePairs, ArePairsBelow};

use crate::medium::Medium;
use image_layout::{Geometry, ROOT_WORD, SEGMENT_SLOTS, STATE_WORD, state};
use image_rules::{is_first_at, pair_at};
use map_model::NoMemory;
use segment_head::word::is_live;
use std::alloc::Global;

/// An image in numbers.
#[derive(Clone, Copy, Debug, PartialEq, Eq)]
pub struct Summary {
    /// The version of the image, 1 to 255.
    pub version: u8,
    /// The depth of its directory, 0 to 16.
    pub depth: u8,
    /// How many slots hold a live segment.
    pub live: u64,
    /// How many pairs it holds.
    pub pairs: u64,
    /// Whether it is marked clean.
    pub clean: bool,
}

/// How many slots hold a live segment: one that is normal or splitting.
fn count_live(geometry: &Geometry, words: &[u64]) -> u64
    requires whole { length words.now ≡ words_of geometry.now }
    ensures { result ≡ length (live_slots (frame_of geometry.now (slice_index words.now)) geometry.now.segments) }
{
    let mut live = 0;
    for slot in 0..geometry.segments() {
        if is_live(words[geometry.header_word(slot) as usize]) {
            live += 1;
        }
    }
    live
}

/// How many pairs an image has.
fn count_pairs(geometry: &Geometry, words: &[u64]) -> u64
    requires whole { length words.now ≡ words_of geometry.now }
    requires standing { IsStanding geometry.now (slice_index words.now) }
    requires values { (w : ℕ) → KeysHaveOneValue geometry.now (slice_index words.now) w }
    ensures { (pairs : List (ℕ × ℕ)) × ArePairsBelow geometry.now (slice_index words.now) (segment_slots * geometry.now.segments) pairs × (result ≡ length pairs) }
{
    let mut count = 0;
    for n in 0..SEGMENT_SLOTS * geometry.segments() {
        if is_first_at(geometry, words, n) {
            count += 1;
        }
    }
    count
}

/// The pairs of an image, in the order of their record slots.
fn all_pairs(alloc: Global, geometry: &Geometry, words: &[u64]) -> Result<Vec<(u64, u64)>, NoMemory>
    requires whole { length words.now ≡ words_of geometry.now }
    requires standing { IsStanding geometry.now (slice_index words.now) }
    requires values { (w : ℕ) → KeysHaveOneValue geometry.now (slice_index words.now) w }
    ensures { IfOk result (λ pairs. ArePairsBelow geometry.now (slice_index words.now) (segment_slots * geometry.now.segments) pairs.items) }
{
    let mut pairs = Vec::new(alloc);
    for n in 0..SEGMENT_SLOTS * geometry.segments() {
        if is_first_at(geometry, words, n) {
            pairs.push(pair_at(geometry, words, n))?;
        }
    }
    Ok(pairs)
}

/// An image in numbers.
pub fn check(medium: &Medium) -> Summary
    requires sound { IsSoundImage medium.now.geometry medium.now.words }
    ensures version { result.version ≡ image_version (frame_of medium.now.geometry (slice_index medium.now.words)) }
    ensures depth { result.depth ≡ (frame_of medium.now.geometry (slice_index medium.now.words)).root }
    ensures live { result.live ≡ length (live_slots (frame_of medium.now.geometry (slice_index medium.now.words)) medium.now.geometry.segments) }
    ensures pairs { (pairs : List (ℕ × ℕ)) × ArePairs medium.now.geometry (slice_index medium.now.words) pairs × (result.pairs ≡ length pairs) }
    ensures clean { IsTrue result.clean ↔ IsClean (frame_of medium.now.geometry (slice_index medium.now.words)) }
{
    let words = medium.words.as_slice();
    let status = words[STATE_WORD as usize];
    Summary {
        version: state::version_of(status),
        depth: words[ROOT_WORD as usize] as u8,
        live: count_live(&medium.geometry, words),
        pairs: count_pairs(&medium.geometry, words),
        clean: state::is_marked(status),
    }
}

/// The pairs of an image, by rising key, each key once.
///
/// # Errors
///
/// `NoMemory` if memory runs out.
pub fn list(alloc: Global, medium: &Medium) -> Result<Vec<(u64, u64)>, NoMemory>
    requires sound { IsSoundImage medium.now.geometry medium.now.words }
    ensures pairs { IfOk result (λ pairs. ArePairs medium.now.geometry (slice_index medium.now.words) pairs.items) }
    ensures rising { IfOk result (λ pairs. IsStrictlyIncreasing (keys_of pairs.items)) }
{
    let mut pairs = all_pairs(alloc, &medium.geometry, medium.words.as_slice())?;
    pairs.sort_by_key(|pair| pair.0)?;
    Ok(pairs)
}
