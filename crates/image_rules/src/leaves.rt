//! Rule 2: each hash has one owner, beside segments that are splitting it off.
//! No segment is deeper than the greatest depth of the image, so each covers whole leaves: places of a directory of that
//! depth. One pass over the segments finds the depth of the deepest one over each leaf, and with it who owns what.

ghost use Rattle.std.specs.Prelude.{◌≡◌, ◌≢◌, ℕ, ◌+◌, ◌-◌, ◌^◌, ◌<◌, ◌≤◌, ◌↔◌, IfOk, IfSome, IfNone, IsTrue, length, slice_index, slice_set};
ghost use Rattle.hash_word.specs.Hash.{first_under, place_over};
ghost use Rattle.image_layout.specs.Places.{words_of, root_word, entries_of, entry_at, most_depth};
ghost use Rattle.sound_image.specs.Segments.{frame_of, IsLive};
ghost use Rattle.sound_image.specs.Directory.{OwnsItsPart, SharesWell};
ghost use Rattle.sound_image.specs.Rules.{HashesAreOwned};
ghost use Rattle.image_rules.specs.Breach.{IsLeast};
ghost use Rattle.image_rules.specs.Divided.{IsNumbered};
ghost use Rattle.image_rules.specs.Leaves.{IsLeafUnder, AreRaised, AreDeepest, AreSeen, HasTwin, ShareWellBelow, IsFirstAtFault};

use crate::heads::{is_live, prefix_of, ready_side};
use image_layout::{Geometry, ROOT_WORD, entries_of};
use map_model::NoMemory;
use segment_head::prefix::{Prefix, one_side_of, zero_side_of};
use std::alloc::Global;

/// The first leaf under a prefix of this depth and pattern.
fn first_leaf(greatest: u8, depth: u8, pattern: usize) -> usize
    requires greatest { greatest ≤ most_depth }
    requires depth { depth ≤ greatest }
    requires pattern { pattern ≤ 2 ^ depth }
    ensures is { result ≡ first_under greatest depth pattern }
    ensures most { result ≤ entries_of greatest }
{
    pattern * entries_of((greatest - depth) as u64) as usize
}

/// Raises the leaves under a prefix to one more than its depth, where they are lower.
fn raise(leaves: &mut [u8], greatest: u8, prefix: Prefix)
    requires greatest { greatest ≤ most_depth }
    requires leaves { length leaves.old ≡ entries_of greatest }
    requires depth { prefix.depth ≤ greatest }
    requires pattern { prefix.pattern < 2 ^ prefix.depth }
    ensures { AreRaised greatest prefix (prefix.depth + 1) leaves.old leaves.new }
{
    let from = first_leaf(greatest, prefix.depth, prefix.pattern as usize);
    let to = first_leaf(greatest, prefix.depth, prefix.pattern as usize + 1);
    for leaf in from..to {
        if leaves[leaf] <= prefix.depth {
            leaves[leaf] = prefix.depth + 1;
        }
    }
}

/// Whether each leaf under a prefix has this number.
fn all_have(leaves: &[u8], greatest: u8, prefix: Prefix, n: u8) -> bool
    requires greatest { greatest ≤ most_depth }
    requires leaves { length leaves.now ≡ entries_of greatest }
    requires depth { prefix.depth ≤ greatest }
    requires pattern { prefix.pattern < 2 ^ prefix.depth }
    ensures { IsTrue result ↔ ((l : ℕ) → IsLeafUnder greatest prefix l → slice_index leaves.now l ≡ n) }
{
    let from = first_leaf(greatest, prefix.depth, prefix.pattern as usize);
    let to = first_leaf(greatest, prefix.depth, prefix.pattern as usize + 1);
    for leaf in from..to {
        if leaves[leaf] != n {
            return false;
        }
    }
    true
}

/// Whether no leaf under a prefix has this number.
fn none_has(leaves: &[u8], greatest: u8, prefix: Prefix, n: u8) -> bool
    requires greatest { greatest ≤ most_depth }
    requires leaves { length leaves.now ≡ entries_of greatest }
    requires depth { prefix.depth ≤ greatest }
    requires pattern { prefix.pattern < 2 ^ prefix.depth }
    ensures { IsTrue result ↔ ((l : ℕ) → IsLeafUnder greatest prefix l → slice_index leaves.now l ≢ n) }
{
    let from = first_leaf(greatest, prefix.depth, prefix.pattern as usize);
    let to = first_leaf(greatest, prefix.depth, prefix.pattern as usize + 1);
    for leaf in from..to {
        if leaves[leaf] == n {
            return false;
        }
    }
    true
}

/// The first leaf without a number: no live segment is over it.
fn first_bare(leaves: &[u8]) -> Option<usize>
    ensures within { IfSome result (λ l. l < length leaves.now) }
    ensures bare { IfSome result (λ l. slice_index leaves.now l ≡ 0) }
    ensures before { IfSome result (λ l. (k : ℕ) → k < l → slice_index leaves.now k ≢ 0) }
    ensures none { IfNone result ((k : ℕ) → k < length leaves.now → slice_index leaves.now k ≢ 0) }
{
    for (leaf, n) in leaves.iter().enumerate() {
        if *n == 0 {
            return Some(leaf);
        }
    }
    None
}

/// Notes that a live segment has this prefix, and says whether it was noted before.
fn see(nodes: &mut [u8], greatest: u8, prefix: Prefix) -> bool
    requires greatest { greatest ≤ most_depth }
    requires nodes { length nodes.old ≡ entries_of (greatest + 1) }
    requires depth { prefix.depth ≤ greatest }
    requires pattern { prefix.pattern < 2 ^ prefix.depth }
    ensures seen { IsTrue result ↔ (slice_index nodes.old (2 ^ prefix.depth + prefix.pattern) ≡ 1) }
    ensures noted { nodes.new ≡ slice_set nodes.old (2 ^ prefix.depth + prefix.pattern) 1 }
    ensures within { 2 ^ prefix.depth + prefix.pattern < length nodes.old }
{
    let node = entries_of(prefix.depth as u64) as usize + prefix.pattern as usize;
    let seen = nodes[node] == 1;
    nodes[node] = 1;
    seen
}

/// Notes the prefix of the live segment in slot `s`, and says whether a live segment before it has the same.
fn see_segment(nodes: &mut [u8], geometry: &Geometry, words: &[u64], s: u64) -> bool
    requires whole { length words.now ≡ words_of geometry.now }
    requires numbered { IsNumbered geometry.now (slice_index words.now) }
    requires slot { s < geometry.now.segments }
    requires live { IsLive (frame_of geometry.now (slice_index words.now)) s }
    requires nodes { length nodes.old ≡ entries_of (geometry.now.depth + 1) }
    requires seen { AreSeen (frame_of geometry.now (slice_index words.now)) geometry.now.depth s nodes.old }
    ensures twin { IsTrue result ↔ HasTwin (frame_of geometry.now (slice_index words.now)) s }
    ensures seen { AreSeen (frame_of geometry.now (slice_index words.now)) geometry.now.depth (s + 1) nodes.new }
{
    let prefix = prefix_of(geometry, words, s);
    see(nodes, geometry.depth() as u8, prefix)
}

/// Raises the leaves under the segment in slot `s`, if it is live. A segment of a depth and a pattern that one before it
/// has changes nothing, so it costs nothing.
fn add_segment(leaves: &mut [u8], nodes: &mut [u8], geometry: &Geometry, words: &[u64], s: u64)
    requires whole { length words.now ≡ words_of geometry.now }
    requires numbered { IsNumbered geometry.now (slice_index words.now) }
    requires slot { s < geometry.now.segments }
    requires leaves { length leaves.old ≡ entries_of geometry.now.depth }
    requires nodes { length nodes.old ≡ entries_of (geometry.now.depth + 1) }
    requires deepest { AreDeepest (frame_of geometry.now (slice_index words.now)) geometry.now.depth s leaves.old }
    requires seen { AreSeen (frame_of geometry.now (slice_index words.now)) geometry.now.depth s nodes.old }
    ensures deepest { AreDeepest (frame_of geometry.now (slice_index words.now)) geometry.now.depth (s + 1) leaves.new }
    ensures seen { AreSeen (frame_of geometry.now (slice_index words.now)) geometry.now.depth (s + 1) nodes.new }
{
    if !is_live(geometry, words, s) {
        return;
    }
    if !see_segment(nodes, geometry, words, s) {
        let prefix = prefix_of(geometry, words, s);
        raise(leaves, geometry.depth() as u8, prefix);
    }
}

/// Of each leaf, one more than the depth of the deepest live segment over it.
fn deepest(alloc: Global, geometry: &Geometry, words: &[u64]) -> Result<Vec<u8>, NoMemory>
    requires whole { length words.now ≡ words_of geometry.now }
    requires numbered { IsNumbered geometry.now (slice_index words.now) }
    ensures leaves { IfOk result (λ leaves. length leaves.items ≡ entries_of geometry.now.depth) }
    ensures is { IfOk result (λ leaves. AreDeepest (frame_of geometry.now (slice_index words.now)) geometry.now.depth geometry.now.segments leaves.items) }
{
    let greatest = geometry.depth() as u8;
    let mut leaves = vec![in alloc; 0u8; entries_of(greatest as u64) as usize]?;
    let mut nodes = vec![in alloc; 0u8; entries_of(greatest as u64 + 1) as usize]?;
    for s in 0..geometry.segments() {
        add_segment(&mut leaves, &mut nodes, geometry, words, s);
    }
    Ok(leaves)
}

/// Whether a segment owns the leaves that it covers, but for its 1-side where that has a ready side.
fn owns_its_part(geometry: &Geometry, words: &[u64], leaves: &[u8], s: u64) -> bool
    requires whole { length words.now ≡ words_of geometry.now }
    requires numbered { IsNumbered geometry.now (slice_index words.now) }
    requires slot { s < geometry.now.segments }
    requires live { IsLive (frame_of geometry.now (slice_index words.now)) s }
    requires leaves { length leaves.now ≡ entries_of geometry.now.depth }
    requires deepest { AreDeepest (frame_of geometry.now (slice_index words.now)) geometry.now.depth geometry.now.segments leaves.now }
    ensures { IsTrue result ↔ OwnsItsPart (frame_of geometry.now (slice_index words.now)) s }
{
    let greatest = geometry.depth() as u8;
    let prefix = prefix_of(geometry, words, s);
    let Some(_) = ready_side(geometry, words, s) else {
        return all_have(leaves, greatest, prefix, prefix.depth + 1);
    };
    let zeros = zero_side_of(prefix);
    let ones = one_side_of(prefix);
    all_have(leaves, greatest, zeros, prefix.depth + 1)
        && none_has(leaves, greatest, ones, prefix.depth + 1)
}

/// Whether the segment in slot `s`, if it is live, is among the others as rule 2 wants it. Notes its prefix.
fn shares_well(nodes: &mut [u8], leaves: &[u8], geometry: &Geometry, words: &[u64], s: u64) -> bool
    requires whole { length words.now ≡ words_of geometry.now }
    requires numbered { IsNumbered geometry.now (slice_index words.now) }
    requires slot { s < geometry.now.segments }
    requires leaves { length leaves.now ≡ entries_of geometry.now.depth }
    requires deepest { AreDeepest (frame_of geometry.now (slice_index words.now)) geometry.now.depth geometry.now.segments leaves.now }
    requires nodes { length nodes.old ≡ entries_of (geometry.now.depth + 1) }
    requires seen { AreSeen (frame_of geometry.now (slice_index words.now)) geometry.now.depth s nodes.old }
    ensures shares { IsTrue result ↔ (IsLive (frame_of geometry.now (slice_index words.now)) s → SharesWell (frame_of geometry.now (slice_index words.now)) s) }
    ensures seen { AreSeen (frame_of geometry.now (slice_index words.now)) geometry.now.depth (s + 1) nodes.new }
{
    if !is_live(geometry, words, s) {
        return true;
    }
    if see_segment(nodes, geometry, words, s) {
        return false;
    }
    let prefix = prefix_of(geometry, words, s);
    if u64::from(prefix.depth) > words[ROOT_WORD as usize] {
        return false;
    }
    owns_its_part(geometry, words, leaves, s)
}

/// The first slot with a live segment that is not among the others as rule 2 wants it. No scan of leaves comes after the
/// first fault, and before it no two segments have the same depth and pattern: so all scans together see each leaf once
/// for each depth at most.
fn first_at_fault(
    nodes: &mut [u8],
    leaves: &[u8],
    geometry: &Geometry,
    words: &[u64],
) -> Option<u64>
    requires whole { length words.now ≡ words_of geometry.now }
    requires numbered { IsNumbered geometry.now (slice_index words.now) }
    requires leaves { length leaves.now ≡ entries_of geometry.now.depth }
    requires deepest { AreDeepest (frame_of geometry.now (slice_index words.now)) geometry.now.depth geometry.now.segments leaves.now }
    requires nodes { length nodes.old ≡ entries_of (geometry.now.depth + 1) }
    requires seen { AreSeen (frame_of geometry.now (slice_index words.now)) geometry.now.depth 0 nodes.old }
    ensures some { IfSome result (λ s. IsFirstAtFault (frame_of geometry.now (slice_index words.now)) s) }
    ensures none { IfNone result (ShareWellBelow (frame_of geometry.now (slice_index words.now)) geometry.now.segments) }
{
    for s in 0..geometry.segments() {
        if !shares_well(nodes, leaves, geometry, words, s) {
            return Some(s);
        }
    }
    None
}

/// The word of the directory's entry over a leaf.
fn entry_over(geometry: &Geometry, words: &[u64], leaf: usize) -> u64
    requires whole { length words.now ≡ words_of geometry.now }
    requires numbered { IsNumbered geometry.now (slice_index words.now) }
    requires leaf { leaf < entries_of geometry.now.depth }
    ensures { result ≡ entry_at (slice_index words.now root_word) (place_over (geometry.now.depth - slice_index words.now root_word) leaf) }
{
    let root = words[ROOT_WORD as usize];
    geometry.entry_at(root, leaf as u64 >> (geometry.depth() - root))
}

/// The least word at which rule 2 is broken: an entry of the directory has hashes without an owner, or a segment is not
/// among the others as it must be.
fn first_unowned(nodes: &mut [u8], leaves: &[u8], geometry: &Geometry, words: &[u64]) -> Option<u64>
    requires whole { length words.now ≡ words_of geometry.now }
    requires numbered { IsNumbered geometry.now (slice_index words.now) }
    requires leaves { length leaves.now ≡ entries_of geometry.now.depth }
    requires deepest { AreDeepest (frame_of geometry.now (slice_index words.now)) geometry.now.depth geometry.now.segments leaves.now }
    requires nodes { length nodes.old ≡ entries_of (geometry.now.depth + 1) }
    requires seen { AreSeen (frame_of geometry.now (slice_index words.now)) geometry.now.depth 0 nodes.old }
    ensures none { IfNone result ((w : ℕ) → HashesAreOwned geometry.now (slice_index words.now) w) }
    ensures some { IfSome result (λ w. IsLeast (HashesAreOwned geometry.now (slice_index words.now)) w) }
{
    if let Some(leaf) = first_bare(leaves) {
        return Some(entry_over(geometry, words, leaf));
    }
    match first_at_fault(nodes, leaves, geometry, words) {
        Some(s) => Some(geometry.header_word(s)),
        None => None,
    }
}

/// The least word at which rule 2 is broken, if it is.
///
/// # Errors
///
/// `NoMemory` if memory runs out.
pub(crate) fn rule_two(
    alloc: Global,
    geometry: &Geometry,
    words: &[u64],
) -> Result<Option<u64>, NoMemory>
    requires whole { length words.now ≡ words_of geometry.now }
    requires numbered { IsNumbered geometry.now (slice_index words.now) }
    ensures none { IfOk result (λ found. IfNone found ((w : ℕ) → HashesAreOwned geometry.now (slice_index words.now) w)) }
    ensures some { IfOk result (λ found. IfSome found (λ w. IsLeast (HashesAreOwned geometry.now (slice_index words.now)) w)) }
{
    let leaves = deepest(alloc, geometry, words)?;
    let mut nodes = vec![in alloc; 0u8; entries_of(geometry.depth() + 1) as usize]?;
    Ok(first_unowned(&mut nodes, &leaves, geometry, words))
}
