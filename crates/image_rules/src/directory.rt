//! Rule 3: each entry of the directory leads to the owner of its hashes.

ghost use Rattle.std.specs.Prelude.{◌≡◌, ℕ, ◌+◌, ◌<◌, ◌≤◌, ◌↔◌, IfSome, IfNone, IsTrue, length, slice_index};
ghost use Rattle.image_layout.specs.Places.{words_of, root_word, entries_of, most_depth};
ghost use Rattle.sound_image.specs.Segments.{frame_of, LeadsToOwner};
ghost use Rattle.sound_image.specs.Directory.{EntryLeads};
ghost use Rattle.sound_image.specs.Rules.{EntriesLead};
ghost use Rattle.image_rules.specs.Breach.{IsLeast};
ghost use Rattle.image_rules.specs.Divided.{IsNumbered, IsDivided};
ghost use Rattle.image_rules.specs.Steps.{IsStep};

use crate::heads::{is_live, prefix_of, ready_side};
use hash_word::{covers, first_hash_of};
use image_layout::{Geometry, ROOT_WORD, entries_of};
use segment_head::prefix::in_one_side;

/// Where a hash is looked for after a segment.
#[derive(Clone, Copy)]
pub(crate) enum Step {
    /// The segment is its owner.
    Owner,
    /// The segment gives it away: to its ready side, in this slot.
    On(u64),
    /// The segment is none that covers it.
    Lost,
}

/// Where a hash is looked for after the segment in slot `s`.
fn step_from(geometry: &Geometry, words: &[u64], hash: u64, s: u64) -> Step
    requires whole { length words.now ≡ words_of geometry.now }
    requires divided { IsDivided geometry.now (slice_index words.now) }
    ensures { IsStep (frame_of geometry.now (slice_index words.now)) hash s result }
{
    if s >= geometry.segments() {
        return Step::Lost;
    }
    if !is_live(geometry, words, s) {
        return Step::Lost;
    }
    let prefix = prefix_of(geometry, words, s);
    if !covers(prefix.depth, prefix.pattern, hash) {
        return Step::Lost;
    }
    if !in_one_side(prefix, hash) {
        return Step::Owner;
    }
    match ready_side(geometry, words, s) {
        Some(side) => Step::On(side),
        None => Step::Owner,
    }
}

/// Whether a hash that is looked for from a slot on is led to its owner. Depths rise from step to step.
fn leads(geometry: &Geometry, words: &[u64], hash: u64, start: u64) -> bool
    requires whole { length words.now ≡ words_of geometry.now }
    requires divided { IsDivided geometry.now (slice_index words.now) }
    ensures { IsTrue result ↔ LeadsToOwner (frame_of geometry.now (slice_index words.now)) hash start }
{
    let mut s = start;
    loop {
        match step_from(geometry, words, hash, s) {
            Step::Owner => return true,
            Step::Lost => return false,
            Step::On(side) => s = side,
        }
    }
}

/// The depth of the directory.
fn root_of(geometry: &Geometry, words: &[u64]) -> u64
    requires whole { length words.now ≡ words_of geometry.now }
    requires numbered { IsNumbered geometry.now (slice_index words.now) }
    ensures is { result ≡ slice_index words.now root_word }
    ensures within { result ≤ geometry.now.depth }
    ensures most { result ≤ most_depth }
{
    let _ = geometry.segments();
    words[ROOT_WORD as usize]
}

/// Whether an entry of the directory leads to the owner of its hashes.
fn entry_leads(geometry: &Geometry, words: &[u64], i: u64) -> bool
    requires whole { length words.now ≡ words_of geometry.now }
    requires divided { IsDivided geometry.now (slice_index words.now) }
    requires entry { i < entries_of (slice_index words.now root_word) }
    ensures { IsTrue result ↔ EntryLeads (frame_of geometry.now (slice_index words.now)) i }
{
    let root = root_of(geometry, words);
    let entry = words[geometry.entry_at(root, i) as usize];
    leads(geometry, words, first_hash_of(root, i), entry)
}

/// The least word at which rule 3 is broken: an entry of the directory does not lead to the owner of its hashes.
pub(crate) fn rule_three(geometry: &Geometry, words: &[u64]) -> Option<u64>
    requires whole { length words.now ≡ words_of geometry.now }
    requires divided { IsDivided geometry.now (slice_index words.now) }
    ensures none { IfNone result ((w : ℕ) → EntriesLead geometry.now (slice_index words.now) w) }
    ensures some { IfSome result (λ w. IsLeast (EntriesLead geometry.now (slice_index words.now)) w) }
{
    let root = root_of(geometry, words);
    for i in 0..entries_of(root) {
        if !entry_leads(geometry, words, i) {
            return Some(geometry.entry_at(root, i));
        }
    }
    None
}
