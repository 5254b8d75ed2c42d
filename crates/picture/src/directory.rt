//! The directory of an image: how deep it is, and which slot each entry names.

ghost use Rattle.std.specs.Prelude.{◌≡◌, ◌<◌, ◌≤◌, length, slice_index};
ghost use Rattle.image_layout.specs.Places.{entries_of, entry_at, most_depth, root_word, words_of};
ghost use Rattle.sound_image.specs.Image.{IsSoundImage};

use image_layout::{Geometry, ROOT_WORD};

/// How many top bits of a hash choose an entry, by the words of a sound image.
pub fn root_depth(geometry: &Geometry, words: &[u64]) -> u64
    requires sound { IsSoundImage geometry.now words.now }
    ensures is { result ≡ slice_index words.now root_word }
    ensures fits { result ≤ geometry.now.depth }
    ensures most { result ≤ most_depth }
{
    let _ = geometry;
    words[ROOT_WORD as usize]
}

/// The slot that entry `i` of a directory of this depth names.
pub fn entry(geometry: &Geometry, words: &[u64], depth: u64, i: u64) -> u64
    requires whole { length words.now ≡ words_of geometry.now }
    requires depth { depth ≤ geometry.now.depth }
    requires index { i < entries_of depth }
    ensures { result ≡ slice_index words.now (entry_at depth i) }
{
    words[geometry.entry_at(depth, i) as usize]
}
