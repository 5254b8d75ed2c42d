//! The image of an empty table.

ghost use Rattle.std.specs.Prelude.{◌≡◌, ℕ, IfOk, slice_index};
ghost use Rattle.segment_head.specs.HeadWord.{header_of, normal};
ghost use Rattle.image_layout.specs.StateWord.{first_version, with_marker};
ghost use Rattle.sound_image.specs.Records.{HasPair};
ghost use Rattle.sound_image.specs.Image.{IsSoundImage};
ghost use Rattle.image_file.specs.Formatted.{IsFormatted};

use crate::medium::Medium;
use crate::words::Words;
use image_layout::format::format_word;
use image_layout::state::{self, FIRST_VERSION};
use image_layout::{
    FRONT_DEPTH, FRONT_FORMAT, FRONT_MAGIC, FRONT_SEGMENTS, Geometry, STATE_WORD, shape_in_range,
};
use map_model::NoMemory;
use segment_head::{Head, State};
use std::alloc::Global;

/// The first word of an image: its bytes are the text `DASHEH01`.
pub(crate) const MAGIC: u64 = 0x3130_4845_4853_4144;

/// The state word of a new image: of that version, and marked clean.
fn first_state() -> u64
    ensures { result ≡ with_marker first_version }
{
    state::with_marker(u64::from(FIRST_VERSION))
}

/// The header word of its first segment: of that version, and covering every hash.
fn first_header() -> u64
    ensures { result ≡ header_of first_version normal 0 0 }
{
    let head = Head {
        version: FIRST_VERSION,
        state: State::Normal,
        depth: 0,
        pattern: 0,
    };
    head.write()
}

/// The words of the image of an empty table.
fn empty_words(alloc: Global, geometry: &Geometry) -> Result<Words, NoMemory>
    ensures { IfOk result (IsFormatted geometry.now) }
{
    let mut words = vec![in alloc; 0u64; geometry.words() as usize]?;
    words[FRONT_MAGIC] = MAGIC;
    words[FRONT_FORMAT] = format_word(geometry.kind());
    words[FRONT_SEGMENTS] = geometry.segments();
    words[FRONT_DEPTH] = geometry.depth();
    words[STATE_WORD as usize] = first_state();
    words[geometry.header_word(0) as usize] = first_header();
    Ok(Words::new(words))
}

/// The image of an empty table: clean, of version 1, with slot 0 in use at depth 0, and every other slot free.
///
/// # Errors
///
/// `NoMemory` if memory runs out.
pub fn format(alloc: Global, geometry: Geometry) -> Result<Medium, NoMemory>
    ensures geometry { IfOk result (λ medium. medium.geometry ≡ geometry) }
    ensures words { IfOk result (λ medium. IsFormatted geometry medium.words) }
    ensures sound { IfOk result (λ medium. IsSoundImage geometry medium.words) }
    ensures empty { IfOk result (λ medium. (k v : ℕ) → HasPair geometry (slice_index medium.words) k v → ⊥) }
{
    shape_in_range(&geometry);
    let words = empty_words(alloc, &geometry)?;
    let slice = words.as_slice();
    Ok(Medium { geometry, words })
}
