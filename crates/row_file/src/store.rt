//! The store of a row, as the bytes of an image: its words, and what is done to it between two runs.

use crate::line::{Line, Word};
use anyhow::{Result, bail};
use std::alloc::Global;

/// The most bytes that the store of a row holds, and that one run writes.
pub const ROOM: usize = 1 << 20;

/// How many bytes a word has.
pub const WORD_BYTES: u64 = 8;

/// The word of an image with this number; none where the image ends before.
pub fn word_at(image: &[u8], number: u64) -> Option<u64> {
    let first = number.checked_mul(WORD_BYTES)?;
    let bytes = image.get(first as usize..)?.first_chunk()?;
    Some(u64::from_le_bytes(*bytes))
}

/// Sets the word of an image with this number, and answers whether the image has it.
pub(crate) fn set_word(image: &mut [u8], word: Word) -> bool {
    let Some(first) = word.number.checked_mul(WORD_BYTES) else {
        return false;
    };
    let Some(rest) = image.get_mut(first as usize..) else {
        return false;
    };
    let Some(place) = rest.first_chunk_mut() else {
        return false;
    };
    *place = word.value.to_le_bytes();
    true
}

/// Changes the store between two runs, as a line says.
///
/// # Errors
///
/// If the store has no room for that or not such a word, or if there is no memory.
pub fn change(alloc: Global, image: &mut Vec<u8>, line: &Line) -> Result<()> {
    match line {
        Line::Image(count) => {
            if *count > ROOM as u64 / WORD_BYTES {
                bail!("an image of {count} words is too large");
            }
            *image = vec![in alloc; 0u8; *count as usize * WORD_BYTES as usize]?;
        }
        Line::Bytes(count) => {
            if *count > ROOM as u64 {
                bail!("a store of {count} bytes is too large");
            }
            image.resize(*count as usize, 0)?;
        }
        Line::Word(word) => {
            if !set_word(image, *word) {
                bail!("the image has no word {}", word.number);
            }
        }
        _ => (),
    }
    Ok(())
}
