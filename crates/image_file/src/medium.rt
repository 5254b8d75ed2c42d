//! An image in memory, and its file.

ghost use Rattle.std.specs.Prelude.{◌≡◌, ◌*◌, IfOk, length};
ghost use Rattle.image_layout.specs.Places.{words_of};
ghost use Rattle.sound_image.specs.Image.{word_bytes, image_bytes};

use crate::words::{WORD_BYTES, Words};
use byteorder::{ByteOrder, LittleEndian};
use image_layout::Geometry;
use map_model::NoMemory;
use std::alloc::Global;

/// An image in memory: how it is laid out, and its words.
#[derive(Debug, Drop)]
pub struct Medium {
    /// The three numbers that say where each part stands.
    pub geometry: Geometry,
    /// All words, the first four of which say the geometry.
    pub words: Words,
}

/// The file of an image.
///
/// # Errors
///
/// `NoMemory` if memory runs out.
pub fn to_bytes(alloc: Global, medium: &Medium) -> Result<Vec<u8>, NoMemory>
    requires whole { length medium.now.words ≡ words_of medium.now.geometry }
    ensures file { IfOk result (λ bytes. bytes.items ≡ image_bytes medium.now.words) }
    ensures len { IfOk result (λ bytes. length bytes.items ≡ word_bytes * length medium.now.words) }
{
    let words = medium.words.as_slice();
    let count = medium.geometry.words() as usize;
    let mut bytes = vec![in alloc; 0u8; WORD_BYTES * count]?;
    LittleEndian::write_u64_into(words, &mut bytes);
    Ok(bytes)
}
