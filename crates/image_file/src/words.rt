//! The words of an image.

ghost use Rattle.std.specs.Prelude.{◌≡◌, ℕ, ◌+◌, ◌*◌, ◌/◌, ◌%◌, ◌<◌, ◌≤◌, ◌^◌, ◌++◌, [], length, slice_index, IfOk, OnOk, OnErr, vec_len, vec_capacity};
ghost use Rattle.sound_image.specs.Image.{word_bytes, image_bytes};
ghost use Rattle.image_file.specs.Fault.{word_in_file};

use byteorder::{ByteOrder, LittleEndian};
use map_model::NoMemory;
use std::alloc::Global;
use std::marker::Model;
use word_bits::each_fits;

/// How many bytes of its file a word takes, the lowest first.
pub const WORD_BYTES: usize = 8;

/// The word of that number in a file.
pub(crate) fn word_at(bytes: &[u8], index: usize) -> u64
    requires { word_bytes * index + word_bytes ≤ length bytes.now }
    ensures { result ≡ word_in_file bytes.now index }
{
    LittleEndian::read_u64(&bytes[WORD_BYTES * index..])
}

// Each of these bytes is of 8 bits.
fn each_byte_fits(bytes: &[u8])
    ensures { (i : ℕ) → slice_index bytes.now i < 256 }
{
    let _ = bytes;
}

// Adds the words that a piece of a file spells, for which there is room.
fn push_words(words: &mut Vec<u64>, piece: &[u8])
    requires whole { length piece.now % word_bytes ≡ 0 }
    requires room { vec_len words.old + length piece.now / word_bytes ≤ vec_capacity words.old }
    ensures { image_bytes words.new.items ≡ image_bytes words.old.items ++ piece.now }
{
    each_byte_fits(piece);
    for index in 0..piece.len() / WORD_BYTES {
        words.push_reserved(word_at(piece, index));
    }
}

/// The words of an image, of 64 bits each. A contract sees their list.
#[derive(Debug, Drop)]
pub struct Words {
    words: Vec<u64>,
}

impl Model for Words {
    ghost use Rattle.std.specs.Prelude.{List, ℕ};

    ghost Value = { List ℕ };

    ghost view = { λ inside. inside.words.items };
}

impl Words {
    /// These words.
    pub fn new(words: Vec<u64>) -> Words
        ensures { result ≡ words.items }
    {
        Words { words }
    }

    /// No words yet. Room for so many is asked for; that it is there is not said, and [`Words::push_bytes`] takes more where it is not.
    ///
    /// # Errors
    ///
    /// `NoMemory` if memory runs out.
    pub fn with_room(alloc: Global, count: usize) -> Result<Words, NoMemory>
        ensures { IfOk result (λ words. words ≡ []) }
    {
        let words = Vec::with_capacity(alloc, count)?;
        Ok(Words { words })
    }

    /// Adds the words that the next piece of a file spells, eight bytes each. It takes memory only where there is no room.
    ///
    /// # Errors
    ///
    /// `NoMemory` if memory runs out; the words are then those of before.
    pub fn push_bytes(&mut self, piece: &[u8]) -> Result<(), NoMemory>
        requires { length piece.now % word_bytes ≡ 0 }
        ensures ok { OnOk result (image_bytes self.new ≡ image_bytes self.old ++ piece.now) }
        ensures err { OnErr result (self.new ≡ self.old) }
    {
        self.words.reserve(piece.len() / WORD_BYTES)?;
        push_words(&mut self.words, piece);
        Ok(())
    }

    /// The words, to be read.
    pub fn as_slice(&self) -> &[u64]
        ensures value { result.now ≡ self.now }
        ensures fits { (i : ℕ) → slice_index self.now i < 2 ^ 64 }
    {
        let words = self.words.as_slice();
        each_fits(words);
        words
    }
}
