//! Some bits of a 64-bit word, as a number: looked at, and put in above those that are there.
//!
//! Bits are counted from 0, the lowest. `specs/Bits.antt` says what a number of bits is.
#![tactic(auto)]

ghost use Rattle.std.specs.Prelude.{◌≡◌, ◌==◌, ℕ, ◌<◌, ◌+◌, ◌*◌, ◌^◌, slice_index};
ghost use Rattle.word_bits.specs.Bits.{word_bits, bits, bit};

/// How many bits a word has.
pub const WORD_BITS: u32 = 64;

/// The number that `count` bits of a word make, from bit `low` upwards.
pub fn bits_of(word: u64, low: u32, count: u32) -> u64
    requires place { low < word_bits }
    requires some { count < word_bits }
    ensures value { result ≡ bits low count word }
    ensures below { result < 2 ^ count }
{
    (word >> low) & ((1 << count) - 1)
}

/// Whether bit `i` of a word is 1.
pub fn is_set(word: u64, i: u32) -> bool
    requires { i < word_bits }
    ensures { result ≡ (bit i word == 1) }
{
    (word >> i) & 1 == 1
}

/// A word with the bits of `value` put above the `low` bits that it has.
pub fn with_bits(word: u64, low: u32, value: u64) -> u64
    requires place { low < word_bits }
    requires free { word < 2 ^ low }
    requires fits { value * 2 ^ low < 2 ^ 64 }
    ensures { result ≡ word + 2 ^ low * value }
{
    word | (value << low)
}

/// The word with this bit alone, which is 0 past the word's end.
pub fn mask(i: u32) -> u64
    ensures { result ≡ Rattle.word_bits.specs.Bits.mask i }
{
    if i < WORD_BITS { 1 << i } else { 0 }
}

/// Each of these words is of 64 bits.
pub fn each_fits(words: &[u64])
    ensures { (i : ℕ) → slice_index words.now i < 2 ^ 64 }
{
    let _ = words;
}
