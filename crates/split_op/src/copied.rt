//! What the split hands on: the segment that it splits, and the side that has the copies.

ghost use Rattle.std.specs.Prelude.{◌≡◌};

use enclose_op::Enclosed;
use image_layout::WORDS_OF_BUCKETS;

/// A segment that is being split, and whose side has copies of its records.
#[derive(Clone, Copy)]
pub struct Copied {
    /// The segment as it was when it was enclosed.
    pub whole: Enclosed,
    /// The slot of the side.
    pub side: u64,
    /// The words of the side's buckets, numbered as `word_among_buckets` says. Lock words are left out, and what stands in a
    /// record slot that is not taken was not stored.
    pub words: [u64; WORDS_OF_BUCKETS as usize],
}
