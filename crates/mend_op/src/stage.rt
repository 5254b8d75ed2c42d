//! The three stages in which words are stored.

ghost use Rattle.std.specs.Prelude.{◌≡◌, ◌<◌};
ghost use Rattle.image_layout.specs.Places.{words_of_buckets};
ghost use Rattle.mend_op.specs.Stages.{most, place};

use bucket_meta::words::MARK_PLACE;
use image_layout::{BUCKETS, NOTE_WORDS, home_of_note, place_of_note, word_among_buckets};

/// How many words of a bucket the second stage may change: those from its first, which is its lock word, to its metadata word.
const MENDED_WORDS_OF_BUCKET: u8 = MARK_PLACE as u8 + 1;

/// What is stored, and in which words.
#[derive(Clone, Copy)]
pub enum Stage {
    /// Word 1 of each bucket, without the records of the 1-side.
    Clear,
    /// The lock word of each bucket, free, and word 1 without its spoiled records.
    Mend,
    /// Words 1 and 3 of each home, with notes of what is left.
    Note,
}

impl Stage {
    /// How many words it may change.
    pub(crate) fn most(self) -> u8
        ensures { result ≡ most self }
    {
        match self {
            Stage::Clear => BUCKETS,
            Stage::Mend => MENDED_WORDS_OF_BUCKET * BUCKETS,
            Stage::Note => NOTE_WORDS,
        }
    }

    /// Which word of the buckets is the one of this number among them.
    pub(crate) fn place(self, number: u8) -> u16
        ensures is { result ≡ place self number }
        ensures within { number < most self → result < words_of_buckets }
    {
        match self {
            Stage::Clear => word_among_buckets(number, MARK_PLACE as u8),
            // The remainder is the number of the word itself in its bucket.
            Stage::Mend => word_among_buckets(
                number / MENDED_WORDS_OF_BUCKET,
                number % MENDED_WORDS_OF_BUCKET,
            ),
            Stage::Note => word_among_buckets(home_of_note(number), place_of_note(number)),
        }
    }
}
