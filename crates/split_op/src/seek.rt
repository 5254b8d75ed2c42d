//! Which words of a side are copied.

ghost use Rattle.std.specs.Prelude.{◌≡◌, ◌<◌, ◌≤◌, slice_index};
ghost use Rattle.image_layout.specs.Places.{segment_words};
ghost use Rattle.split_op.specs.Batches.{is_copied, copied_from};

use crate::batch::{FIRST_KEY, LOCK_PLACE, SLOT_WORDS};
use bucket_meta::words::{is_taken, slot_of_place};
use image_layout::{BLOCK_WORDS, WORDS_OF_BUCKETS, among_buckets, mark_among_buckets};

/// Whether a word of the side is copied, by its number in the slot: of each bucket the metadata that is not 0, and key and value of
/// each record slot that is taken.
pub(crate) fn is_copied(words: &[u64; WORDS_OF_BUCKETS as usize], number: u16) -> bool
    requires { number < segment_words }
    ensures { result ≡ is_copied words.now number }
{
    let place = number % BLOCK_WORDS;
    if place == LOCK_PLACE {
        false
    } else if place < FIRST_KEY {
        words[usize::from(among_buckets(number))] != 0
    } else {
        is_taken(
            words[usize::from(mark_among_buckets(number))],
            slot_of_place(usize::from(place)),
        )
    }
}

/// The first word that is copied of those from a number on.
pub(crate) fn copied_from(words: &[u64; WORDS_OF_BUCKETS as usize], from: u16) -> u16
    ensures { result ≡ copied_from words.now from }
{
    for number in from..SLOT_WORDS {
        if is_copied(words, number) {
            return number;
        }
    }
    SLOT_WORDS
}
