//! What the side of a segment gets: the records of the 1-side, each in the bucket and slot where it stands, with exact notes.

ghost use Rattle.std.specs.Prelude.{◌≡◌};
ghost use Rattle.split_op.specs.Sides.{HasMarks, low_fingers, high_fingers, IsThinned, side_words};

use bucket_meta::words::{
    FINGERS_OF_WORD, FINGERS_PLACE, MARK_PLACE, REST_PLACE, SLOTS, is_taken, slot_fingers_part,
    with_finger,
};
use enclose_op::Enclosed;
use image_layout::{BUCKETS, HOMES, WORDS_OF_BUCKETS, first_among_buckets};
use whole_segment::{Loaded, Notes, rebuilt_notes};

/// The words of the buckets with this metadata: of the homes with notes, and of the stash buckets without, whose word 3 has the
/// fingerprints of record slots alone.
fn with_marks(
    kept: &[u64; WORDS_OF_BUCKETS as usize],
    half: &Loaded,
    notes: &Notes,
) -> [u64; WORDS_OF_BUCKETS as usize]
    ensures { HasMarks kept.now half.now notes.now result }
{
    let mut words = *kept;
    for bucket in 0..BUCKETS {
        let number = usize::from(bucket);
        let at = usize::from(first_among_buckets(bucket));
        if bucket < HOMES {
            words[at + MARK_PLACE] = notes.first[number];
            words[at + REST_PLACE] = notes.third[number];
        } else {
            words[at + MARK_PLACE] = half.first[number];
            words[at + REST_PLACE] = slot_fingers_part(kept[at + REST_PLACE]);
        }
    }
    words
}

/// Word 2 of a bucket with the fingerprints of its taken slots alone.
fn low_fingers(mark: u64, word: u64) -> u64
    ensures { result ≡ low_fingers mark word }
{
    let mut thin = word;
    for slot in 0..FINGERS_OF_WORD {
        if !is_taken(mark, slot) {
            thin = with_finger(thin, slot, 0);
        }
    }
    thin
}

/// Word 3 of a bucket with the fingerprints of its taken slots alone, and its notes as they are.
fn high_fingers(mark: u64, word: u64) -> u64
    ensures { result ≡ high_fingers mark word }
{
    let mut thin = word;
    for slot in FINGERS_OF_WORD..SLOTS {
        if !is_taken(mark, slot) {
            thin = with_finger(thin, slot, 0);
        }
    }
    thin
}

/// These words with the fingerprints of taken slots alone.
fn thinned(words: &[u64; WORDS_OF_BUCKETS as usize]) -> [u64; WORDS_OF_BUCKETS as usize]
    ensures { IsThinned words.now result }
{
    let mut thin = *words;
    for bucket in 0..BUCKETS {
        let at = usize::from(first_among_buckets(bucket));
        thin[at + FINGERS_PLACE] = low_fingers(words[at + MARK_PLACE], words[at + FINGERS_PLACE]);
        thin[at + REST_PLACE] = high_fingers(words[at + MARK_PLACE], words[at + REST_PLACE]);
    }
    thin
}

/// The words of the side's buckets.
pub fn side_words(whole: &Enclosed) -> [u64; WORDS_OF_BUCKETS as usize]
    ensures { result ≡ side_words whole.now }
{
    let geometry = &whole.site.geometry;
    let loaded = whole.loaded();
    let half = loaded.half(
        geometry,
        whole.capped_side_depth(),
        whole.one_pattern_field(),
    );
    let notes = rebuilt_notes(&half, geometry);
    thinned(&with_marks(&whole.buckets, &half, &notes))
}
