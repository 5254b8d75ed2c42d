//! What each stage makes of the words of the buckets.

ghost use Rattle.std.specs.Prelude.{◌≡◌, ◌≢◌, ◌≤◌, ◌<◌, ℕ, length, slice_index};
ghost use Rattle.image_layout.specs.Places.{buckets, block, first_among_buckets, word_among_buckets};
ghost use Rattle.mend_op.specs.Words.{mended_lock};
ghost use Rattle.mend_op.specs.Stages.{made};

use crate::heads::own_depth;
use crate::stage::Stage;
use bucket_meta::words::{MARK_PLACE, REST_PLACE, without_lock};
use image_layout::{BUCKETS, Geometry, WORDS_OF_BUCKETS, first_among_buckets};
use segment_head::split::{capped_side_depth, one_pattern_field};
use segment_head::word::pattern_of;
use whole_segment::{Loaded, rebuilt_notes};

/// The words of the buckets of a segment, numbered as `word_among_buckets` says.
pub(crate) type Words = [u64; WORDS_OF_BUCKETS as usize];

/// Puts the words of this number of the first buckets.
fn put(words: &mut Words, number: usize, values: &[u64])
    requires number { number < block }
    requires few { length values.now ≤ buckets }
    ensures here { (b : ℕ) → b < length values.now → slice_index words.new (word_among_buckets b number) ≡ slice_index values.now b }
    ensures others { (i : ℕ) → ((b : ℕ) → b < length values.now → i ≢ word_among_buckets b number) → slice_index words.new i ≡ slice_index words.old i }
{
    for (bucket, value) in values.iter().enumerate() {
        words[usize::from(first_among_buckets(bucket as u8)) + number] = *value;
    }
}

/// Frees the lock words.
fn free_locks(words: &mut Words)
    ensures here { (b : ℕ) → b < buckets → slice_index words.new (first_among_buckets b) ≡ mended_lock (slice_index words.old (first_among_buckets b)) }
    ensures others { (i : ℕ) → ((b : ℕ) → b < buckets → i ≢ first_among_buckets b) → slice_index words.new i ≡ slice_index words.old i }
{
    for bucket in 0..BUCKETS {
        let lock = usize::from(first_among_buckets(bucket));
        words[lock] = without_lock(words[lock]);
    }
}

/// The words without the records of the 1-side.
fn halved(words: &Words, geometry: &Geometry, head: u64) -> Words
    ensures { result ≡ made Stage.Clear geometry.now head words.now }
{
    let rest = Loaded::of_words(words).without_half(
        geometry,
        capped_side_depth(head),
        one_pattern_field(head),
    );
    let mut next = *words;
    put(&mut next, MARK_PLACE, &rest.first);
    next
}

/// The words with free locks, and without spoiled records.
fn mended(words: &Words, geometry: &Geometry, head: u64) -> Words
    ensures { result ≡ made Stage.Mend geometry.now head words.now }
{
    let mended = Loaded::of_words(words).mended(geometry, own_depth(head), pattern_of(head));
    let mut next = *words;
    free_locks(&mut next);
    put(&mut next, MARK_PLACE, &mended.first);
    next
}

/// The words with exact notes of their records.
fn noted(words: &Words, geometry: &Geometry) -> Words
    ensures { (head : ℕ) → result ≡ made Stage.Note geometry.now head words.now }
{
    let notes = rebuilt_notes(&Loaded::of_words(words), geometry);
    let mut next = *words;
    put(&mut next, MARK_PLACE, &notes.first);
    put(&mut next, REST_PLACE, &notes.third);
    next
}

/// What a stage makes of the words of a segment with this header.
pub(crate) fn made(stage: Stage, words: &Words, geometry: &Geometry, head: u64) -> Words
    ensures { result ≡ made stage geometry.now head words.now }
{
    match stage {
        Stage::Clear => halved(words, geometry, head),
        Stage::Mend => mended(words, geometry, head),
        Stage::Note => noted(words, geometry),
    }
}
