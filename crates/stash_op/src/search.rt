//! What the loaded words say: where a stash bucket has a free slot, what is stored of the record, and what of its note.

ghost use Rattle.std.specs.Prelude.{◌≡◌};
ghost use Rattle.stash_op.specs.Search.{place_of, index_of, note_place, side_of, free_slot, record_in, noted_or, noted_by, noted, has_finger};

use crate::step::{NoteBucket, NoteWords, Seen, StashBucket};
use bucket_meta::words::{
    BUCKET_WORDS, HOME_SIDE, MARK_PLACE, PROBING_SIDE, REST_PLACE, finger_place, inserted_mark,
    lowest_free, noted_fingers, noted_mark, raised_count, unused_place, with_finger,
};
use hash_word::finger;
use phase::{Buckets, Kept, Record, Role, brought, stash_index};

// ---- buckets

/// A stash bucket among the buckets of a key.
pub fn place_of(bucket: StashBucket) -> Role
    ensures { result ≡ place_of bucket }
{
    match bucket {
        StashBucket::First => Role::First,
        StashBucket::Second => Role::Second,
    }
}

/// Its number among the stash buckets.
fn index_of(bucket: StashBucket) -> u8
    ensures { result ≡ index_of bucket }
{
    stash_index(place_of(bucket))
}

/// The bucket of a note among the buckets of a key.
pub fn note_place(bucket: NoteBucket) -> Role
    ensures { result ≡ note_place bucket }
{
    match bucket {
        NoteBucket::Home => Role::Home,
        NoteBucket::Probing => Role::Probing,
    }
}

/// The side of the notes that it keeps of this home.
fn side_of(bucket: NoteBucket) -> u8
    ensures { result ≡ side_of bucket }
{
    match bucket {
        NoteBucket::Home => HOME_SIDE,
        NoteBucket::Probing => PROBING_SIDE,
    }
}

// ---- the record

/// The lowest free slot of a stash bucket.
pub fn free_slot(buckets: &Buckets, bucket: StashBucket) -> Option<u8>
    ensures { result ≡ free_slot buckets.now bucket }
{
    let words = buckets.of(place_of(bucket));
    lowest_free(words[MARK_PLACE])
}

/// What is stored of the record in a slot of a stash bucket: no membership bit.
pub fn record_in(kept: &Kept, buckets: &Buckets, bucket: StashBucket, slot: u8) -> Record
    ensures { result ≡ record_in kept.now buckets.now bucket slot }
{
    let words = buckets.of(place_of(bucket));
    Record {
        slot,
        key: kept.change.key,
        value: brought(kept.change.effect),
        fingers: with_finger(words[finger_place(slot)], slot, finger(kept.hash)),
        published: MARK_PLACE as u8,
        mark: inserted_mark(words[MARK_PLACE], slot),
    }
}

// ---- its note

/// Words 1 and 3 of a bucket with the note on a note slot, or else what is made instead.
fn noted_or(
    bucket: NoteBucket,
    words: &[u64; BUCKET_WORDS],
    finger: u8,
    index: u8,
    at: Option<u8>,
    rest: NoteWords,
) -> NoteWords
    ensures { result ≡ noted_or bucket words.now finger index at rest }
{
    match at {
        Some(at) => NoteWords {
            bucket,
            mark: noted_mark(words[MARK_PLACE], at, side_of(bucket), finger, index),
            fingers: noted_fingers(words[REST_PLACE], at, finger),
        },
        None => rest,
    }
}

/// What notes a record of this fingerprint and stash bucket: the lowest unused note slot of the home bucket, else that of the probing
/// bucket, and else the home bucket's count of records without a note.
fn noted_by(
    home: &[u64; BUCKET_WORDS],
    probing: &[u64; BUCKET_WORDS],
    finger: u8,
    index: u8,
) -> NoteWords
    ensures { result ≡ noted_by home.now probing.now finger index }
{
    let counted = NoteWords {
        bucket: NoteBucket::Home,
        mark: raised_count(home[MARK_PLACE]),
        fingers: home[REST_PLACE],
    };
    let in_probing = unused_place(probing[MARK_PLACE]);
    let in_home = unused_place(home[MARK_PLACE]);
    let rest = noted_or(
        NoteBucket::Probing,
        probing,
        finger,
        index,
        in_probing,
        counted,
    );
    noted_or(NoteBucket::Home, home, finger, index, in_home, rest)
}

/// What notes the record that came to the stash.
pub fn noted(hash: u64, seen: &Seen) -> NoteWords
    ensures { result ≡ noted hash seen.now }
{
    let index = index_of(seen.bucket);
    noted_by(
        &seen.buckets.home,
        &seen.buckets.probing,
        finger(hash),
        index,
    )
}

/// Whether word 3 changes too.
pub fn has_finger(seen: &Seen, note: &NoteWords) -> bool
    ensures { result ≡ has_finger seen.now note.now }
{
    let words = seen.buckets.of(note_place(note.bucket));
    words[REST_PLACE] != note.fingers
}
