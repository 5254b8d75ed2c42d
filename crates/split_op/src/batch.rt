//! What a split stores, one store after another.

ghost use Rattle.std.specs.Prelude.{◌≡◌, ◌<◌};
ghost use Rattle.image_layout.specs.Places.{segment_words};
ghost use Rattle.split_op.specs.Copied.{split_head, side_head};
ghost use Rattle.split_op.specs.Batches.{empty_value, first_of, after_empty, due, after};

use crate::copied::Copied;
use crate::seek::copied_from;
use bucket_meta::words::{self, is_locked, without_lock};
use enclose_op::Enclosed;
use image_layout::{
    BLOCK_WORDS, BUCKETS, HEADER, HEADER_WORDS, LINK, SEGMENT_WORDS, among_buckets, bucket_behind,
    bucket_of, bucket_place,
};
use segment_head::link::link_to;
use segment_head::split::{one_side_head, with_state};
use segment_head::word::{FRESH, SPLITTING};
use way::slot_word;

/// What is stored. Words of a slot are numbered from its first header word on: number 1 is its header, number 2 its link, and number
/// `bucket_place(b)` the lock word of bucket `b`.
#[derive(Clone, Copy)]
pub enum Batch {
    /// The link, the locks and the metadata of the slot are emptied, and this word is the next.
    Empty(u16),
    /// The slot is linked, or it was.
    Link(bool),
    /// The segment is marked as splitting, or it was.
    Mark(bool),
    /// The slot is marked as a new side, or it was.
    New(bool),
    /// The records are copied, and this word is the next.
    Copy(u16),
}

/// The number of the header word of a slot.
pub const HEADER_NUMBER: u16 = HEADER as u16;
/// That of the word of its link.
pub(crate) const LINK_NUMBER: u16 = LINK as u16;
/// How many words a slot has.
pub const SLOT_WORDS: u16 = SEGMENT_WORDS as u16;
/// The word of a bucket in which the key of its first record slot stands.
pub(crate) const FIRST_KEY: u16 = words::FIRST_KEY as u16;
/// The words of a bucket before it, by their numbers in it: its lock word.
pub(crate) const LOCK_PLACE: u16 = words::LOCK_PLACE as u16;
/// Its metadata word.
pub(crate) const MARK_PLACE: u16 = words::MARK_PLACE as u16;
/// The last one of the metadata.
const REST_PLACE: u16 = words::REST_PLACE as u16;

// ---- headers

/// The header of a segment while it is split.
pub fn split_head(whole: &Enclosed) -> u64
    ensures { result ≡ split_head whole.now }
{
    with_state(whole.head, SPLITTING)
}

/// The header of its new side.
pub fn side_head(whole: &Enclosed) -> u64
    ensures { result ≡ side_head whole.now }
{
    one_side_head(whole.site.version, FRESH, whole.head)
}

// ---- a slot is emptied

/// What a word of the slot is emptied to: a lock word to the free value of its version, and another to 0.
fn empty_value(locks: &[u64; BUCKETS as usize], number: u16) -> u64
    requires { number < segment_words }
    ensures { result ≡ empty_value locks.now number }
{
    if number < HEADER_WORDS || number % BLOCK_WORDS > LOCK_PLACE {
        0
    } else {
        without_lock(locks[usize::from(bucket_of(number))])
    }
}

/// The first word of a bucket that is emptied: its lock word where that is not free.
fn first_of(locks: &[u64; BUCKETS as usize], bucket: u16) -> u16
    ensures is { result ≡ first_of locks.now bucket }
{
    if bucket >= u16::from(BUCKETS) {
        SLOT_WORDS
    } else if is_locked(locks[usize::from(bucket)]) {
        bucket_place(bucket as u8)
    } else {
        bucket_place(bucket as u8) + MARK_PLACE
    }
}

/// The word that is emptied after one: behind the link, and behind the metadata of each bucket, the first one of the next bucket.
fn after_empty(locks: &[u64; BUCKETS as usize], number: u16) -> u16
    requires { number < segment_words }
    ensures { result ≡ after_empty locks.now number }
{
    if number >= HEADER_WORDS && number % BLOCK_WORDS < REST_PLACE {
        number + 1
    } else {
        first_of(locks, bucket_behind(number))
    }
}

// ---- the stores

/// The store that is to come: its word and its value.
pub fn due(copied: &Copied, locks: &[u64; BUCKETS as usize], batch: Batch) -> Option<(u64, u64)>
    ensures { result ≡ due copied.now locks.now batch }
{
    let geometry = &copied.whole.site.geometry;
    match batch {
        Batch::Empty(number) if number < SLOT_WORDS => Some((
            slot_word(geometry, copied.side, number),
            empty_value(locks, number),
        )),
        Batch::Link(false) => Some((
            slot_word(geometry, copied.whole.segment, LINK_NUMBER),
            link_to(copied.side),
        )),
        Batch::Mark(false) => Some((
            slot_word(geometry, copied.whole.segment, HEADER_NUMBER),
            split_head(&copied.whole),
        )),
        Batch::New(false) => Some((
            slot_word(geometry, copied.side, HEADER_NUMBER),
            side_head(&copied.whole),
        )),
        Batch::Copy(number) if number < SLOT_WORDS => Some((
            slot_word(geometry, copied.side, number),
            copied.words[usize::from(among_buckets(number))],
        )),
        _ => None,
    }
}

/// What is to come after it.
pub fn after(copied: &Copied, locks: &[u64; BUCKETS as usize], batch: Batch) -> Batch
    ensures { result ≡ after copied.now locks.now batch }
{
    match batch {
        Batch::Empty(number) if number < SLOT_WORDS => Batch::Empty(after_empty(locks, number)),
        Batch::Copy(number) if number < SLOT_WORDS => {
            Batch::Copy(copied_from(&copied.words, number + 1))
        }
        Batch::Link(_) => Batch::Link(true),
        Batch::Mark(_) => Batch::Mark(true),
        Batch::New(_) => Batch::New(true),
        done => done,
    }
}
