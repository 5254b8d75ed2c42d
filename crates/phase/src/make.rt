//! The stores of one record, up to where they are settled: its key, value and fingerprint, and then the one store that makes the
//! change.

ghost use Rattle.std.specs.Prelude.{◌≡◌, ◌≤◌, ◌+◌, ◌*◌};
ghost use Rattle.bucket_meta.specs.Bucket.{key_behind};
ghost use Rattle.image_layout.specs.Places.{most_words};
ghost use Rattle.phase.specs.Makes.{brought, make_wanted, make_taken};

use bucket_meta::words::{self, finger_place, key_place};
use map_model::Effect;
use op_core::Want;
use trace::{LINE, line_of};

/// The word of a bucket in which the key of its first record slot stands.
const FIRST_KEY: u64 = words::FIRST_KEY as u64;

/// How many words behind the key of a record its value stands.
const VALUE_BEHIND_KEY: u64 = (words::FIRST_VALUE - words::FIRST_KEY) as u64;

/// How many words a record has.
const RECORD_WORDS: u64 = words::RECORD_WORDS as u64;

/// How many record slots have key and value in the first line of the bucket.
const SLOTS_OF_FIRST_LINE: u8 = ((LINE - FIRST_KEY) / RECORD_WORDS) as u8;

/// What is stored of one record. The lock word of its bucket is not in it: it is told beside.
#[derive(Clone, Copy)]
pub struct Record {
    /// The record slot, 0 to 13.
    pub slot: u8,
    /// The key.
    pub key: u64,
    /// The value.
    pub value: u64,
    /// The word of fingerprints, with that of the record in it.
    pub fingers: u64,
    /// The number in the bucket of the word whose store makes the change: 1, or that of the value for an update.
    pub published: u8,
    /// What is stored there.
    pub mark: u64,
}

/// Where the stores are. A new record goes through all of them; an update, a remove and a clearing begin at `Publish`.
#[derive(Clone, Copy)]
pub enum Make {
    /// Stores the key in the free slot.
    Key,
    /// Stores the value beside it.
    Value,
    /// Stores the word of its fingerprint.
    Fingers,
    /// Flushes the line of the fingerprint.
    FlushFingers,
    /// Flushes the line of the record, where it is another.
    FlushRecord,
    /// Waits for both.
    FenceRecord,
    /// Makes the one store by which the record counts, has another value, or counts no more.
    Publish,
    /// Flushes its line.
    FlushPublished,
    /// Waits for it.
    FencePublished,
}

/// What comes after.
#[derive(Clone, Copy)]
pub enum Made {
    /// The next of them.
    On(Make),
    /// All are settled.
    Settled,
}

/// The value that a change brings, and 0 where it brings none.
pub fn brought(effect: Effect) -> u64
    ensures { result ≡ brought effect }
{
    match effect {
        Effect::Insert(value) | Effect::Update(value) => value,
        Effect::Remove => 0,
    }
}

/// The key word of a record slot, in the bucket of this lock word; the value word stands behind it.
fn key_at(lock: u64, slot: u8) -> u64
    requires { lock ≤ most_words }
    ensures is { result ≡ key_behind lock slot }
    ensures most { result ≤ 2 * most_words }
{
    lock + key_place(slot) as u64
}

/// A word of a bucket by its number there.
fn word_at(lock: u64, number: u8) -> u64
    requires { lock ≤ most_words }
    ensures { result ≡ lock + number }
{
    lock + u64::from(number)
}

/// The event that is wanted, in the bucket of this lock word.
pub fn make_want(lock: u64, written: &Record, make: Make) -> Want
    requires { lock ≤ most_words }
    ensures { result ≡ make_wanted lock written.now make }
{
    let key = key_at(lock, written.slot);
    let fingers = lock + finger_place(written.slot) as u64;
    let published = word_at(lock, written.published);
    match make {
        Make::Key => Want::Store(key, written.key),
        Make::Value => Want::Store(key + VALUE_BEHIND_KEY, written.value),
        Make::Fingers => Want::Store(fingers, written.fingers),
        Make::FlushFingers => Want::Flush(line_of(fingers)),
        Make::FlushRecord => Want::Flush(line_of(key)),
        Make::FenceRecord | Make::FencePublished => Want::Fence,
        Make::Publish => Want::Store(published, written.mark),
        Make::FlushPublished => Want::Flush(line_of(published)),
    }
}

/// What comes after a store, a flush or a fence was done. The record's line is that of the fingerprints for the slots of
/// the bucket's first line.
pub fn make_next(slot: u8, make: Make) -> Made
    ensures { result ≡ make_taken slot make }
{
    let next = match make {
        Make::Key => Make::Value,
        Make::Value => Make::Fingers,
        Make::Fingers => Make::FlushFingers,
        Make::FlushFingers if slot < SLOTS_OF_FIRST_LINE => Make::FenceRecord,
        Make::FlushFingers => Make::FlushRecord,
        Make::FlushRecord => Make::FenceRecord,
        Make::FenceRecord => Make::Publish,
        Make::Publish => Make::FlushPublished,
        Make::FlushPublished => Make::FencePublished,
        Make::FencePublished => return Made::Settled,
    };
    Made::On(next)
}
