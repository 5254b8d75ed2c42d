//! Where a record stands on its way into the stash, and how its insert ends.

use map_model::Reply;
use op_core::Why;
use phase::{Buckets, Ending, Held, Load, Make, NoteWord, Record, Take};

/// One of the two stash buckets of a segment, in the order in which they are looked at.
#[derive(Clone, Copy)]
pub enum StashBucket {
    /// Stash bucket 0.
    First,
    /// Stash bucket 1.
    Second,
}

/// A bucket that may keep the note of a record in the stash.
#[derive(Clone, Copy)]
pub enum NoteBucket {
    /// The record's home bucket.
    Home,
    /// The record's probing bucket.
    Probing,
}

/// Words 1 and 3 of a bucket in which a note is put, or whose count is raised.
#[derive(Clone, Copy)]
pub struct NoteWords {
    /// Which bucket.
    pub bucket: NoteBucket,
    /// Its metadata word.
    pub mark: u64,
    /// Its word 3, which has the fingerprints of two notes.
    pub fingers: u64,
}

/// How an attempt ended that put a record into the stash.
#[derive(Clone, Copy, Debug)]
pub enum StashEnd {
    /// It was answered, with its place: the one that it drew, or else the number of changes that it saw.
    Replied(Reply, u64),
    /// Both stash buckets of the segment in this slot are full. All locks are kept, and another machine goes on.
    NeedSplit(u64),
    /// The attempt is to be made again.
    Again(Why),
    /// The power is off.
    Off,
}

/// What was seen so far, and which locks are held.
#[derive(Clone, Copy)]
pub struct Seen {
    /// The locks that are held: those that were kept, and those of stash buckets that were taken since.
    pub held: Held,
    /// The words of their buckets.
    pub buckets: Buckets,
    /// The stash bucket to which the record comes.
    pub bucket: StashBucket,
    /// What is stored of the record.
    pub written: Record,
}

/// Which event comes next.
#[derive(Clone, Copy)]
pub enum StashStep {
    /// The lock of a stash bucket is taken.
    Lock(StashBucket, Take),
    /// The words of a stash bucket are loaded.
    Fill(StashBucket, Load),
    /// The record is stored.
    Make(Make),
    /// The note of the record is stored.
    Note(NoteWord),
    /// The place of the insert is to be drawn.
    Draw,
    /// The commit counter is to be loaded, since a lock has its last version.
    CountSpent,
    /// These locks are given back.
    Give(Held, Ending),
    /// Nothing more is to be done.
    Ended(StashEnd),
}

/// Where it stands: what was seen, and which event is next.
#[derive(Clone, Copy)]
pub struct Stage {
    /// What was seen.
    pub seen: Seen,
    /// The next event.
    pub step: StashStep,
}
