//! Where a change stands, and how it ends.

use map_model::{Change, Reply};
use op_core::Why;
use phase::{Back, Buckets, Ending, Held, Load, Make, NoteWord, Path, Record, Role, Take, Walk};
use world::Site;

/// What stays the same in an attempt.
#[derive(Clone, Copy)]
pub struct Task {
    /// Where the change runs.
    pub site: Site,
    /// The change.
    pub change: Change,
    /// The hash of its key.
    pub hash: u64,
}

/// How an attempt of a change ended.
#[derive(Clone, Copy, Debug)]
pub enum WriteEnd {
    /// It was answered, with its place: the one that it drew, or else the number of changes that it saw.
    Replied(Reply, u64),
    /// The key of an insert stands nowhere, and no slot is free for it. All locks are kept, and another machine goes on.
    NoSlot,
    /// The attempt is to be made again.
    Again(Why),
    /// The segment in this slot is live and has another version byte than the image, which is this one.
    Stale(u64, u8),
    /// The power is off.
    Off,
}

/// A record slot of one of the buckets.
#[derive(Clone, Copy)]
pub struct Spot {
    /// Which bucket.
    pub place: Role,
    /// The slot, 0 to 13.
    pub slot: u8,
}

/// What was seen so far, and which locks were taken.
#[derive(Clone, Copy)]
pub struct Seen {
    /// How the segment was found.
    pub path: Path,
    /// Whether the first stash bucket is to be visited.
    pub first: bool,
    /// Whether the second one is.
    pub second: bool,
    /// The locks that were taken.
    pub held: Held,
    /// The words of their buckets.
    pub buckets: Buckets,
    /// The bucket of the record that is changed.
    pub place: Role,
    /// What is stored of that record.
    pub written: Record,
}

/// Which event a change does next.
#[derive(Clone, Copy)]
pub enum WriteStep {
    /// On the way to the segment.
    Way(Walk),
    /// The lock of a bucket is taken.
    Lock(Role, Take),
    /// The words on the way are looked at again.
    Check(Back),
    /// The words of a bucket are loaded.
    Fill(Role, Load),
    /// The commit counter is to be loaded.
    Count,
    /// The record is stored.
    Make(Make),
    /// The place of the change is to be drawn.
    Draw,
    /// The note of a record is taken away that left the stash, by a change with this place.
    Unnote(NoteWord, u64),
    /// The commit counter is to be loaded, since a lock has its last version.
    CountSpent,
    /// These locks are given back.
    Give(Held, Ending),
    /// Nothing more is to be done.
    Ended(WriteEnd),
}

/// Where a change stands: what was seen, and which event is next.
#[derive(Clone, Copy)]
pub struct Stage {
    /// What was seen.
    pub seen: Seen,
    /// The next event.
    pub step: WriteStep,
}
