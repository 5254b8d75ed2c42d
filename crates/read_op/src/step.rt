//! Where a get stands, and how it ends.

use crate::role::Free;
use op_core::Why;
use phase::{Back, Load, Path, Role, Walk};
use world::Site;

/// What stays the same in an attempt.
#[derive(Clone, Copy)]
pub struct Task {
    /// The key.
    pub key: u64,
    /// Its hash.
    pub hash: u64,
    /// Where the get runs.
    pub site: Site,
}

/// How an attempt of a get ended.
#[derive(Clone, Copy, Debug)]
pub enum ReadEnd {
    /// The key has this value, at this place: the number of changes before it.
    Found(u64, u64),
    /// The key has no value, at this place.
    Absent(u64),
    /// The attempt is to be made again.
    Again(Why),
    /// The segment in this slot is live and has another version byte than the image, which is this one.
    Stale(u64, u8),
    /// The power is off.
    Off,
}

/// What was seen so far in a segment.
#[derive(Clone, Copy)]
pub struct Seen {
    /// How the segment was found.
    pub path: Path,
    /// The free values of the lock words.
    pub free: Free,
    /// Words 1 and 3 of the home bucket, until the probing bucket is loaded.
    pub meta: u64,
    /// The other one.
    pub fingers: u64,
    /// Whether the first stash bucket is to be visited.
    pub first: bool,
    /// Whether the second one is.
    pub second: bool,
    /// What the key has in the buckets that were loaded.
    pub value: Option<u64>,
}

/// Which event a get does next, and what it knows by then.
#[derive(Clone, Copy)]
pub enum ReadStep {
    /// On the way to the segment.
    Way(Walk),
    /// The lock word of a bucket is to be loaded.
    Look {
        /// What was seen.
        seen: Seen,
        /// Which bucket.
        place: Role,
    },
    /// The other words of a bucket are loaded.
    Fill {
        /// What was seen.
        seen: Seen,
        /// Which bucket.
        place: Role,
        /// Its words.
        load: Load,
    },
    /// The commit counter is to be loaded.
    Count {
        /// What was seen.
        seen: Seen,
    },
    /// The words on the way are looked at again.
    Check {
        /// What was seen.
        seen: Seen,
        /// The value of the commit counter.
        placed: u64,
        /// Which word.
        back: Back,
    },
    /// A lock word is looked at again.
    Relook {
        /// What was seen.
        seen: Seen,
        /// The value of the commit counter.
        placed: u64,
        /// Which bucket.
        place: Role,
    },
    /// Nothing more is to be done.
    Ended(ReadEnd),
}
