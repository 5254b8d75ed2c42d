//! Where a displacement stands, and how it ends.

use map_model::Reply;
use op_core::Why;
use phase::{Ending, Held, Load, Make, Record, Take};

/// How an attempt ended that tried to make room for a record.
#[derive(Clone, Copy, Debug)]
pub enum MoveEnd {
    /// It was answered, with its place: the one that it drew, or else the number of changes that it saw.
    Replied(Reply, u64),
    /// No record can move. All locks are kept, and another machine goes on.
    NoMove,
    /// The attempt is to be made again.
    Again(Why),
    /// It has not ended.
    Off,
}

/// Where a record moves to.
#[derive(Clone, Copy)]
pub enum Direction {
    /// From the probing bucket, which is its home, on to the bucket after it.
    Forward,
    /// From the home bucket, which is its probing bucket, back to the bucket before it, which is its home.
    Backward,
}

/// A record that moves, and the new one that takes its slot.
#[derive(Clone, Copy)]
pub struct Shift {
    /// Where it moves to.
    pub direction: Direction,
    /// What is stored of its copy.
    pub copy: Record,
    /// What is stored where it stood: that the slot is free.
    pub clearing: Record,
    /// What is stored of the new record, in that slot.
    pub insert: Record,
}

/// What is stored of a shift, one after another.
#[derive(Clone, Copy)]
pub enum Leg {
    /// The copy.
    Copy,
    /// The clearing of its source.
    Clear,
    /// The new record.
    Insert,
}

/// Which event a displacement does next.
#[derive(Clone, Copy)]
pub enum MoveStep {
    /// The lock of the third bucket in this direction is taken.
    Lock(Direction, Take),
    /// Its words are loaded.
    Fill(Direction, Load),
    /// The commit counter is to be loaded, since a lock has its last version.
    CountSpent,
    /// A record is stored.
    Make(Shift, Leg, Make),
    /// The place of the insert is to be drawn.
    Draw(Shift),
    /// These locks are given back.
    Give(Held, Ending),
    /// Nothing more is to be done.
    Ended(MoveEnd),
}
