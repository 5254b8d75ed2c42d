//! Where a split stands, and how it ends.

use crate::batch::Batch;
use enclose_op::Give;
use op_core::Why;
use rounds::Rounds;

/// How a split ends.
#[derive(Clone, Copy, Debug)]
pub enum SplitEnd {
    /// The side has its copies. All is kept, and another machine goes on.
    Copied,
    /// The attempt is to be made again.
    Again(Why),
    /// No slot was free, after this many changes.
    Full(u64),
}

/// Which event a split does next.
#[derive(Clone, Copy)]
pub enum SplitStep {
    /// The guard of free slots is to be taken.
    Take,
    /// The header of this slot is to be loaded.
    Search(u64),
    /// The commit counter is to be loaded, since no slot is free.
    Count,
    /// The guard of free slots is to be given back, after this many changes.
    Return(u64),
    /// The lock word of this bucket of the slot is to be loaded.
    Look(u8),
    /// Words are stored in rounds.
    Put(Batch, Rounds),
    /// The guard of free slots is to be given back, since the side is new.
    Release,
    /// What is held is given back, and then it ends so.
    Back(Give, SplitEnd),
    /// Nothing more is to be done.
    Ended(SplitEnd),
}
