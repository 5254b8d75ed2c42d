//! Where the redirecting of entries stands, and how it ends.

use op_core::Why;

/// How it ends.
#[derive(Clone, Copy, Debug)]
pub enum RedirectEnd {
    /// All is given back, and the attempt is to be made again.
    Again(Why),
    /// The segment is guarded as before, no entry leads past its ready side, and another machine goes on.
    Guarded,
}

/// Which event comes next.
#[derive(Clone, Copy)]
pub enum RedirectStep {
    /// The guard of the directory is to be taken.
    Guard,
    /// The root is to be loaded.
    Root,
    /// The entry of this number is to be loaded.
    Entry(u64),
    /// The header of the segment that this entry names is to be loaded: the number of the entry, and the slot.
    Head(u64, u64),
    /// The side is to be stored in this entry, in the rounds.
    Store(u64),
    /// All entries are stored that are to be, and are to be settled.
    Settle,
    /// Nothing was to be stored: a fence tells that all is settled.
    Fence,
    /// The guard of the directory is to be given back.
    GiveDirectory,
    /// The guard of the segment is given back, and then it ends so.
    Give(RedirectEnd),
    /// Nothing more is to be done.
    Ended(RedirectEnd),
}
