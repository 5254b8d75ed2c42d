//! Where the beginning of a repair stands, and how it ends.

use op_core::Why;

/// How it ends.
#[derive(Clone, Copy, Debug)]
pub enum RepairEnd {
    /// The segment has the image's version, and all is given back.
    Current,
    /// All is given back, and the attempt is to be made again.
    Again(Why),
    /// The segment is guarded, and another machine goes on.
    Guarded,
}

/// Which of the three events comes next that settle a word.
#[derive(Clone, Copy)]
pub enum Settling {
    /// The word is to be stored.
    Store,
    /// Its line is to be flushed.
    Flush,
    /// And that is to be fenced.
    Fence,
}

/// Which event comes next.
#[derive(Clone, Copy)]
pub enum RepairStep {
    /// The guard of the segment is to be taken.
    Guard,
    /// The header is to be loaded.
    Head,
    /// The segment is splitting: its link is to be loaded.
    Link,
    /// The header of this slot is to be loaded, which is linked.
    Side(u64),
    /// This slot is the new side, with this header: the guard of free slots is to be taken.
    Slots(u64, u64),
    /// The slot is to be free, which had this header.
    Free(u64, u64, Settling),
    /// The guard of free slots is to be given back.
    GiveSlots,
    /// The segment is to be normal again.
    Unmark(Settling),
    /// The guard of the segment is given back, and then it ends so.
    Give(RepairEnd),
    /// Nothing more is to be done.
    Ended(RepairEnd),
}
