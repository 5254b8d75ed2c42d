//! A segment is split: a machine that takes a free slot for the 1-side of an enclosed segment, marks the split, and copies the side's
//! records there.
//!
//! [`SplitOp`] asks for one event at a time: the guard of free slots, headers until one is free, the lock words of that slot; then it
//! empties the slot, links it, marks the segment as splitting and the slot as new, gives that guard back, and copies the records, all
//! in rounds. Then it hands on what is [`Copied`]. Where no slot is free it is answered `FULL`, and gives all back. `specs/` says the
//! same by cases.
#![tactic(auto)]

pub mod batch;
pub mod copied;
pub mod copy;
mod laws;
pub mod op;
pub mod seek;
pub mod step;
pub mod taking;

pub use batch::Batch;
pub use copied::Copied;
pub use laws::{ends_have_causes, new_slots_were_free, splits_are_parts};
pub use op::SplitOp;
pub use step::{SplitEnd, SplitStep};
