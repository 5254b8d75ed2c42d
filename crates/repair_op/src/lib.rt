//! The beginning of the repair of a stale segment, which is live and has not the image's version: a machine that takes its guard, and takes
//! back a split that has no ready side.
//!
//! [`RepairOp`] asks for one event at a time: the segment's guard, its header, and where it is splitting its link and the header of the slot
//! that is linked. A new side becomes free, under the guard of free slots, and a segment without a ready side normal. Then it hands on what is
//! [`Guarded`]; a segment that has the image's version by now is given back. `specs/` says the same by cases.
#![tactic(auto)]

pub mod guarded;
mod heads;
mod laws;
pub mod op;
pub mod step;

pub use guarded::Guarded;
pub use laws::{ends_have_causes, guarded_segments_are_stale, repairs_are_parts};
pub use op::RepairOp;
pub use step::{RepairEnd, RepairStep, Settling};
