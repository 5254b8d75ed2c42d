//! A change over home, probing and stash buckets, as a machine made of phases: an insert, an update or a remove.
//!
//! [`WriteOp`] asks for one event at a time: the way to the segment, the locks of home and probing bucket, the way again, their
//! words, each stash bucket that has to be visited, the commit counter; then the stores, the draw, and the locks back. `step` has
//! its steps; `asking` is what it wants in each, and `taking` what an answer makes of it; `search` is what the loaded words say.
//! `specs/` says the same by cases.
#![tactic(auto)]

mod asking;
mod laws;
pub mod op;
mod search;
pub mod step;
mod taking;

pub use laws::{
    changes_are_made_once, changes_are_parts, ends_have_causes, ends_tell, replies_are_as_seen,
};
pub use op::WriteOp;
pub use step::{Seen, Spot, Stage, Task, WriteEnd, WriteStep};
