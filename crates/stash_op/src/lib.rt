//! A record that comes to the stash, as a machine made of phases: it goes on from an insert that found no slot and nothing to move.
//!
//! [`StashOp`] asks for one event at a time: the lock and the words of a stash bucket that is not held yet; the stores of the record
//! in the first free slot; the stores of the note that is owed then; the draw, and the locks back. Where both stash buckets are full
//! it keeps all locks, and another machine goes on. `step` has its steps; `asking` is what it wants in each, and `taking` what an
//! answer makes of it; `search` is what the loaded words say. `specs/` says the same by cases.
#![tactic(auto)]

mod asking;
mod laws;
pub mod op;
mod search;
pub mod step;
mod taking;

pub use laws::{ends_tell, replies_are_as_seen, stashes_are_parts};
pub use op::StashOp;
pub use step::{NoteBucket, NoteWords, Seen, Stage, StashBucket, StashEnd, StashStep};
