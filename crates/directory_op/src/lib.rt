//! The directory is doubled, where that is needed, and a side is published: a machine that goes on from what was copied.
//!
//! [`DirectoryOp`] asks for one event at a time, and waits for the guard of the directory. Under it the area of the directory that is one
//! deeper is filled and the root is stored, where the segment is as deep as the root; then the header of the side becomes that of a normal
//! segment, and each entry of the 1-side names it. All that is stored is stored in rounds. `specs/` says the same by cases, and what the
//! view of its caller holds and knows in each step.
#![tactic(auto)]

mod laws;
pub mod op;
pub mod places;

pub use laws::{free_guards_are_won, outcomes_have_causes, publishings_are_parts};
pub use op::{DirectoryEnd, DirectoryOp, DirectoryStep, Stage};
