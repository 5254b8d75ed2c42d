//! The rest of a split, once the directory names the side: a machine that goes on from the segment that was enclosed.
//!
//! [`RestOp`] asks for one event at a time: the records that went to the side are cleared, in rounds; the segment becomes normal again, one
//! deeper; its overflow notes are stored anew; and its locks and its guard are given back. It ends with the split made. `specs/` says the
//! same by cases, and how its caller's view stands in each step.
#![tactic(auto)]

mod laws;
pub mod op;
pub mod reckon;

pub use laws::rests_are_parts;
pub use op::{RestEnd, RestOp, RestStep};
