//! The mending of a stale segment, once its entries are in order: a machine that goes on from what is [`Guarded`](repair_op::Guarded).
//!
//! [`MendOp`] asks for one event at a time: the words of all buckets are loaded; of a split with a ready side the records of the 1-side
//! are cleared, and the segment becomes normal, one deeper; its locks are freed and its spoiled records cleared; its overflow notes are
//! stored anew; its header gets the image's version; and its guard is given back. `specs/` says the same by cases, and how its caller's
//! view stands in each step.
#![tactic(auto)]

mod heads;
mod laws;
mod make;
pub mod op;
pub mod stage;

pub use laws::{mends_are_parts, mends_end_repaired};
pub use op::{MendEnd, MendOp, MendStep};
pub use stage::Stage;
