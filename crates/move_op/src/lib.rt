//! Room is made for a record whose home and probing bucket are full: a record of one of them moves to a third bucket, and the new
//! one takes its slot.
//!
//! [`MoveOp`] goes on with what an insert kept that found no slot. It locks and loads the bucket after the probing bucket, and where
//! no record moves there the one before the home bucket; then it stores the copy, clears its source, stores the new record, draws,
//! and gives the locks back. `step` has its steps; `asking` is what it wants in each, and `taking` what an answer makes of it;
//! `shift` is which record moves, and what is stored of it. `specs/` says the same by cases.
#![tactic(auto)]

mod asking;
mod laws;
pub mod op;
mod shift;
pub mod step;
mod taking;

pub use laws::{ends_tell, moves_are_parts, moves_in_order, replies_are_as_seen};
pub use op::MoveOp;
pub use step::{Direction, Leg, MoveEnd, MoveStep, Shift};
