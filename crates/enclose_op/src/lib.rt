//! A segment is enclosed that is to be split: a machine that takes its guard and all its locks, and loads its words.
//!
//! [`EncloseOp`] asks for one event at a time. Where there may be room after all it gives everything back, and so where a lock is another's
//! or spent, and where the segment is as deep as the image allows; else it hands on what is [`Enclosed`]. `specs/` says the same by cases,
//! and what its caller's view holds and knows in each step.
#![tactic(auto)]

pub mod enclosed;
pub mod give;
mod laws;
mod op;

pub use enclosed::Enclosed;
pub use give::{Give, give_from, given};
pub use laws::{all_is_given_back, enclosings_are_parts, ends_have_causes, ends_tell};
pub use op::{EncloseEnd, EncloseOp, EncloseStep, NotEnclosed};
