//! Which of its two buckets an insert goes to: the home bucket or the probing bucket after it.
//! Records are spread evenly, since the one with fewer records takes the new one.
//! The choice reads the two buckets' metadata alone, and changes nothing.
#![tactic(auto)]

mod choice;
mod laws;

pub use choice::{Choice, choose};
pub use laws::choices_have_room;
