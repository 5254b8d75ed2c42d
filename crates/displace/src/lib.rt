//! Which record of a full bucket can stand in its other bucket, so that an insert has a free slot.
//! A record of the probing bucket's own moves on to the next bucket, and a member of the home bucket
//! moves back to the one before it. The choice reads metadata alone: the caller moves the record.
#![tactic(auto)]

mod victim;

pub use victim::{backward, forward};
