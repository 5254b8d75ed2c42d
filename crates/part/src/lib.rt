//! A machine is a part of a call: what an engine has to know of it, as one record that each machine proves of itself.
#![tactic(auto)]

mod count;
mod laws;

pub use count::{CountEnd, CountOp, CountStep};
pub use laws::{
    counts_are_parts, counts_end_as_repairs, first_counts_are_parts, own_events_move_nothing,
    turns_of_counts_keep, two_counts_are_a_part, two_counts_or_one_are_a_part,
};
