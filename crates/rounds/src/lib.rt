//! The phase that a split, a doubling and a repair share: words are stored in rounds. They are stored as long as they touch at most
//! eight lines; then these lines are flushed and fenced, and so on until all is stored and settled.
//!
//! [`Rounds`] is a state and nothing more. Its owner says at each event which store is to come; it may load words in between where
//! the next event is a store, and goes on to the one after that behind it.
#![tactic(auto)]

mod laws;
pub mod rounds;

pub use laws::{
    events_are_three, lines_wait_for_a_fence, rounds_are_made, rounds_keep_what_is_known,
    rounds_may_go, rounds_settle_views,
};
pub use rounds::{RoundStep, Rounds};
