//! The keeping of a memory: its events one by one, and the restart and the close of the image on it.
//!
//! [`do_event`] does one event on the memory and answers it. [`restart`] and [`close`] run the machines of caller 0 on a memory
//! by themselves, and [`Steps`] counts what a restart takes.
#![tactic(auto)]

mod doing;
mod keeper;
mod tally;

pub use doing::do_event;
pub use keeper::{close, restart};
pub use tally::Steps;
