//! A get, as a machine: it reads without a lock, one event at a time, and answers only if nothing moved meanwhile.
//!
//! [`ReadOp`] is the machine and [`ReadStep`] where it stands; `specs/Steps.antt` says what it wants in each step, and
//! what an answer makes of it. The way, the way again and the load of a bucket are phases of `phase`.
#![tactic(auto)]

mod laws;
mod op;
mod role;
mod slots;
mod step;

pub use laws::{asks_within, ends_have_causes, ends_in_time, fits_the_world, gets_are_parts};
pub use op::ReadOp;
pub use role::Free;
pub use step::{ReadEnd, ReadStep, Seen, Task};
