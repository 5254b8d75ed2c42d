//! Runs a script on an image, event by event, on a memory with flush and fence.
//!
//! `play` follows the lines of a script: `calls` picks each caller's calls out of them, `starting` makes the callers, `driving` does what each line says,
//! `deeds` does one event of a caller on the memory, and `leaving` tells what is left. What a run does is
//! said by the definitions of `core_run`.
#![tactic(auto)]

mod caller;
mod calls;
mod counting;
mod deeds;
mod driving;
mod leaving;
mod playing;
mod run_state;
mod starting;

pub use calls::{calls_of_caller, last_caller};
pub use core_run::{runs_are_sessions, sessions_compose};
pub use playing::play;
