//! What a machine wants of a shared memory, what it is answered, and why an attempt ends without a reply.
//!
//! A machine is a piece of plain data that asks for one event at a time: [`Want`] says which, [`Ans`] what came of it.
#![tactic(auto)]

pub mod machine;
pub mod want;
pub mod why;

pub use machine::Machine;
pub use want::{Ans, Want};
pub use why::Why;
