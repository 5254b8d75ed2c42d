//! What caller 0 does alone, before the others begin and after they have ended: the restart and the close of a table.
//!
//! [`RestartOp`] and [`CloseOp`] are the machines; `specs/Restart.antt` and `specs/Close.antt` say what each wants in each
//! step, and what an answer makes of it.
#![tactic(auto)]

mod close;
mod closing;
mod laws;
mod restart;

pub use close::{CloseOp, CloseStep, Closed};
pub use closing::{close_begins, close_ends, close_keeps};
pub use laws::{restart_begins, restart_ends, restart_keeps};
pub use restart::{RestartOp, RestartStep, Started};
