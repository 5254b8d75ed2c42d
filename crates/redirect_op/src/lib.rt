//! The entries of the directory are redirected to the ready side of a stale segment: a machine that goes on from a segment whose guard is held.
//!
//! [`RedirectOp`] asks for one event at a time: the guard of the directory, the root, and for each entry of the segment's 1-side the entry and
//! the header of the segment that it names. Where that is no deeper than the stale one the entry is to name the side; entries of deeper
//! segments are left alone. What is stored is stored in rounds. A segment without a ready side is handed on at once. `specs/` says the same by
//! cases.
#![tactic(auto)]

mod laws;
pub mod op;
pub mod step;

pub use laws::{ends_have_causes, redirects_are_parts};
pub use op::RedirectOp;
pub use step::{RedirectEnd, RedirectStep};
