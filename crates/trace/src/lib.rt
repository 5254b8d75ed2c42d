//! A persistent memory as a list of events: values, settled moments, and what a power cut may leave.
//!
//! Definitions and their laws, which name no image. `specs/` reads from `Events` over `Settling` to `Media`, what a
//! reader has to believe; `Progress` says the same event by event, and the laws here that it is the same.
#![tactic(auto)]

mod laws;
mod lines;

pub use laws::{
    events_add, fences_settle, media_by_events, media_by_progress, settled_by_progress,
    settled_values,
};
pub use lines::{LINE, LINE_WORDS, MOST_UNFENCED, line_of};
