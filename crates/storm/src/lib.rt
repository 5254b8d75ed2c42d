//! Many sessions one after another on a new image, whose calls, schedules and power cuts come from one number.
//!
//! [`storm`] makes the image, plays one script on it after another, each on what the one before has left, and counts. `scripts` makes
//! the scripts from the numbers of a stream.
#![tactic(auto)]

mod scripts;
mod storming;

pub use reply_text::StormSum;
pub use storming::{MOST_CALLS, MOST_SESSIONS, storm};
