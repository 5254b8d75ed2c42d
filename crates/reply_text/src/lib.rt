//! What a session left, how many of its calls have their reply and how many are open, and what the program writes: the text of a session,
//! the lines of `check`, `list` and `storm`, and the lines of refusals.
#![tactic(auto)]

mod left;
mod lines;
mod text;

pub use left::{Session, StormSum};
pub use lines::{USAGE, check_line, image_fault, list_lines, script_fault, storm_line};
pub use text::transcript;
