//! What a split and a repair do to the words of one segment, as plain functions over what is loaded of it: which records go to the
//! 1-side and which are cleared, whether there is no room for a hash, what the overflow notes become, and in which rounds the words
//! are stored. Nothing here allocates, waits or touches memory.
#![tactic(auto)]

mod halves;
mod laws;
mod loaded;
mod notes;
mod room;
mod round;
mod spoiled;
mod stash_records;

pub use laws::{
    loaded_segments_are_of_images, marks_are_halves, repairs_mend, rounds_keep_their_lines,
    rounds_settle, segments_are_halved, tests_tell,
};
pub use loaded::Loaded;
pub use notes::{Notes, rebuilt_notes};
pub use round::{MOST_LINES, Round};
