//! What the program takes from its command line, what it hears of its own output, and the number that it ends with.
//! [`received`] takes the arguments, and [`parted`] parts them into the image's path and the words of the command; [`command_of`] says which
//! command the words are, and [`purpose_of`] what the image's file is for. [`Heard`] is a sink that keeps the line of a refusal, by which its
//! message is chosen. [`DONE`] and the numbers behind it are the statuses.
#![tactic(auto)]

mod arguments;
mod command;
mod heard;
mod status;

pub use arguments::{parted, program_of, purpose_of, received};
pub use command::{Command, StormSize, command_of};
pub use heard::Heard;
pub use status::{
    BAD_IMAGE, BAD_SCRIPT, BAD_WORDS, DONE, NO_MEMORY, SINK_FAILED, SOURCE_FAILED, STORE_FAILED,
    statuses_have_numbers,
};
