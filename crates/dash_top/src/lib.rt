//! The top call: all that the program does, over a store, a source, a sink and the gates of its callers.
//!
//! `dash_run` reads the words, the script and the image, runs the one on the other, and writes the image and the
//! transcript. Its contract is the promise of the whole program; the modules below it are private, and each is
//! written so that it can become a crate of its own.
#![tactic(auto)]

mod laws;
mod reading;
mod running;
mod top;
mod work;

pub use command_line::{
    BAD_IMAGE, BAD_SCRIPT, BAD_WORDS, DONE, NO_MEMORY, SINK_FAILED, SOURCE_FAILED, STORE_FAILED,
    statuses_have_numbers,
};
pub use laws::plays_compose;
pub use top::dash_run;
