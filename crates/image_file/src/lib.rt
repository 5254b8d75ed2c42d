//! Bytes to a sound image and back.
//! An image's file is its words, eight bytes each; [`from_bytes`] reads one and says what is wrong with bytes that are
//! none, [`to_bytes`] writes one. [`format`] makes the image of an empty table, [`check`] and [`list`] say what an image
//! holds.
#![tactic(auto)]

mod fault;
mod formatted;
mod laws;
mod medium;
mod read;
mod summary;
mod words;

pub use fault::ImageFault;
pub use formatted::format;
pub use laws::read_of_written;
pub use medium::{Medium, to_bytes};
pub use read::{from_bytes, from_words};
pub use summary::{Summary, check, list};
pub use words::{WORD_BYTES, Words};
