//! What a picture of an image shows, taken from its words: [`root_depth`], [`entries_of`] and [`entry`] read the directory,
//! [`header_fields`] the header of a segment, and [`filled`], [`stashed`] and [`all_stashed`] count the records of buckets.
//! [`sign`] shows such a count in one sign.
#![tactic(auto)]

mod counts;
mod directory;
mod header;

pub use counts::{all_stashed, filled, sign, stashed};
pub use directory::{entry, root_depth};
pub use header::{Header, header_fields};
pub use image_layout::entries_of;
