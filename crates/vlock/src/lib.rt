//! An image whose words many threads share: each event of a caller is one atomic step, and between any two steps the
//! invariant of the world holds.
//!
//! `table` has the rule of the shared words, `knows` what a seat knows, `steps` the events, `seats` how seats are cut in
//! two and joined, `find` how the segment of a hash is found, `bucket` how a bucket is read and locked, `power` how the power is turned off, and `ends` how an image is opened and how it ends.
#![tactic(auto)]

mod bucket;
mod ends;
mod find;
mod knows;
mod power;
mod seats;
mod steps;
mod table;

pub use bucket::{LockReply, ReadReply, read_bucket, try_lock, unlock};
pub use ends::{OwnedImage, close, cut, ends_open_again, open};
pub use find::{FindReply, find_segment};
pub use knows::Watch;
pub use power::turn_off;
pub use seats::{CutsNote, CutsPass, TakesIn, split_note, split_pass, take_in};
pub use steps::{answer, event, step};
pub use table::{Acting, Acts, Image, ImageSeat, Opening, Rule};
