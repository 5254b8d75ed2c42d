//! How an insert that found no room gives its locks back: a machine that goes on from what was kept.
//!
//! [`ReleaseOp`] asks for one event at a time: the stores that give back the locks, six at the most. Then it tells its
//! [`ReleaseEnd`]: the segment that is to be split before the insert is made again. `specs/` says the same by cases, and why there is
//! no room in that segment.
#![tactic(auto)]

mod laws;
pub mod op;

pub use laws::{ends_tell, releases_are_parts, releases_find_no_room};
pub use op::{ReleaseEnd, ReleaseOp, ReleaseStep};
