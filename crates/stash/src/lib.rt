//! The overflow notes of records that stand in the stash: what the buckets of a segment remember of the records
//! that found no slot in their home bucket or their probing bucket. [`note`] and [`unnote`] keep the notes and the
//! count of one home exact, [`must_visit`] says from them in which stash buckets a record may stand, and
//! [`rebuild`] makes those of a whole segment anew. `specs/Exact.antt` says what exact means.
#![tactic(auto)]

mod note_slots;
mod notes;
mod segment;

pub use notes::{must_visit, note, unnote};
pub use segment::rebuild;
