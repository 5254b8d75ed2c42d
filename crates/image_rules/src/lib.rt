//! What a sound image is, decided: which rule its words break first, and at which word.
//! [`first_breach`] looks at the rules in their order; [`is_first_at`] and [`pair_at`] tell the pairs of an image whose
//! records stand where they are looked for, slot by slot.
#![tactic(auto)]

mod breach;
mod directory;
mod heads;
mod leaves;
mod notes;
mod own;
mod record_slot;
mod records;
mod repaired;
mod rules;
mod sound_segments;

pub use breach::{Breach, Rule, first_breach};
pub use own::{is_first_at, pair_at};
pub use record_slot::RecordSlot;
