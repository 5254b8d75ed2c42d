//! The words of buckets: what a table has at a key, what of a word that depends on, and what one word's change does.
//!
//! Definitions and laws for every crate that speaks of a running table. `specs/` reads from `Buckets` and `Slots` (one bucket)
//! and `Core` (what of a word counts) over `Owners` (which segment owns a hash), `Hits` (where a key stands, and `find`) and
//! `Standing` (what a table is) to `TableChanges` and `HomeNotes` (what a home has noted of the stash): tables of any number of
//! segments, with records in all their buckets.
#![tactic(auto)]

mod notes;
mod records;

pub use notes::{exact_notes_tell_of_the_stash, notes_stay, stash_records_are_noted};
pub use records::{
    changes_of_a_record, cores_of_the_image_decide, foreign_records_leave, keys_are_found,
    no_slot_changes, one_slot_changes, owners_follow_the_structure, places_of_a_key_decide,
    spoiled_records_leave, stores_beside_records, tables_follow_the_rules,
};
