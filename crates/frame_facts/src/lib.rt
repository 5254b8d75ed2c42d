//! What a caller may rely on of the structure beside the words that it holds: that a segment is live, what it claims, what entries
//! name; and that each store to the structure leaves that true, and the table with it.
//!
//! Definitions and laws alone, over the frame of an image. `specs/` reads from `Facts` (the facts) over `Keeping` (what a store keeps
//! of them, and what it must find for that) to `Copies` (when a side has the records of its half) and `DeadSlots` (the words of a slot
//! that no segment lives in).
#![tactic(auto)]

mod keeping;
mod learning;
mod tables;

pub use keeping::{
    directory_stores_keep_facts, header_stores_keep_facts, kept_claims_keep_facts,
    live_sides_keep_facts, new_sides_have_one_parent, other_stores_keep_facts,
};
pub use learning::{
    entries_tell, facts_allow_stores, facts_follow_the_structure, headers_tell, live_sides_tell,
    regions_have_parts, sides_tell,
};
pub use tables::{
    dead_slots_are_nobodys, slot_copies_are_copies, stores_keep_or_move_owners, stores_keep_tables,
};
