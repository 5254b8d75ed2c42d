//! The structure of a table by itself: which segment owns which hash, and what each store of a split, a doubling, a
//! repair and a restart does to that.
//!
//! Definitions and laws alone, over the frame of an image: its headers, side links, root and directory.
//! `specs/` reads from `Claims` (who claims a hash, and when a frame is sound) over `Owner` (the owner, computed) and
//! `Media` (what a medium has in common with the newest words) to `Stores` (each store: what it must find, what it leaves).
#![tactic(auto)]

mod laws;

pub use laws::{
    claims_tell_ready_sides, directories_double, links_are_stored, media_are_steady,
    other_words_are_apart, owners_are_computed, owners_stay_or_move, pairs_stay,
    repairs_name_sides, rules_are_local, side_entries_stand_in_a_row, sides_are_ready_in_media,
    sides_go_live, slots_are_taken_and_freed, splits_are_dropped, splits_begin, splits_end,
    splits_name_claimers, versions_are_stored,
};
