//! The world of many callers: words that they share, what each of them knows and owes, and what stays true between any
//! two events.
//!
//! Definitions and laws alone. `specs/` reads from `Ground` over `Views`, `History` and `Parts` to `Invariant`; `Kinds` has
//! the kinds of step of calls and `Conditions` what each of them asks, `areas/Kinds` and `areas/Asking` those at the
//! structure; `StepKinds` puts both together, and `StepLaws` has the laws.
#![tactic(auto)]

mod areas;
mod laws;
mod mending;
mod repairing;
pub mod site;
mod splitting;
mod steps;
mod structure;

pub use areas::{
    callers_keep_areas, fences_keep_areas, fresh_views_stand, guards_are_taken, loads_tell,
    other_steps_keep_owners, owners_last, rows_keep_owners, said_stays, seats_keep_areas,
    sides_are_ready_everywhere_or_nowhere, stores_keep_areas, stores_spare_others,
    words_have_one_holder,
};
pub use laws::{entries_are_legal, holders_may, readers_may, steps_add_one_reply};
pub use mending::repairers_may_mend;
pub use repairing::{repairers_may_redirect, repairers_may_take_back};
pub use site::Site;
pub use splitting::{
    holders_may_begin_a_split, holders_may_direct, holders_may_fill, holders_may_finish,
    holders_may_publish, locks_tell_of_records,
};
pub use steps::{
    calls_need_no_areas, calls_spare_the_structure, current_segments_rest, each_step_keeps,
    media_stand, mild_kinds_keep, rests_are_quiet, seats_keep, slots_stay, stale_segments_only_go,
    steps_do_events, steps_leave, used_slots_stay, worlds_stay_well,
};
pub use structure::{
    callers_keep_locks_and_words, callers_keep_media, callers_keep_other_parts,
    callers_keep_readers_notes, callers_keep_records, callers_keep_spent_numbers,
    callers_keep_the_structure, callers_know_as_before, device_leaves_what_views_say,
    held_words_stay, locks_stay, notes_of_homes_stay, other_parts_stay, records_stay,
    steps_keep_areas, steps_keep_facts, steps_keep_guards, steps_keep_media,
    steps_keep_the_structure, steps_keep_the_structure_sound, structure_begins,
    structure_keeps_tied, structure_steps_change_no_pair, structure_steps_keep,
    what_views_know_is_so,
};
