//! The metadata of a bucket: which record slots and note slots are used, with their fingerprints.
//! [`Meta`] is read from words 1 to 3 of a bucket, is changed field by field, and is written back.
//! `specs/Bucket.antt` says what each bit of a bucket's words means.
#![tactic(auto)]

mod laws;
mod metadata;
mod slot_sets;
pub mod words;

pub use laws::{
    fingers_change_one_slot, marks_change_one_slot, marks_keep_notes, marks_keep_the_upper_part,
    meta_gives_words, notes_are_freed, read_of_written, words_give_meta, written_of_read,
};
pub use metadata::Meta;
pub use slot_sets::{cleared_mark, copied_mark};
