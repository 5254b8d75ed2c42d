//! Where the parts of an image stand.
//! An image is a list of 64-bit words: 32 words about the whole, an area of the directory for each depth, and
//! then the segments, of a header and 66 buckets. [`Geometry`] gives the word number of each part;
//! `specs/Places.antt` says what that number is. [`format`] has the functions of the format word, and [`state`] those of the state word.
#![tactic(auto)]

pub mod format;
mod laws;
mod shape;
pub mod state;

pub use hash_word::{HOMES, MOST_DEPTH};
pub use laws::{largest_is_written_out, parts_apart, parts_within, shape_in_range};
pub use shape::{
    BLOCK, BLOCK_WORDS, BUCKETS, FREE_GUARD, FRONT_DEPTH, FRONT_FORMAT, FRONT_MAGIC,
    FRONT_SEGMENTS, GeoFault, Geometry, HEADER, HEADER_WORDS, IDENTITY_KIND, LAST_BUCKET,
    LAST_OF_BUCKETS, LINK, MOST_KIND, MOST_SEGMENTS, MOST_WORDS, NOTE_WORDS, POWER_OFF, POWER_ON,
    ROOT_WORD, SECOND_STASH, SEGMENT_SLOTS, SEGMENT_WORDS, SLOTS_OF_KEY, STASH_BUCKETS,
    STASH_SLOTS, STATE_WORD, WORDS_OF_BUCKETS, among_buckets, bucket_behind, bucket_of,
    bucket_place, depth_above, depth_below, entries_of, entry_above, first_among_buckets,
    half_of_entry, home_of_note, is_mark_note, mark_among_buckets, place_of_note, stash_bucket,
    word_among_buckets,
};
