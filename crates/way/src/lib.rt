//! The words on the way from a hash to its bucket: root, directory entry, header, bucket.
//!
//! A machine that looks for a key loads the root depth, the entry of the key's hash, the header of the segment that the
//! entry names, and the lock word with which a bucket of that segment begins; one that splits or repairs a segment also its
//! link and its guard, and any word of its slot. Site is said which words these are: a
//! depth or a slot that the image has not gives the root's word, so each function answers for any numbers.
#![tactic(auto)]

ghost use Rattle.std.specs.Prelude.{◌≡◌, ◌<◌, ◌≤◌, ◌+◌};
ghost use Rattle.image_layout.specs.Keys.{key_hash};
ghost use Rattle.image_layout.specs.Places.{buckets, most_words};
ghost use Rattle.way.specs.Ways.{entry_word, slot_word, head_word, slot_link, slot_guard, bucket_word};

use hash_word::{HASH_BITS, Kind, dir_index, hash};
use image_layout::{Geometry, HEADER, IDENTITY_KIND, LINK, ROOT_WORD};
use segment_head::word::{NORMAL, depth_of, pattern_of, state_of};

/// The hash of a key in an image that is laid out so.
pub fn key_hash(geometry: &Geometry, key: u64) -> u64
    ensures { result ≡ key_hash geometry.now key }
{
    if geometry.kind() == IDENTITY_KIND {
        hash(Kind::Identity, key)
    } else {
        hash(Kind::Mix, key)
    }
}

/// The word of the entry of a hash in the directory of this depth; that of the root where the image has no such depth.
pub fn entry_word(geometry: &Geometry, hash: u64, root: u64) -> u64
    ensures { result ≡ entry_word geometry.now hash root }
{
    if root <= geometry.depth() {
        geometry.entry_at(root, dir_index(hash, root as u8))
    } else {
        ROOT_WORD
    }
}

/// A word of the segment in a slot, by its number, counted from the first, which is 0; that of the root where there is no
/// such slot.
pub fn slot_word(geometry: &Geometry, segment: u64, number: u16) -> u64
    ensures { result ≡ slot_word geometry.now segment number }
{
    if segment < geometry.segments() {
        geometry.head_at(segment) + u64::from(number)
    } else {
        ROOT_WORD
    }
}

/// The header word of the segment in a slot, with its version, state, depth and pattern; that of the root where there is
/// no such slot.
pub fn head_word(geometry: &Geometry, segment: u64) -> u64
    ensures { result ≡ head_word geometry.now segment }
{
    slot_word(geometry, segment, HEADER as u16)
}

/// The word of its link; that of the root where there is no such slot.
pub fn slot_link(geometry: &Geometry, segment: u64) -> u64
    ensures { result ≡ slot_link geometry.now segment }
{
    slot_word(geometry, segment, LINK as u16)
}

/// The word of its guard; that of the root where there is no such slot.
pub fn slot_guard(geometry: &Geometry, segment: u64) -> u64
    ensures { result ≡ slot_guard geometry.now segment }
{
    if segment < geometry.segments() {
        geometry.segment_guard(segment)
    } else {
        ROOT_WORD
    }
}

/// The first word of a bucket of the segment in a slot, its lock word; that of the root where there is no such slot.
pub fn bucket_word(geometry: &Geometry, segment: u64, bucket: u8) -> u64
    requires { bucket < buckets }
    ensures is { result ≡ bucket_word geometry.now segment bucket }
    ensures most { result ≤ most_words }
{
    if segment < geometry.segments() {
        geometry.bucket_at(segment, bucket)
    } else {
        ROOT_WORD
    }
}

/// Whether a header covers a hash: the hash's top bits, as many as the header's depth, are its pattern.
pub fn is_covering(head: u64, hash: u64) -> bool
    ensures { result ≡ Rattle.way.specs.Ways.is_covering head hash }
{
    let depth = depth_of(head);
    depth <= HASH_BITS && dir_index(hash, depth) == u64::from(pattern_of(head))
}

/// Whether a header leads to a hash: it is that of a normal segment, and covers it.
pub fn is_leading(head: u64, hash: u64) -> bool
    ensures { result ≡ Rattle.way.specs.Ways.is_leading head hash }
{
    state_of(head) == NORMAL && is_covering(head, hash)
}
