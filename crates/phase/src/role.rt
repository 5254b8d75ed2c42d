//! The buckets of a key: those in which it may stand, and the two by which room is made for it.

ghost use Rattle.std.specs.Prelude.{◌≡◌, ◌<◌, ◌≤◌};
ghost use Rattle.image_layout.specs.Places.{buckets, most_words};
ghost use Rattle.phase.specs.Places.{bucket_of_role, stash_index, lock_word};

use bucket_meta::words::{FIRST_STASH_INDEX, SECOND_STASH_INDEX};
use hash_word::{home, next, previous, probing};
use image_layout::{HOMES, SECOND_STASH};
use way::bucket_word;
use world::Site;

/// A bucket of a key, in the order in which their locks are given back. The key may stand in the first four, and these are locked
/// and looked at in this order; the last two are third buckets, by which room is made in the first two.
#[derive(Clone, Copy)]
pub enum Role {
    /// The home bucket.
    Home,
    /// The probing bucket.
    Probing,
    /// The first stash bucket.
    First,
    /// The second one.
    Second,
    /// The bucket after the probing bucket.
    Next,
    /// The bucket before the home bucket.
    Previous,
}

/// The number of the bucket in its segment, for a hash.
pub fn bucket_of_role(place: Role, hash: u64) -> u8
    ensures is { result ≡ bucket_of_role hash place }
    ensures within { result < buckets }
{
    match place {
        Role::Home => home(hash),
        Role::Probing => probing(home(hash)),
        Role::First => HOMES,
        Role::Second => SECOND_STASH,
        Role::Next => next(home(hash)),
        Role::Previous => previous(home(hash)),
    }
}

/// The number of a stash bucket among the two; that of the first for a bucket that is none.
pub fn stash_index(place: Role) -> u8
    ensures { result ≡ stash_index place }
{
    match place {
        Role::Second => SECOND_STASH_INDEX,
        Role::Home | Role::Probing | Role::First | Role::Next | Role::Previous => FIRST_STASH_INDEX,
    }
}

/// The lock word of a bucket, for a hash and the segment in a slot; the root's word where there is no such slot.
pub fn lock_word(site: &Site, hash: u64, segment: u64, place: Role) -> u64
    ensures is { result ≡ lock_word site.now hash segment place }
    ensures most { result ≤ most_words }
{
    bucket_word(&site.geometry, segment, bucket_of_role(place, hash))
}
