//! The words of the buckets that are locked, and what a change keeps that found no room.

ghost use Rattle.std.specs.Prelude.{◌≡◌, ◌≤◌};
ghost use Rattle.image_layout.specs.Places.{most_words};
ghost use Rattle.phase.specs.Buckets.{no_words, with_words, words_in};
ghost use Rattle.phase.specs.Places.{lock_word};

use crate::held::Held;
use crate::role::{Role, lock_word};
use bucket_meta::words::BUCKET_WORDS;
use map_model::Change;
use world::Site;

/// The 32 words of each bucket that was loaded, by their numbers in it; the lock word is left out, and is 0.
#[derive(Clone, Copy)]
pub struct Buckets {
    /// Those of the home bucket.
    pub home: [u64; BUCKET_WORDS],
    /// Those of the probing bucket.
    pub probing: [u64; BUCKET_WORDS],
    /// Those of the first stash bucket, where it is visited.
    pub first: [u64; BUCKET_WORDS],
    /// Those of the second one, where it is visited.
    pub second: [u64; BUCKET_WORDS],
    /// Those of the bucket after the probing bucket, where room is made by it.
    pub next: [u64; BUCKET_WORDS],
    /// Those of the bucket before the home bucket, where room is made by it.
    pub previous: [u64; BUCKET_WORDS],
}

impl Buckets {
    /// No bucket was loaded.
    pub fn none() -> Buckets
        ensures { result ≡ no_words }
    {
        Buckets {
            home: [0; BUCKET_WORDS],
            probing: [0; BUCKET_WORDS],
            first: [0; BUCKET_WORDS],
            second: [0; BUCKET_WORDS],
            next: [0; BUCKET_WORDS],
            previous: [0; BUCKET_WORDS],
        }
    }

    /// Puts the words of a bucket in their place.
    pub fn put(&mut self, place: Role, words: [u64; BUCKET_WORDS])
        ensures { self.new ≡ with_words place words self.old }
    {
        match place {
            Role::Home => self.home = words,
            Role::Probing => self.probing = words,
            Role::First => self.first = words,
            Role::Second => self.second = words,
            Role::Next => self.next = words,
            Role::Previous => self.previous = words,
        }
    }

    /// The words of a bucket.
    pub fn of(&self, place: Role) -> [u64; BUCKET_WORDS]
        ensures { result ≡ words_in self.now place }
    {
        match place {
            Role::Home => self.home,
            Role::Probing => self.probing,
            Role::First => self.first,
            Role::Second => self.second,
            Role::Next => self.next,
            Role::Previous => self.previous,
        }
    }
}

/// What an insert hands on that found no room: it keeps its locks, and another machine goes on with them.
#[derive(Clone, Copy)]
pub struct Kept {
    /// Where it runs.
    pub site: Site,
    /// The change.
    pub change: Change,
    /// The hash of its key.
    pub hash: u64,
    /// The slot of the segment.
    pub segment: u64,
    /// Its header.
    pub head: u64,
    /// The locks that are held.
    pub held: Held,
    /// The words of their buckets.
    pub buckets: Buckets,
}

impl Kept {
    /// The lock word of a bucket.
    pub fn lock_of(&self, place: Role) -> u64
        ensures is { result ≡ lock_word self.now.site self.now.hash self.now.segment place }
        ensures most { result ≤ most_words }
    {
        lock_word(&self.site, self.hash, self.segment, place)
    }
}
