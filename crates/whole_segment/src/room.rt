//! Whether a segment has room for a hash.

ghost use Rattle.std.specs.Prelude.{◌≡◌, ◌<◌, ◌⊎◌, ◌↔◌, IsTrue};
ghost use Rattle.bucket_meta.specs.Slots.{IsFull, HasOnlyMembers, HasNoMembers};
ghost use Rattle.hash_word.specs.Hash.{home_of};
ghost use Rattle.image_layout.specs.Places.{homes, buckets};

use crate::Loaded;
use balance::{Choice, choose};
use bucket_meta::Meta;
use displace::{backward, forward};
use hash_word::{home, next, previous, probing};
use image_layout::{HOMES, SECOND_STASH};

/// Whether two buckets are both full, by their words 1.
fn are_full(w1: u64, u1: u64) -> bool
    ensures { IsTrue result ↔ IsFull w1 × IsFull u1 }
{
    match choose(&Meta::read([w1, 0, 0]), &Meta::read([u1, 0, 0])) {
        Choice::Neither => true,
        Choice::Home => false,
        Choice::Probe => false,
    }
}

/// Whether no record of the probing bucket can move on to the next bucket, by their words 1.
fn none_moves_on(probing: u64, next: u64) -> bool
    ensures { IsTrue result ↔ HasOnlyMembers probing ⊎ IsFull next }
{
    forward(&Meta::read([probing, 0, 0]), &Meta::read([next, 0, 0])).is_none()
}

/// Whether no record of the home bucket can move back to the previous bucket, by their words 1.
fn none_moves_back(home: u64, previous: u64) -> bool
    ensures { IsTrue result ↔ HasNoMembers home ⊎ IsFull previous }
{
    backward(&Meta::read([home, 0, 0]), &Meta::read([previous, 0, 0])).is_none()
}

impl Loaded {
    ghost use Rattle.whole_segment.specs.Records.{first_in};
    ghost use Rattle.whole_segment.specs.Room.{IsCrowded, NothingMoves, HasNoRoom, has_no_room};

    /// Word 1 of a bucket.
    fn mark(&self, bucket: u8) -> u64
        requires { bucket < buckets }
        ensures { result ≡ first_in self.now bucket }
    {
        self.first[usize::from(bucket)]
    }

    /// Whether the two buckets of a home and both stash buckets are full.
    fn is_crowded(&self, home: u8) -> bool
        requires { home < homes }
        ensures { IsTrue result ↔ IsCrowded (first_in self.now) home }
    {
        are_full(self.mark(home), self.mark(probing(home)))
            && are_full(self.mark(HOMES), self.mark(SECOND_STASH))
    }

    /// Whether no record of the two buckets of a home can be moved.
    fn has_none_to_move(&self, home: u8) -> bool
        requires { home < homes }
        ensures { IsTrue result ↔ NothingMoves (first_in self.now) home }
    {
        none_moves_on(self.mark(probing(home)), self.mark(next(home)))
            && none_moves_back(self.mark(home), self.mark(previous(home)))
    }

    /// Whether the segment has no room for a record with this hash: its home and its probing bucket and the stash are full, and no
    /// record of the two can be moved.
    pub fn has_no_room(&self, h: u64) -> bool
        ensures room { IsTrue result ↔ HasNoRoom (first_in self.now) (home_of h) }
        ensures is { result ≡ has_no_room (first_in self.now) (home_of h) }
    {
        self.is_crowded(home(h)) && self.has_none_to_move(home(h))
    }
}
