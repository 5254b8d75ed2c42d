//! What is held of a segment is given back: the locks of its buckets, ascending, and then its guard.

ghost use Rattle.std.specs.Prelude.{◌≡◌, ◌≤◌};
ghost use Rattle.image_layout.specs.Places.{most_words};
ghost use Rattle.enclose_op.specs.Giving.{guard_of, lock_of, free_value, give_from, give_wanted, given};

use crate::enclosed::Enclosed;
use bucket_meta::words::given_back;
use image_layout::{BUCKETS, FREE_GUARD};
use op_core::Want;
use way::{bucket_word, slot_guard};

/// What is given back next.
#[derive(Clone, Copy)]
pub enum Give {
    /// The lock of a bucket, and then those up to another's.
    Lock {
        /// The number of the bucket.
        bucket: u8,
        /// The locks before this bucket are held.
        to: u8,
    },
    /// The guard of the segment.
    Guard,
}

/// What is given back next where the locks from one bucket to before another are held.
pub fn give_from(bucket: u8, to: u8) -> Give
    ensures { result ≡ give_from bucket to }
{
    if bucket < to && bucket < BUCKETS {
        Give::Lock { bucket, to }
    } else {
        Give::Guard
    }
}

/// What is given back after that; none where all is.
pub fn given(give: Give) -> Option<Give>
    ensures { result ≡ given give }
{
    match give {
        Give::Lock { bucket, to } if bucket < BUCKETS => Some(give_from(bucket + 1, to)),
        Give::Lock { .. } => Some(Give::Guard),
        Give::Guard => None,
    }
}

impl Enclosed {
    /// The word of the segment's guard; that of the root where there is no such slot.
    pub fn guard(&self) -> u64
        ensures { result ≡ guard_of self.now }
    {
        slot_guard(&self.site.geometry, self.segment)
    }

    /// The lock word of a bucket.
    pub fn lock(&self, bucket: u8) -> u64
        ensures is { result ≡ lock_of self.now bucket }
        ensures most { result ≤ most_words }
    {
        bucket_word(&self.site.geometry, self.segment, bucket % BUCKETS)
    }

    /// The free value that the lock word of a bucket had.
    pub fn free(&self, bucket: u8) -> u64
        ensures { result ≡ free_value self.now bucket }
    {
        self.locks[usize::from(bucket % BUCKETS)]
    }

    /// The store that gives it back: of a lock with its next version and not locked, of the guard with nobody's number.
    pub fn give(&self, give: Give) -> Want
        ensures { result ≡ give_wanted self.now give }
    {
        match give {
            Give::Lock { bucket, .. } => {
                Want::Store(self.lock(bucket), given_back(self.free(bucket)))
            }
            Give::Guard => Want::Store(self.guard(), FREE_GUARD),
        }
    }
}
