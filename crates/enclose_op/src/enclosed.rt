//! What is held on to from one machine of a split to the next: a whole segment, with its guard, all its locks and all its words.

ghost use Rattle.std.specs.Prelude.{◌≡◌};
ghost use Rattle.segment_head.specs.SplitHeads.{capped_side_depth, one_pattern_field};
ghost use Rattle.whole_segment.specs.Records.{HasWords};

use image_layout::{BUCKETS, WORDS_OF_BUCKETS};
use map_model::Change;
use segment_head::split;
use whole_segment::Loaded;
use world::Site;

/// A segment that is enclosed: its guard and all its locks are held, and all words of its buckets are loaded.
#[derive(Clone, Copy)]
pub struct Enclosed {
    /// Where it runs.
    pub site: Site,
    /// The change that found no room.
    pub change: Change,
    /// The hash of its key.
    pub hash: u64,
    /// The slot of the segment.
    pub segment: u64,
    /// Its header.
    pub head: u64,
    /// The free value that each lock word had.
    pub locks: [u64; BUCKETS as usize],
    /// The words of its buckets, numbered as `word_among_buckets` says; the lock words are left out, and are 0.
    pub buckets: [u64; WORDS_OF_BUCKETS as usize],
}

impl Enclosed {
    /// What is kept of its records: words 1 and 3 of each bucket, and the keys.
    pub fn loaded(&self) -> Loaded
        ensures { HasWords self.now.buckets result }
    {
        Loaded::of_words(&self.buckets)
    }

    /// The depth of the side that it gets where it is split: one more than its own, and 64 at the most.
    pub fn capped_side_depth(&self) -> u8
        ensures { result ≡ capped_side_depth self.now.head }
    {
        split::capped_side_depth(self.head)
    }

    /// The pattern of that side: its own with a 1 behind it, the lower 32 bits.
    pub fn one_pattern_field(&self) -> u32
        ensures { result ≡ one_pattern_field self.now.head }
    {
        split::one_pattern_field(self.head)
    }
}
