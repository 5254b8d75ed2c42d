//! The events of a split in an image of two slots, up to where it hands on, and of two that end before. Slot 0 has a segment of depth 0, and
//! slot 1 is free. The words of the side were reckoned by the plain model of a split.
use crate::memory::Memory;
use crate::rows::Follows;
use bucket_meta::words::REST_PLACE;
use map_model::{Change, Effect};
use split_op::{SplitEnd, SplitOp};
use std::test::Fail;

impl Follows for SplitOp {
    /// Its end, the slot of the side, and two of the words that are copied there.
    type Stand = (Option<SplitEnd>, u64, [u64; 2]);

    fn begun(memory: &mut Memory, _case: &str) -> Result<SplitOp, Fail> {
        let effect = Effect::Insert(90);
        Ok(SplitOp::new(memory.enclosed(Change { key: 9, effect })))
    }

    fn stands(&self) -> Self::Stand {
        let words = [self.copied.words[REST_PLACE], self.copied.words[2051]];
        (self.end(), self.copied.side, words)
    }
}

/// Splits. Keys 0x800000000000001C and 0x800000000000001D have hashes that begin with the bit 1, with home bucket 0 and fingerprints 28 and 29.
/// Bucket 0 has a record of the 0-side in slot 0 and one of the 1-side in slot 1, and notes that name both stash buckets; stash bucket 0 has a
/// record of the 1-side in slot 0, a fingerprint in slot 1, which is free, and bits above its fingerprints. The headers: of the segment, 257, and 513
/// while it is split, of version 1 and depth 0; of its side, 4295033601, new, of version 1, depth 1 and pattern 1. Word 4354 is the guard of free
/// slots, 4356 that of the segment, and 4352 the commit counter.
pub const ROWS: &str = "\
site 2 1 1 3
table 65=257 97=0x1030000003 98=7173 99=0xB0A000000000000 100=5 101=50 102=0x800000000000001C 103=60 2145=1 2146=30493
table 2147=0x5A5A000000000000 2148=0x800000000000001D 2149=70
# A segment is split up to the copies: slot 1 is found free, in which the lock of bucket 2 is taken, and is emptied, its link and eight or seven
# buckets in a round; the link, the header and that of the side are stored; and what goes to the side is copied.
begin -
Exchange(4354, 0, 3) = Won
Load(65) = Value 257
Load(2209) = Value 4
for 2240 2 32 1: Load(#) = Value 4
Load(2304) = Value 7
for 2336 63 32 1: Load(#) = Value 4
Store(2210, 0) = Passed
for 2241 2 32 3: Store(#, 0) = Passed
Store(2304, 6) = Passed
for 2305 5 32 3: Store(#, 0) = Passed
Flush(276) = Passed
for 280 7 4 1: Flush(#) = Passed
Fence = Passed
for 2465 8 32 3: Store(#, 0) = Passed
for 308 8 4 1: Flush(#) = Passed
Fence = Passed
for 2721 8 32 3: Store(#, 0) = Passed
for 340 8 4 1: Flush(#) = Passed
Fence = Passed
for 2977 8 32 3: Store(#, 0) = Passed
for 372 8 4 1: Flush(#) = Passed
Fence = Passed
for 3233 8 32 3: Store(#, 0) = Passed
for 404 8 4 1: Flush(#) = Passed
Fence = Passed
for 3489 8 32 3: Store(#, 0) = Passed
for 436 8 4 1: Flush(#) = Passed
Fence = Passed
for 3745 8 32 3: Store(#, 0) = Passed
for 468 8 4 1: Flush(#) = Passed
Fence = Passed
for 4001 8 32 3: Store(#, 0) = Passed
for 500 8 4 1: Flush(#) = Passed
Fence = Passed
for 4257 3 32 3: Store(#, 0) = Passed
for 532 3 4 1: Flush(#) = Passed
Fence = Passed
Store(66, 2) = Passed
Flush(8) = Passed
Fence = Passed
Store(65, 513) = Passed
Flush(8) = Passed
Fence = Passed
Store(2209, 4295033601) = Passed
Flush(276) = Passed
Fence = Passed
Store(4354, 0) = Passed
stands (None, 1, [8162774324609024, 0])
Store(2241, 268435458) = Passed
stands (None, 1, [8162774324609024, 0])
Store(2242, 7168) = Passed
stands (None, 1, [8162774324609024, 0])
Store(2243, 8162774324609024) = Passed
stands (None, 1, [8162774324609024, 0])
Store(2246, 9223372036854775836) = Passed
stands (None, 1, [8162774324609024, 0])
Store(2247, 60) = Passed
stands (None, 1, [8162774324609024, 0])
Store(4289, 1) = Passed
stands (None, 1, [8162774324609024, 0])
Store(4290, 29) = Passed
stands (None, 1, [8162774324609024, 0])
Store(4292, 9223372036854775837) = Passed
stands (None, 1, [8162774324609024, 0])
Store(4293, 70) = Passed
Flush(280) = Passed
Flush(536) = Passed
Fence = Passed
Done
stands (Some(Copied), 1, [8162774324609024, 0])
# A table without a free slot is full, and all is given back.
begin -
Exchange(4354, 0, 3) = Won
Load(65) = Value 257
Load(2209) = Value 4295033601
Load(4352) = Value 30
Store(4354, 0) = Passed
stands (None, 0, [8162774324609024, 0])
for 96 66 32 1: Store(#, 2) = Passed
Store(4356, 0) = Passed
Done
stands (Some(Full(30)), 0, [8162774324609024, 0])
# The guard of free slots is another's.
begin -
Exchange(4354, 0, 3) = Lost 2
for 96 66 32 1: Store(#, 2) = Passed
Store(4356, 0) = Passed
Done
stands (Some(Again(Busy { word: 4354, seen: 2 })), 0, [8162774324609024, 0])
# Behind other answers than those of an exchange the same is wanted, and it stands as before.
begin -
keeps Passed
keeps Value 1
Exchange(4354, 0, 3) = Won
";
