//! Enclosings of slot 0 of a small image, for an insert of key 28, whose home bucket is the first, on words that another caller may
//! change: their events, what is kept, and their ends.
use crate::memory::Memory;
use crate::rows::Follows;
use enclose_op::{EncloseEnd, EncloseOp};
use map_model::{Change, Effect};
use op_core::{Machine, Want};
use std::test::Fail;

impl Follows for EncloseOp {
    /// Its end, and where it hands on the hash, the slot of the segment, the header, the free values of two locks, and four words of the buckets.
    type Stand = (Option<EncloseEnd>, Option<[u64; 9]>);

    fn begun(memory: &mut Memory, _case: &str) -> Result<EncloseOp, Fail> {
        let effect = Effect::Insert(128);
        Ok(EncloseOp::new(memory.site, Change { key: 28, effect }, 0))
    }

    fn stands(&self) -> Self::Stand {
        let end = match self.want() {
            Want::Done => Some(self.end()),
            _ => None,
        };
        if !self.hands_on() {
            return (end, None);
        }
        let whole = &self.enclosed;
        let words = [
            whole.hash,
            whole.segment,
            whole.head,
            whole.locks[2],
            whole.locks[3],
            whole.buckets[1],
            whole.buckets[33],
            whole.buckets[64],
            whole.buckets[2111],
        ];
        (end, Some(words))
    }
}

/// Enclosings. Bucket 0, bucket 1 and both stash buckets are full, and no record of the first two can be moved; the lock word of bucket 3 had two
/// versions before. Words 4352 and 4356 are the commit counter and the guard of the segment.
pub const ROWS: &str = "\
site 2 1 1 1
table 65=257 97=0x3FFF 129=0xFFFFFFF 192=4 2145=0x3FFF 2177=0x3FFF 2207=155 4352=30
# A segment as deep as the image allows: the counter is loaded, and all is given back.
on 65=65793
do enclose -> (Some(Back(Replied(Deep, 30))), None) in 2248
locks 0
has 4356=0
has 96=2 192=6 2176=2
# There may be room: the header is of another version, of a free slot, and of a segment that covers the other half of the hashes.
on 65=258
do enclose -> (Some(Back(Room)), None) in 201
locks 0
has 4356=0
on 65=1
do enclose -> (Some(Back(Room)), None) in 201
locks 0
has 4356=0
on 65=0x100010101
do enclose -> (Some(Back(Room)), None) in 201
locks 0
has 4356=0
# There is room: a free slot of a stash bucket, and one of the home bucket.
on 2177=0x1FFF
do enclose -> (Some(Back(Room)), None) in 2247
locks 0
has 4356=0
on 97=0x3FFE
do enclose -> (Some(Back(Room)), None) in 2247
locks 0
has 4356=0
# The guard is another's.
on 4356=7
do enclose -> (Some(Back(Again(Busy { word: 4356, seen: 7 }))), None) in 1
locks 0
has 4356=7
# A lock is another's: it is taken at first; and it is taken, or has moved on, after it was looked at.
on 160=5
do enclose -> (Some(Back(Again(Busy { word: 160, seen: 5 }))), None) in 9
locks 1
has 4356=0
has 96=2 128=2
on -
other 6 160 5
do enclose -> (Some(Back(Again(Busy { word: 160, seen: 5 }))), None) in 10
on -
other 6 160 4
do enclose -> (Some(Back(Again(Moved { word: 160, before: 0, after: 4 }))), None) in 10
locks 0
has 4356=0
has 96=2 128=2
# A lock has its last version.
on 160=0xFFFFFFFFFFFFFFFE
do enclose -> (Some(Back(Replied(Spent, 30))), None) in 10
locks 0
has 4356=0
# All events by which the segment is enclosed: its guard and all locks are taken, and its header and all other words of the buckets loaded. It hands on
# nothing before.
on -
begin enclose
Exchange(4356, 0, 1)
for 96 3 32 1: Load(#); Exchange(#, 0, 1)
Load(192)
Exchange(192, 4, 5)
for 224 62 32 1: Load(#); Exchange(#, 0, 1)
Load(65)
stands (None, None)
for 97 66 32 31: Load(#)
Done
stands (Some(Whole), Some([28, 0, 257, 0, 4, 16383, 268435455, 0, 155]))
locks 66
has 4356=1
# The events by which all is given back, where the header is another one.
on 65=258
begin enclose
Exchange(4356, 0, 1)
for 96 3 32 1: Load(#); Exchange(#, 0, 1)
Load(192)
Exchange(192, 4, 5)
for 224 62 32 1: Load(#); Exchange(#, 0, 1)
Load(65)
for 96 3 32 1: Store(#, 2)
Store(192, 6)
for 224 62 32 1: Store(#, 2)
Store(4356, 0)
Done
# Behind other answers than those of an exchange the same is wanted, and at the end behind any.
on -
begin enclose
keeps Passed
keeps Value 1
stands (None, None)
Exchange(4356, 0, 1) = Lost 3
keeps Won
stands (Some(Back(Again(Busy { word: 4356, seen: 3 }))), None)
";
