//! Changes of key 5 on the words of a new image with one segment, and on such words that another caller changes. Each is told by its call.
use crate::memory::Memory;
use crate::rows::Follows;
use bucket_meta::words::MARK_PLACE;
use map_model::{Change, Effect};
use op_core::{Machine, Want};
use phase::Held;
use row_file::{first_word, number_of};
use std::test::Fail;
use write_op::{WriteEnd, WriteOp};

impl Follows for WriteOp {
    /// Its end, and where it hands on the locks that it keeps, with the slot of the segment, the header, and the metadata words of home and
    /// probing bucket.
    type Stand = (Option<WriteEnd>, Option<(Held, [u64; 4])>);

    fn begun(memory: &mut Memory, case: &str) -> Result<WriteOp, Fail> {
        let effect = match first_word(case) {
            ("insert", value) => Effect::Insert(number_of(value)?),
            ("update", value) => Effect::Update(number_of(value)?),
            _ => Effect::Remove,
        };
        Ok(WriteOp::new(Change { key: 5, effect }, memory.site))
    }

    fn stands(&self) -> Self::Stand {
        let end = match self.want() {
            Want::Done => Some(self.end()),
            _ => None,
        };
        if !self.hands_on() {
            return (end, None);
        }
        let kept = self.kept();
        let (home, probing) = (
            kept.buckets.home[MARK_PLACE],
            kept.buckets.probing[MARK_PLACE],
        );
        (
            end,
            Some((kept.held, [kept.segment, kept.head, home, probing])),
        )
    }
}

/// Changes on a new image of one segment.
pub const ROWS: &str = "\
table 65=257
# An insert goes to the less full of its buckets, and to the home bucket where both are as full.
on 97=0 129=0
do insert 7 -> (Some(Replied(Done, 0)), None)
has 100=5 101=7 97=1
on 97=1 129=1
do insert 7 -> (Some(Replied(Done, 0)), None)
has 102=5 103=7 97=3
on 97=0 129=1
do insert 7 -> (Some(Replied(Done, 0)), None)
has 100=5 101=7 97=1
on 97=1 129=0
do insert 7 -> (Some(Replied(Done, 0)), None)
has 132=5 133=7 129=0x4001
on 97=5 129=1
do insert 7 -> (Some(Replied(Done, 0)), None)
has 134=5 135=7 129=0x8003
on 97=0x3FFF 129=0
do insert 7 -> (Some(Replied(Done, 0)), None)
has 132=5 133=7 129=0x4001
on 97=0x3FFF 129=0x1FFF
do insert 7 -> (Some(Replied(Done, 0)), None)
has 158=5 159=7 129=0x8003FFF
on 97=0x1FFF 129=0x3FFF
do insert 7 -> (Some(Replied(Done, 0)), None)
has 126=5 127=7 97=0x3FFF
# Into a new image; into a slot whose record is on a second line; and where both buckets are full, so that the locks are kept.
on -
do insert 7 -> (Some(Replied(Done, 0)), None) in 85
on 97=3 129=3
do insert 7 -> (Some(Replied(Done, 0)), None) in 86
has 97=7 104=5 105=7 98=0x50000
on 97=0x3FFF 129=0x3FFF
do insert 7 -> (Some(NoSlot), Some((Held { home: Some(0), probing: Some(0), first: None, second: None, next: None, previous: None }, [0, 257, 16383, 16383]))) in 74
has 96=1 128=1
# Each of the four locks is another's: at first; and it is taken, or has moved on, after it was looked at. Those before it are given back.
on 97=0x10000000000 96=3
do insert 7 -> (Some(Again(Busy { word: 96, seen: 3 })), None)
on 97=0x10000000000
other 5 96 3
do insert 7 -> (Some(Again(Busy { word: 96, seen: 3 })), None)
has 96=3 128=0 2144=0 2176=0
on 97=0x10000000000
other 5 96 4
do insert 7 -> (Some(Again(Moved { word: 96, before: 0, after: 4 })), None)
has 96=4 128=0 2144=0 2176=0
on 97=0x10000000000 128=3
do insert 7 -> (Some(Again(Busy { word: 128, seen: 3 })), None)
on 97=0x10000000000
other 7 128 3
do insert 7 -> (Some(Again(Busy { word: 128, seen: 3 })), None)
has 128=3 96=2 2144=0 2176=0
on 97=0x10000000000
other 7 128 4
do insert 7 -> (Some(Again(Moved { word: 128, before: 0, after: 4 })), None)
has 128=4 96=2 2144=0 2176=0
on 97=0x10000000000 2144=3
do insert 7 -> (Some(Again(Busy { word: 2144, seen: 3 })), None)
on 97=0x10000000000
other 74 2144 3
do insert 7 -> (Some(Again(Busy { word: 2144, seen: 3 })), None)
has 2144=3 96=2 128=2 2176=0
on 97=0x10000000000
other 74 2144 4
do insert 7 -> (Some(Again(Moved { word: 2144, before: 0, after: 4 })), None)
has 2144=4 96=2 128=2 2176=0
on 97=0x10000000000 2176=3
do insert 7 -> (Some(Again(Busy { word: 2176, seen: 3 })), None)
on 97=0x10000000000
other 107 2176 3
do insert 7 -> (Some(Again(Busy { word: 2176, seen: 3 })), None)
has 2176=3 96=2 128=2 2144=2
on 97=0x10000000000
other 107 2176 4
do insert 7 -> (Some(Again(Moved { word: 2176, before: 0, after: 4 })), None)
has 2176=4 96=2 128=2 2144=2
# Each of the four locks has its last version; and the counter is 2^63.
on 97=0x10000000000 96=0xFFFFFFFFFFFFFFFE 2208=6
do insert 7 -> (Some(Replied(Spent, 6)), None)
has 96=0xFFFFFFFFFFFFFFFE
on 97=0x10000000000 128=0xFFFFFFFFFFFFFFFE 2208=6
do insert 7 -> (Some(Replied(Spent, 6)), None)
has 128=0xFFFFFFFFFFFFFFFE
on 97=0x10000000000 2144=0xFFFFFFFFFFFFFFFE 2208=6
do insert 7 -> (Some(Replied(Spent, 6)), None)
has 2144=0xFFFFFFFFFFFFFFFE
on 97=0x10000000000 2176=0xFFFFFFFFFFFFFFFE 2208=6
do insert 7 -> (Some(Replied(Spent, 6)), None)
has 2176=0xFFFFFFFFFFFFFFFE
on 2208=0x8000000000000000
do insert 7 -> (Some(Replied(Spent, 9223372036854775808)), None) in 76
has 96=2
# The way is amiss; the segment is stale; the power is off; and the way has changed once the locks are taken.
on 8=1
do remove -> (Some(Again(Moved { word: 8, before: 1, after: 1 })), None)
on 32=1
do remove -> (Some(Again(Moved { word: 32, before: 1, after: 1 })), None)
on 65=1
do remove -> (Some(Again(Moved { word: 65, before: 1, after: 1 })), None)
on 65=258
do remove -> (Some(Stale(0, 2)), None) in 4
on 2209=1
do remove -> (Some(Off), None) in 1
on -
other 8 8 3
do remove -> (Some(Again(Moved { word: 8, before: 0, after: 3 })), None)
has 96=2 128=2
on -
other 9 32 3
do remove -> (Some(Again(Moved { word: 32, before: 0, after: 3 })), None)
has 96=2 128=2
on -
other 10 65 3
do remove -> (Some(Again(Moved { word: 65, before: 257, after: 3 })), None)
has 96=2 128=2
# The header is one of a segment that is being split, and one of the other half of all hashes.
on 65=513
do remove -> (Some(Again(Moved { word: 65, before: 513, after: 513 })), None) in 13
has 96=2 128=2
on 65=0x100010101
do remove -> (Some(Again(Moved { word: 65, before: 4295033089, after: 4295033089 })), None) in 13
has 96=2 128=2
# Changes one after another.
on -
do update 9 -> (Some(Replied(Absent, 0)), None) in 76
do insert 7 -> (Some(Replied(Done, 0)), None) in 85
do insert 8 -> (Some(Replied(Exists, 1)), None) in 76
do update 9 -> (Some(Replied(Done, 1)), None) in 80
do remove -> (Some(Replied(Done, 2)), None) in 80
do remove -> (Some(Replied(Absent, 3)), None) in 76
has 96=12 97=0 98=5 99=0 100=5 101=9 128=12 2208=3
# A record is found in the home bucket, in the probing bucket, and in the stash: by a note of the home bucket, by one of the probing bucket,
# by one that has its fingerprint in the metadata word, and by the count. What notes it goes with it.
on 97=1 98=5 100=5 101=7
do insert 8 -> (Some(Replied(Exists, 0)), None) in 76
has 96=2
do update 9 -> (Some(Replied(Done, 0)), None) in 80
has 101=9
do remove -> (Some(Replied(Done, 1)), None) in 80
has 97=0 99=0
do remove -> (Some(Replied(Absent, 2)), None) in 76
on 129=0x4001 130=5 132=5 133=7
do insert 8 -> (Some(Replied(Exists, 0)), None) in 76
has 128=2
do update 9 -> (Some(Replied(Done, 0)), None) in 80
has 133=9
do remove -> (Some(Replied(Done, 1)), None) in 80
has 129=0 97=0 99=0
do remove -> (Some(Replied(Absent, 2)), None) in 76
on 97=0x10000000 99=0x5000000000000 2145=1 2146=5 2148=5 2149=7
do insert 8 -> (Some(Replied(Exists, 0)), None) in 110
has 2144=2
do update 9 -> (Some(Replied(Done, 0)), None) in 114
has 2149=9
do remove -> (Some(Replied(Done, 1)), None) in 116
has 2145=0 97=0 99=0
do remove -> (Some(Replied(Absent, 2)), None) in 76
on 129=0x1110000000 131=0x5000000000000 2177=1 2178=5 2180=5 2181=7
do insert 8 -> (Some(Replied(Exists, 0)), None) in 110
has 2176=2
do update 9 -> (Some(Replied(Done, 0)), None) in 114
has 2181=9
do remove -> (Some(Replied(Done, 1)), None) in 116
has 2177=0 129=0 131=0
do remove -> (Some(Replied(Absent, 2)), None) in 76
on 97=0xA04040000000 2177=1 2178=5 2180=5 2181=7
do insert 8 -> (Some(Replied(Exists, 0)), None) in 110
has 2176=2
do update 9 -> (Some(Replied(Done, 0)), None) in 114
has 2181=9
do remove -> (Some(Replied(Done, 1)), None) in 115
has 2177=0 97=0 99=0
do remove -> (Some(Replied(Absent, 2)), None) in 76
on 97=0x10000000000 2177=1 2178=5 2180=5 2181=7
do insert 8 -> (Some(Replied(Exists, 0)), None) in 144
has 2176=2
do update 9 -> (Some(Replied(Done, 0)), None) in 148
has 2181=9
do remove -> (Some(Replied(Done, 1)), None) in 149
has 2177=0 97=0 99=0
do remove -> (Some(Replied(Absent, 2)), None) in 76
# So where a record of the home bucket stands in the stash without a note: all four locks are taken, and kept.
on 97=0x10000003FFF 129=0x3FFF 2144=4 2208=6
do insert 7 -> (Some(NoSlot), Some((Held { home: Some(0), probing: Some(0), first: Some(4), second: Some(0), next: None, previous: None }, [0, 257, 1099511644159, 16383])))
has 96=1 128=1 2144=5 2176=1
# The events of an insert into the home bucket, and into the probing bucket.
on -
begin insert 7
Power
Load(8)
Load(32)
Load(65)
Load(96)
Exchange(96, 0, 1)
Load(128)
Exchange(128, 0, 1)
Load(8)
Load(32)
Load(65)
for 97 1 0 31: Load(#)
for 129 1 0 31: Load(#)
Load(2208)
Store(100, 5)
Store(101, 7)
Store(98, 5)
Flush(12)
Fence
Store(97, 1)
Flush(12)
Fence
Draw
Store(96, 2)
Store(128, 2)
Done
on 97=1
begin insert 7
Power
Load(8)
Load(32)
Load(65)
Load(96)
Exchange(96, 0, 1)
Load(128)
Exchange(128, 0, 1)
Load(8)
Load(32)
Load(65)
for 97 1 0 31: Load(#)
for 129 1 0 31: Load(#)
Load(2208)
Store(132, 5)
Store(133, 7)
Store(130, 5)
Flush(16)
Fence
Store(129, 16385)
Flush(16)
Fence
Draw
Store(96, 2)
Store(128, 2)
Done
";
