//! Records that come to the stash of a new image with one segment, on words that another caller may change. Each is told by its key.
use crate::memory::Memory;
use crate::rows::Follows;
use bucket_meta::words::{MARK_PLACE, REST_PLACE, must_visit};
use hash_word::finger;
use map_model::{Change, Effect};
use op_core::{Machine, Want};
use phase::{Buckets, Held, Kept, Role};
use row_file::number_of;
use stash_op::{StashEnd, StashOp};
use std::test::Fail;

/// Takes a lock, and gives the free value that its word had.
fn locked(memory: &mut Memory, lock: u64) -> Option<u64> {
    let free = memory.word(lock);
    memory.set(lock, free | 1);
    Some(free)
}

/// What an insert of this key keeps that found no slot and nothing to move.
fn kept_in(memory: &mut Memory, key: u64) -> Kept {
    let mut buckets = Buckets::none();
    buckets.put(Role::Home, memory.bucket(96));
    buckets.put(Role::Probing, memory.bucket(128));
    let mut held = Held {
        home: locked(memory, 96),
        probing: locked(memory, 128),
        ..Held::none()
    };
    let (h, p) = (buckets.home, buckets.probing);
    if must_visit(
        h[MARK_PLACE],
        h[REST_PLACE],
        p[MARK_PLACE],
        p[REST_PLACE],
        finger(key),
        0,
    ) {
        buckets.put(Role::First, memory.bucket(2144));
        held.first = locked(memory, 2144);
    }
    if must_visit(
        h[MARK_PLACE],
        h[REST_PLACE],
        p[MARK_PLACE],
        p[REST_PLACE],
        finger(key),
        1,
    ) {
        buckets.put(Role::Second, memory.bucket(2176));
        held.second = locked(memory, 2176);
    }
    let effect = Effect::Insert(key.wrapping_add(100));
    memory.kept(Change { key, effect }, held, buckets)
}

impl Follows for StashOp {
    /// Its end, and where it hands on the locks that it keeps, with the metadata word of the second stash bucket.
    type Stand = (Option<StashEnd>, Option<(Held, u64)>);

    fn begun(memory: &mut Memory, case: &str) -> Result<StashOp, Fail> {
        Ok(StashOp::new(kept_in(memory, number_of(case)?)))
    }

    fn stands(&self) -> Self::Stand {
        let end = match self.want() {
            Want::Done => Some(self.end()),
            _ => None,
        };
        if !self.hands_on() {
            return (end, None);
        }
        let kept = self.kept();
        (end, Some((kept.held, kept.buckets.second[MARK_PLACE])))
    }
}

/// Records that come to the stash behind two full buckets: bucket 0 is full with the even keys 0 to 26, and bucket 1 with the odd keys 1 to 27,
/// all of home 0.
pub const ROWS: &str = "\
table 65=257 97=0x3FFF 98=0xE0C0A0806040200 99=0x1A1816141210 129=0xFFFFFFF 130=0xF0D0B0907050301 131=0x1B1917151311
# Into a bucket with a free note.
on -
do 28 -> (Some(Replied(Done, 0)), None) in 47
# The stash fills up, and then the segment is to be split: both stash buckets are locked, and handed on.
on -
do 28 -> (Some(Replied(Done, 0)), None)
do 29 -> (Some(Replied(Done, 1)), None)
do 30 -> (Some(Replied(Done, 2)), None)
do 31 -> (Some(Replied(Done, 3)), None)
do 32 -> (Some(Replied(Done, 4)), None)
do 33 -> (Some(Replied(Done, 5)), None)
do 34 -> (Some(Replied(Done, 6)), None)
do 35 -> (Some(Replied(Done, 7)), None)
do 36 -> (Some(Replied(Done, 8)), None)
do 37 -> (Some(Replied(Done, 9)), None)
do 38 -> (Some(Replied(Done, 10)), None)
do 39 -> (Some(Replied(Done, 11)), None)
do 40 -> (Some(Replied(Done, 12)), None)
do 41 -> (Some(Replied(Done, 13)), None)
do 42 -> (Some(Replied(Done, 14)), None)
do 43 -> (Some(Replied(Done, 15)), None)
do 44 -> (Some(Replied(Done, 16)), None)
do 45 -> (Some(Replied(Done, 17)), None)
do 46 -> (Some(Replied(Done, 18)), None)
do 47 -> (Some(Replied(Done, 19)), None)
do 48 -> (Some(Replied(Done, 20)), None)
do 49 -> (Some(Replied(Done, 21)), None)
do 50 -> (Some(Replied(Done, 22)), None)
do 51 -> (Some(Replied(Done, 23)), None)
do 52 -> (Some(Replied(Done, 24)), None)
do 53 -> (Some(Replied(Done, 25)), None)
do 54 -> (Some(Replied(Done, 26)), None)
do 55 -> (Some(Replied(Done, 27)), None)
has 97=0x3E3D400F0003FFF 98=0xE0C0A0806040200 99=0x1D1C1A1816141210 129=0x464400FFFFFFFFF 130=0xF0D0B0907050301 131=0x21201B1917151311
has 2145=0x3FFF 2177=0x3FFF 2148=28 2180=42 2207=155
do 56 -> (Some(NeedSplit(0)), Some((Held { home: Some(56), probing: Some(56), first: Some(56), second: Some(38), next: None, previous: None }, 16383))) in 0
# Each stash bucket's lock is another's: at first; and it is taken, or has moved on, after it was looked at. Those before it are given back. And it has
# its last version.
on 2145=0x0 2144=3
do 28 -> (Some(Again(Busy { word: 2144, seen: 3 })), None)
on 2145=0x0
other 1 2144 3
do 28 -> (Some(Again(Busy { word: 2144, seen: 3 })), None)
has 2144=3 96=2 128=2
on 2145=0x0
other 1 2144 4
do 28 -> (Some(Again(Moved { word: 2144, before: 0, after: 4 })), None)
has 2144=4 96=2 128=2
on 2145=0x0 2144=0xFFFFFFFFFFFFFFFE 2208=6
do 28 -> (Some(Replied(Spent, 6)), None)
has 2144=0xFFFFFFFFFFFFFFFE 96=2
on 2145=0x3FFF 2176=3
do 28 -> (Some(Again(Busy { word: 2176, seen: 3 })), None)
on 2145=0x3FFF
other 34 2176 3
do 28 -> (Some(Again(Busy { word: 2176, seen: 3 })), None)
has 2176=3 96=2 128=2 2144=2
on 2145=0x3FFF
other 34 2176 4
do 28 -> (Some(Again(Moved { word: 2176, before: 0, after: 4 })), None)
has 2176=4 96=2 128=2 2144=2
on 2145=0x3FFF 2176=0xFFFFFFFFFFFFFFFE 2208=6
do 28 -> (Some(Replied(Spent, 6)), None)
has 2176=0xFFFFFFFFFFFFFFFE 96=2
# The events of an insert with a note in the home bucket, in words 1 and 3 of it.
on -
begin 28
Load(2144)
Exchange(2144, 0, 1)
for 2145 1 0 31: Load(#)
Store(2148, 28)
Store(2149, 128)
Store(2146, 28)
Flush(268)
Fence
Store(2145, 1)
Flush(268)
Fence
Store(97, 268451839)
Store(99, 7909990099849744)
Draw
Store(96, 2)
Store(128, 2)
Store(2144, 2)
Done
# The same behind one other record; behind two, with the note in word 1 alone, where the fingerprint stands there; behind four, with the note
# in the probing bucket, and its membership bit; and behind eight, by the count of the home bucket, raised from 0 to 1.
on -
do 28 -> (Some(Replied(Done, 0)), None)
begin 29
Load(2144)
Exchange(2144, 2, 3)
for 2145 1 0 31: Load(#)
Store(2150, 29)
Store(2151, 129)
Store(2146, 7452)
Flush(268)
Fence
Store(2145, 3)
Flush(268)
Fence
Store(97, 805322751)
Store(99, 2097580217199759888)
Draw
Store(96, 4)
Store(128, 4)
Store(2144, 4)
Done
on -
do 28 -> (Some(Replied(Done, 0)), None)
do 29 -> (Some(Replied(Done, 1)), None)
begin 30
Load(2144)
Exchange(2144, 4, 5)
for 2145 1 0 31: Load(#)
Store(2152, 30)
Store(2153, 130)
Store(2146, 1973532)
Flush(268)
Flush(269)
Fence
Store(2145, 7)
Flush(268)
Fence
Store(97, 1055533041729535)
Draw
Store(96, 6)
Store(128, 6)
Store(2144, 6)
Done
on -
do 28 -> (Some(Replied(Done, 0)), None)
do 29 -> (Some(Replied(Done, 1)), None)
do 30 -> (Some(Replied(Done, 2)), None)
do 31 -> (Some(Replied(Done, 3)), None)
begin 32
Load(2144)
Exchange(2144, 8, 9)
for 2145 1 0 31: Load(#)
Store(2156, 32)
Store(2157, 132)
Store(2146, 137961020700)
Flush(268)
Flush(269)
Fence
Store(2145, 31)
Flush(268)
Fence
Store(129, 4831838207)
Store(131, 9036993830130449)
Draw
Store(96, 10)
Store(128, 10)
Store(2144, 10)
Done
on -
do 28 -> (Some(Replied(Done, 0)), None)
do 29 -> (Some(Replied(Done, 1)), None)
do 30 -> (Some(Replied(Done, 2)), None)
do 31 -> (Some(Replied(Done, 3)), None)
do 32 -> (Some(Replied(Done, 4)), None)
do 33 -> (Some(Replied(Done, 5)), None)
do 34 -> (Some(Replied(Done, 6)), None)
do 35 -> (Some(Replied(Done, 7)), None)
begin 36
Load(2144)
Exchange(2144, 16, 17)
for 2145 1 0 31: Load(#)
Store(2164, 36)
Store(2165, 136)
Store(2147, 36)
Flush(268)
Flush(270)
Fence
Store(2145, 511)
Flush(268)
Fence
Store(97, 280279811597811711)
Draw
Store(96, 18)
Store(128, 18)
Store(2144, 18)
Done
# A full stash is handed on, with both of its locks.
on 2145=0x3FFF 2177=0x3FFF 2176=8
do 28 -> (Some(NeedSplit(0)), Some((Held { home: Some(0), probing: Some(0), first: Some(0), second: Some(8), next: None, previous: None }, 16383))) in 66
has 96=1 128=1 2144=1 2176=9
";
