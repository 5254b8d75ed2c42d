//! Inserts that found home and probing bucket full, on the words of an image with one segment and the identity as its hash. Each is told
//! by its key and the lock word of its home bucket.
use crate::memory::Memory;
use crate::rows::{Follows, numbers};
use map_model::{Change, Effect};
use move_op::{MoveEnd, MoveOp};
use op_core::{Machine, Want};
use phase::{Buckets, Held};
use std::test::Fail;

impl Follows for MoveOp {
    /// Its end, and where it hands on the locks that it keeps, the change, and the words of the next bucket and of the one before.
    type Stand = (
        Option<MoveEnd>,
        Option<(Held, Change, [u64; 32], [u64; 32])>,
    );

    fn begun(memory: &mut Memory, case: &str) -> Result<MoveOp, Fail> {
        let [key, home, _, _] = numbers(case)?;
        let probing = home.wrapping_add(32);
        memory.set(home, 1);
        memory.set(probing, 1);
        let held = Held {
            home: Some(0),
            probing: Some(0),
            ..Held::none()
        };
        let buckets = Buckets {
            home: memory.bucket(home),
            probing: memory.bucket(probing),
            ..Buckets::none()
        };
        let effect = Effect::Insert(7);
        Ok(MoveOp::new(memory.kept(Change { key, effect }, held, buckets)))
    }

    fn stands(&self) -> Self::Stand {
        let end = match self.want() {
            Want::Done => Some(self.end()),
            _ => None,
        };
        if !self.hands_on() {
            return (end, None);
        }
        let kept = self.kept();
        let (next, previous) = (kept.buckets.next, kept.buckets.previous);
        (end, Some((kept.held, kept.change, next, previous)))
    }
}

/// Displacements.
pub const ROWS: &str = "\
# Key 256 in bucket 1, and then keys 0 to 26: home 0 has 0 and the odd ones, its probing bucket the others as members.
table 97=16383 98=0xD0B090705030100 99=0x19171513110F 101=1000 102=1 103=1001 104=3 105=1003 106=5 107=1005 108=7 109=1007 110=9 111=1009
table 112=11 113=1011 114=13 115=1013 116=15 117=1015 118=17 119=1017 120=19 121=1019 122=21 123=1021 124=23 125=1023 126=25 127=1025
table 129=0xFFFBFFF 130=0xE0C0A0806040200 131=0x1A1816141210 132=256 133=1256 134=2 135=1002 136=4 137=1004 138=6 139=1006 140=8 141=1008
table 142=10 143=1010 144=12 145=1012 146=14 147=1014 148=16 149=1016 150=18 151=1018 152=20 153=1020 154=22 155=1022 156=24 157=1024 158=26
table 159=1026
# A record moves on to the next bucket, and there into a slot of another line.
on -
do 27 96 -> (Some(Replied(Done, 0)), None) in 56
on 161=0x1FF
do 27 96 -> (Some(Replied(Done, 0)), None) in 57
has 161=0x8003FF 182=256 183=1256
# All its events.
on -
begin 27 96
Load(160)
Exchange(160, 0, 1)
for 161 1 0 31: Load(#)
Store(164, 256)
Store(165, 1256)
Store(162, 0)
Flush(20)
Fence
Store(161, 16385)
Flush(20)
Fence
Store(129, 268419070)
Flush(16)
Fence
Store(132, 27)
Store(133, 7)
Store(130, 1012195045828461083)
Flush(16)
Fence
Store(129, 268435455)
Flush(16)
Fence
Draw
Store(96, 2)
Store(128, 2)
Store(160, 2)
Done
has 164=256 161=16385 132=27 2208=1
# Key 0 in bucket 0, key 1 in bucket 1 as a member, and then keys 256 to 282: home 1 has the odd ones, its probing bucket the others as members.
# A record moves back to the bucket before.
site 1 0 1 1
table 97=1 101=1000 129=32767 130=0xD0B090705030101 131=0x19171513110F 132=1 133=1001 134=257 135=1257 136=259 137=1259 138=261 139=1261
table 140=263 141=1263 142=265 143=1265 144=267 145=1267 146=269 147=1269 148=271 149=1271 150=273 151=1273 152=275 153=1275 154=277
table 155=1277 156=279 157=1279 158=281 159=1281 161=0xFFFFFFF 162=0xE0C0A0806040200 163=0x1A1816141210 164=256 165=1256 166=258 167=1258
table 168=260 169=1260 170=262 171=1262 172=264 173=1264 174=266 175=1266 176=268 177=1268 178=270 179=1270 180=272 181=1272 182=274
table 183=1274 184=276 185=1276 186=278 187=1278 188=280 189=1280 190=282 191=1282
on -
begin 283 128
Load(192)
Exchange(192, 0, 1)
for 193 1 0 31: Load(#)
Load(96)
Exchange(96, 0, 1)
for 97 1 0 31: Load(#)
Store(102, 1)
Store(103, 1001)
Store(98, 256)
Flush(12)
Fence
Store(97, 3)
Flush(12)
Fence
Store(129, 16382)
Flush(16)
Fence
Store(132, 283)
Store(133, 7)
Store(130, 939854872990384411)
Flush(16)
Fence
Store(129, 16383)
Flush(16)
Fence
Draw
Store(128, 2)
Store(160, 2)
Store(192, 2)
Store(96, 2)
Done
has 97=3 102=1 129=16383 132=283
# Where the bucket before is full, none can move: four locks are kept, with the words of their buckets.
on 97=0x3FFF
do 284 128 -> (Some(NoMove), Some((Held { home: Some(0), probing: Some(0), first: None, second: None, next: Some(0), previous: Some(0) }, Change { key: 284, effect: Insert(7) }, [0, 0, 0, 0, 0, 0, 0, 0, 0, 0, 0, 0, 0, 0, 0, 0, 0, 0, 0, 0, 0, 0, 0, 0, 0, 0, 0, 0, 0, 0, 0, 0], [0, 16383, 0, 0, 0, 1000, 0, 0, 0, 0, 0, 0, 0, 0, 0, 0, 0, 0, 0, 0, 0, 0, 0, 0, 0, 0, 0, 0, 0, 0, 0, 0]))) in 66
has 96=1 128=1 160=1 192=1
# Keys 256 to 283 in home 1 and its probing bucket, where none can move; and where the next bucket is full, too.
site 1 0 1 1
table 129=16383 130=0xF0D0B0907050301 131=0x1B1917151311 132=257 133=1257 134=259 135=1259 136=261 137=1261 138=263 139=1263 140=265
table 141=1265 142=267 143=1267 144=269 145=1269 146=271 147=1271 148=273 149=1273 150=275 151=1275 152=277 153=1277 154=279 155=1279
table 156=281 157=1281 158=283 159=1283 161=0xFFFFFFF 162=0xE0C0A0806040200 163=0x1A1816141210 164=256 165=1256 166=258 167=1258 168=260
table 169=1260 170=262 171=1262 172=264 173=1264 174=266 175=1266 176=268 177=1268 178=270 179=1270 180=272 181=1272 182=274 183=1274
table 184=276 185=1276 186=278 187=1278 188=280 189=1280 190=282 191=1282
on -
do 284 128 -> (Some(NoMove), Some((Held { home: Some(0), probing: Some(0), first: None, second: None, next: Some(0), previous: Some(0) }, Change { key: 284, effect: Insert(7) }, [0, 0, 0, 0, 0, 0, 0, 0, 0, 0, 0, 0, 0, 0, 0, 0, 0, 0, 0, 0, 0, 0, 0, 0, 0, 0, 0, 0, 0, 0, 0, 0], [0, 0, 0, 0, 0, 0, 0, 0, 0, 0, 0, 0, 0, 0, 0, 0, 0, 0, 0, 0, 0, 0, 0, 0, 0, 0, 0, 0, 0, 0, 0, 0]))) in 66
has 96=1 128=1 160=1 192=1
on 193=0x3FFF
do 284 128 -> (Some(NoMove), Some((Held { home: Some(0), probing: Some(0), first: None, second: None, next: Some(0), previous: Some(0) }, Change { key: 284, effect: Insert(7) }, [0, 16383, 0, 0, 0, 0, 0, 0, 0, 0, 0, 0, 0, 0, 0, 0, 0, 0, 0, 0, 0, 0, 0, 0, 0, 0, 0, 0, 0, 0, 0, 0], [0, 0, 0, 0, 0, 0, 0, 0, 0, 0, 0, 0, 0, 0, 0, 0, 0, 0, 0, 0, 0, 0, 0, 0, 0, 0, 0, 0, 0, 0, 0, 0]))) in 66
has 96=1 128=1 160=1 192=1
# The lock of the next bucket, and that of the bucket before, is another's: at first; and it is taken, or has moved on, after it was looked at. Those
# before it are given back. And it has its last version.
on 192=3
do 284 128 -> (Some(Again(Busy { word: 192, seen: 3 })), None)
has 192=3
on -
other 1 192 3
do 284 128 -> (Some(Again(Busy { word: 192, seen: 3 })), None)
has 192=3 128=2 160=2
on -
other 1 192 4
do 284 128 -> (Some(Again(Moved { word: 192, before: 0, after: 4 })), None)
has 192=4 128=2 160=2
on 192=0xFFFFFFFFFFFFFFFE 2208=6
do 284 128 -> (Some(Replied(Spent, 6)), None)
has 192=0xFFFFFFFFFFFFFFFE 128=2 160=2
on 96=3
do 284 128 -> (Some(Again(Busy { word: 96, seen: 3 })), None)
has 96=3
on -
other 34 96 3
do 284 128 -> (Some(Again(Busy { word: 96, seen: 3 })), None)
has 96=3 128=2 160=2 192=2
on -
other 34 96 4
do 284 128 -> (Some(Again(Moved { word: 96, before: 0, after: 4 })), None)
has 96=4 128=2 160=2 192=2
on 96=0xFFFFFFFFFFFFFFFE 2208=6
do 284 128 -> (Some(Replied(Spent, 6)), None)
has 96=0xFFFFFFFFFFFFFFFE 128=2 160=2
";
