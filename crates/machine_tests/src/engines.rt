//! Attempts on the words of a table of one segment in which `1 insert 5 7` was done, and calls that split or repair a segment of an image of two
//! slots.
use crate::memory::Memory;
use crate::rows::Deeds;
use engine::{End, Engine};
use map_model::Call;
use op_core::{Ans, Want};
use row_file::{first_word, number_of};
use std::alloc::Global;
use std::test::Fail;

/// Attempts, and the end of the last one. `first CALL` is the first attempt of a call, and `next CALL` the one that follows the last. A reply is told
/// with its place, and with whether the attempt is to be made again.
#[derive(Drop)]
pub struct Attempts {
    engine: Option<Engine>,
    last: Option<End>,
}

impl Attempts {
    /// Before the first.
    pub fn none() -> Attempts {
        Attempts {
            engine: None,
            last: None,
        }
    }

    /// The end of the last one, where it has ended.
    fn end(&self) -> Option<End> {
        let Some(engine) = &self.engine else {
            return None;
        };
        match engine.next() {
            Want::Done => Some(engine.end()),
            _ => None,
        }
    }
}

/// The reply of an attempt that ended so, and whether it is to be made again.
fn reply_told(alloc: Global, end: End) -> Result<String, Fail> {
    let (reply, again) = (end.reply(), end.is_again());
    Ok(format!(in alloc; "{reply:?} {again}")?)
}

/// The call of these words.
fn call_of(text: &str) -> Result<Call, Fail> {
    let (word, rest) = first_word(text);
    let (key, value) = first_word(rest);
    let key = number_of(key)?;
    match (word, value) {
        ("get", "") => Ok(Call::Get(key)),
        ("remove", "") => Ok(Call::Remove(key)),
        ("insert", value) => Ok(Call::Insert(key, number_of(value)?)),
        ("update", value) => Ok(Call::Update(key, number_of(value)?)),
        _ => Err(Fail::new("no call")),
    }
}

impl Deeds for Attempts {
    fn begin(&mut self, memory: &mut Memory, case: &str) -> Result<(), Fail> {
        let (which, call) = first_word(case);
        let call = call_of(call)?;
        let mut engine = Engine::of(call, memory.site);
        if which == "next"
            && let Some(last) = self.last
        {
            engine.renew(call, memory.site, last);
        }
        self.engine = Some(engine);
        Ok(())
    }

    fn event(&mut self, memory: &mut Memory, _ans: Option<Ans>) -> Want {
        let Some(engine) = &mut self.engine else {
            return Want::Done;
        };
        let want = engine.next();
        match want {
            Want::Done => {}
            _ => engine.take(memory.answer(want)),
        }
        want
    }

    fn keeps(&mut self, _alloc: Global, _ans: Ans) -> Result<bool, Fail> {
        Ok(false)
    }

    fn told(&mut self, alloc: Global, what: &str) -> Result<String, Fail> {
        self.last = self.end();
        match self.last {
            Some(end) if what == "reply" => reply_told(alloc, end),
            Some(end) => Ok(format!(in alloc; "{end:?}")?),
            None => Err(Fail::new("no end")),
        }
    }
}

/// Attempts on that table: its home bucket is bucket 0, and it and the probing bucket have one record each.
pub const ROWS: &str = "\
table 65=257 96=2 97=1 98=5 100=5 101=7 128=2 129=1 2208=1
# Calls of one pair.
on -
do first get 5 -> Read(Found(7, 1)) in 74
reply Some((Found(7), 1)) false
on -
do first get 6 -> Read(Absent(1)) in 74
reply Some((Absent, 1)) false
on -
do first insert 5 8 -> Write(Replied(Exists, 1)) in 76
reply Some((Exists, 1)) false
on -
do first insert 6 8 -> Write(Replied(Done, 1)) in 85
reply Some((Done, 1)) false
on -
do first update 5 8 -> Write(Replied(Done, 1)) in 80
reply Some((Done, 1)) false
on -
do first remove 6 -> Write(Replied(Absent, 1)) in 76
reply Some((Absent, 1)) false
# The power is off.
on 2209=1
do first get 5 -> Read(Off) in 1
reply None false
do first remove 5 -> Write(Off) in 1
reply None false
# An insert into slot 2 takes one event more: the record's line is not that of the fingerprints, and is flushed too.
on 97=0x3 129=0x3 161=0x0 2145=0x0 2177=0x0
do first insert 6 8 -> Write(Replied(Done, 1)) in 86
reply Some((Done, 1)) false
# With home and probing bucket full a record of the probing bucket moves on to the next bucket: 33 events that lock and load it, 8 that store the
# copy, 3 that clear its source, 8 that store the new record, the draw, and 3 locks back.
on 97=0x3FFF 129=0x3FFF 161=0x0 2145=0x0 2177=0x0
do first insert 6 8 -> Move(Replied(Done, 1)) in 130
reply Some((Done, 1)) false
# Where that bucket is full too, the one before the home bucket is locked and loaded, and nothing moves. So the first stash bucket is locked and
# loaded: 8 events store the record there, 2 its note in the home bucket, then come the draw, and 5 locks back.
on 97=0x3FFF 129=0x3FFF 161=0x3FFF 2145=0x0 2177=0x0
do first insert 6 8 -> Stash(Replied(Done, 1)) in 189
reply Some((Done, 1)) false
# Where both stash buckets are full too, 6 locks are given back, and the segment is to be split. So it is where both were locked and loaded before,
# since records of the home bucket are counted in the stash: nothing is loaded twice. The next attempt encloses the segment: it takes the guard and
# 66 locks and loads the header and 66 times 31 words; then it loads the place, since the segment is as deep as the image allows, and gives the locks
# and the guard back.
on 97=0x3FFF 129=0x3FFF 161=0x3FFF 2145=0x3FFF 2177=0x3FFF
do first insert 6 8 -> Release(NeedSplit(0)) in 212
reply None false
do next insert 6 8 -> Enclose(Back(Replied(Deep, 1))) in 2248
reply Some((Deep, 1)) false
on 97=0x10000003FFF 129=0x3FFF 161=0x3FFF 2145=0x3FFF 2177=0x3FFF
do first insert 6 8 -> Release(NeedSplit(0)) in 212
reply None false
do next insert 6 8 -> Enclose(Back(Replied(Deep, 1))) in 2248
reply Some((Deep, 1)) false
# The events of an insert into a slot whose record is on a later line, where home and probing bucket have two records each.
on 97=3 129=3
begin first insert 6 8
Power
Load(8)
Load(32)
Load(65)
Load(96)
Exchange(96, 2, 3)
Load(128)
Exchange(128, 2, 3)
Load(8)
Load(32)
Load(65)
for 97 1 0 31: Load(#)
for 129 1 0 31: Load(#)
Load(2208)
Store(104, 6)
Store(105, 8)
Store(98, 393221)
Flush(12)
Flush(13)
Fence
Store(97, 7)
Flush(12)
Fence
Draw
Store(96, 4)
Store(128, 4)
Done
# What an insert does with the first stash bucket, where home bucket, probing bucket and the next one are full: it locks it, loads it, and stores the
# record and its note.
on 97=0x3FFF 129=0x3FFF 161=0x3FFF
begin first insert 6 8
for 0 140 0 1: ?
Load(2144)
Exchange(2144, 0, 1)
for 2145 1 0 31: Load(#)
Store(2148, 6)
Store(2149, 8)
Store(2146, 6)
Flush(268)
Fence
Store(2145, 1)
Flush(268)
Fence
Store(97, 268451839)
Store(99, 1688849860263936)
Draw
Store(96, 4)
Store(128, 4)
Store(2144, 2)
Store(160, 2)
Store(2112, 2)
Done
# Now an image of two slots: attempts that split its segment, and those that repair it.
site 2 1 1 1
# The segment in slot 0, of depth 0, has no room for key 6: its first two buckets, the one behind them and both stash buckets are full. One of its
# records is that of key 0x800000000000001C, whose hash begins with the bit 1. Slot 1 is free, and 30 changes are made. The first attempt finds that the
# segment is to be split, the second splits it, and the third finds room.
on 65=257 97=0x3FFF 98=0x1C 100=0x800000000000001C 101=60 129=0x3FFF 161=0x3FFF 2145=0x3FFF 2177=0x3FFF 4352=30
do first insert 6 8 -> Release(NeedSplit(0))
do next insert 6 8 -> Rest(Split)
reply None false
has 8=1 33=0 34=1 65=0x10101 2209=0x100010101 4354=0 4355=0 4356=0 4357=0
do next insert 6 8 -> Write(Replied(Done, 30))
do first get 6 -> Read(Found(8, 31))
reply Some((Found(8), 31)) false
do first get 0x800000000000001C -> Read(Found(60, 31))
reply Some((Found(60), 31)) false
# Where slot 1 is taken too, the table is full; where another caller has the guard of free slots, the attempt is to be made again.
on 65=257 97=0x3FFF 98=0x1C 100=0x800000000000001C 101=60 129=0x3FFF 161=0x3FFF 2145=0x3FFF 2177=0x3FFF 4352=30 2209=257
do first insert 6 8 -> Release(NeedSplit(0))
do next insert 6 8 -> Split(Some(Full(30)))
reply Some((Full, 30)) false
on 65=257 97=0x3FFF 98=0x1C 100=0x800000000000001C 101=60 129=0x3FFF 161=0x3FFF 2145=0x3FFF 2177=0x3FFF 4352=30 2209=257 4354=2
do first insert 6 8 -> Release(NeedSplit(0))
do next insert 6 8 -> Split(Some(Again(Busy { word: 4354, seen: 2 })))
reply None true
# Who waits for the guard of the directory ends where the power is off.
on 65=257 97=0x3FFF 98=0x1C 100=0x800000000000001C 101=60 129=0x3FFF 161=0x3FFF 2145=0x3FFF 2177=0x3FFF 4352=30 4355=2
do first insert 6 8 -> Release(NeedSplit(0))
set 4353=1
do next insert 6 8 -> Publish(Off)
reply None false
# The segment in slot 0 is stale: its header has version 2, and the image version 1. It has key 5 with the value 7 in its first bucket, whose lock is
# taken by who runs no more. The first attempt finds that it is stale, the second repairs it, and the third finds the key.
on 65=258 96=3 97=1 98=5 100=5 101=7 4352=30
do first get 5 -> Read(Stale(0, 2))
reply None false
do next get 5 -> Mend(Some(Repaired))
reply None false
do next get 5 -> Read(Found(7, 30))
reply Some((Found(7), 30)) false
# Where another caller has the guard of the segment, the attempt is to be made again: the call begins anew, and meets the segment again.
on 65=258 96=3 97=1 98=5 100=5 101=7 4352=30 4356=2
do first update 5 8 -> Write(Stale(0, 2))
do next update 5 8 -> Repair(Some(Again(Busy { word: 4356, seen: 2 })))
reply None true
do next update 5 8 -> Write(Stale(0, 2))
# The events of a repair: the guard is taken and the segment loaded, the lock is freed, the header gets the image's version, and the guard is given back.
on 65=258 96=3 97=1 98=5 100=5 101=7
do first get 5 -> Read(Stale(0, 2))
begin next get 5
Exchange(4356, 0, 1)
Load(65)
for 96 1 0 2112: Load(#)
Store(96, 2)
Flush(12)
Fence
Store(65, 257)
Flush(8)
Fence
Store(4356, 0)
Done
";
