//! Repairs of slot 0 of an image of two slots, of version 2, up to where another machine goes on: their events, what is handed on, and their
//! ends.
use crate::memory::Memory;
use crate::rows::Follows;
use repair_op::{RepairEnd, RepairOp};
use std::test::Fail;

impl Follows for RepairOp {
    /// Whether it wants nothing more, its end, and where it hands on the header of the segment and its ready side.
    type Stand = (bool, Option<RepairEnd>, Option<(u64, Option<u64>)>);

    fn begun(memory: &mut Memory, _case: &str) -> Result<RepairOp, Fail> {
        Ok(RepairOp::new(memory.site, 0))
    }

    fn stands(&self) -> Self::Stand {
        let on = if self.hands_on() {
            Some((self.guarded.head, self.guarded.side))
        } else {
            None
        };
        (self.wants_nothing(), self.end(), on)
    }
}

/// Repairs: of a segment whose header is 257 where it is normal, 513 where it is splitting. The headers of slots 0 and 1 are words 65 and 2209, the link
/// of slot 0 is 66, the guard of free slots 4354, and that of the segment 4356.
pub const ROWS: &str = "\
site 2 2 2 1
# A normal segment is handed on.
begin -
Exchange(4356, 0, 1) = Won
Load(65) = Value 257
stands (true, Some(Guarded), Some((257, None)))
# A segment of the image's version is given back.
begin -
Exchange(4356, 0, 1) = Won
Load(65) = Value 258
stands (false, None, None)
Store(4356, 0) = Passed
stands (true, Some(Current), None)
# The guard is another's.
begin -
Exchange(4356, 0, 1) = Lost 7
stands (true, Some(Again(Busy { word: 4356, seen: 7 })), None)
# Ready sides are handed on: one deeper; and two deeper, with a 0 behind the pattern of the 1-side.
begin -
Exchange(4356, 0, 1) = Won
Load(65) = Value 513
Load(66) = Value 2
Load(2209) = Value 0x100010102
stands (true, Some(Guarded), Some((513, Some(1))))
begin -
Exchange(4356, 0, 1) = Won
Load(65) = Value 513
Load(66) = Value 2
Load(2209) = Value 0x200020202
stands (true, Some(Guarded), Some((513, Some(1))))
# A split that links nothing is taken back.
begin -
Exchange(4356, 0, 1) = Won
Load(65) = Value 513
Load(66) = Value 0
Store(65, 257) = Passed
Flush(8) = Passed
Fence = Passed
stands (true, Some(Guarded), Some((257, None)))
# Other sides are left: a free slot, a new side and a live one of the 0-side, a live one with a 1 behind the pattern of the 1-side, one of the
# segment's own region, and a new side that is two deeper.
begin -
Exchange(4356, 0, 1) = Won
Load(65) = Value 513
Load(66) = Value 2
Load(2209) = Value 0x100010001
Store(65, 257) = Passed
Flush(8) = Passed
Fence = Passed
stands (true, Some(Guarded), Some((257, None)))
begin -
Exchange(4356, 0, 1) = Won
Load(65) = Value 513
Load(66) = Value 2
Load(2209) = Value 0x10301
Store(65, 257) = Passed
Flush(8) = Passed
Fence = Passed
stands (true, Some(Guarded), Some((257, None)))
begin -
Exchange(4356, 0, 1) = Won
Load(65) = Value 513
Load(66) = Value 2
Load(2209) = Value 0x10101
Store(65, 257) = Passed
Flush(8) = Passed
Fence = Passed
stands (true, Some(Guarded), Some((257, None)))
begin -
Exchange(4356, 0, 1) = Won
Load(65) = Value 513
Load(66) = Value 2
Load(2209) = Value 0x300020101
Store(65, 257) = Passed
Flush(8) = Passed
Fence = Passed
stands (true, Some(Guarded), Some((257, None)))
begin -
Exchange(4356, 0, 1) = Won
Load(65) = Value 513
Load(66) = Value 2
Load(2209) = Value 0x101
Store(65, 257) = Passed
Flush(8) = Passed
Fence = Passed
stands (true, Some(Guarded), Some((257, None)))
begin -
Exchange(4356, 0, 1) = Won
Load(65) = Value 513
Load(66) = Value 2
Load(2209) = Value 0x200020301
Store(65, 257) = Passed
Flush(8) = Passed
Fence = Passed
stands (true, Some(Guarded), Some((257, None)))
# A new side becomes free.
begin -
Exchange(4356, 0, 1) = Won
Load(65) = Value 513
Load(66) = Value 2
Load(2209) = Value 0x100010301
Exchange(4354, 0, 1) = Won
Store(2209, 4295032833) = Passed
Flush(276) = Passed
Fence = Passed
Store(4354, 0) = Passed
Store(65, 257) = Passed
Flush(8) = Passed
Fence = Passed
stands (true, Some(Guarded), Some((257, None)))
# The guard of free slots is another's.
begin -
Exchange(4356, 0, 1) = Won
Load(65) = Value 513
Load(66) = Value 2
Load(2209) = Value 0x100010301
Exchange(4354, 0, 1) = Lost 3
Store(4356, 0) = Passed
stands (true, Some(Again(Busy { word: 4354, seen: 3 })), None)
# Behind other answers than those of the event that is wanted, the same is wanted, and it stands as before.
begin -
keeps Passed
keeps Value 1
Exchange(4356, 0, 1) = Won
keeps Passed
Load(65) = Value 257
";
