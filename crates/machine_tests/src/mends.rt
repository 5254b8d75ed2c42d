//! Mendings of slot 0 of a small image: their events. Each is told by the header, with the slot of the ready side behind it.
use crate::memory::Memory;
use crate::redirects::guarded;
use crate::rows::Follows;
use mend_op::{MendEnd, MendOp};
use std::test::Fail;

impl Follows for MendOp {
    /// Whether it wants nothing more, and its end.
    type Stand = (bool, Option<MendEnd>);

    fn begun(memory: &mut Memory, case: &str) -> Result<MendOp, Fail> {
        Ok(MendOp::new(guarded(memory, case)?))
    }

    fn stands(&self) -> Self::Stand {
        (self.wants_nothing(), self.end())
    }
}

/// Mendings in an image of version 2. Word 65 is the header, and word 4356 the guard of the segment.
pub const ROWS: &str = "\
site 2 1 2 1
# Records leave and notes come. The segment is of depth 1, so that it covers the hashes whose top bit is 0. Bucket 0 has key 7, and counts a record
# of the stash that is not there; bucket 1 has key 7 a second time, and key 256; the lock of bucket 3 is taken; bucket 5 has a record of another
# segment; and the stash has key 9, of which nothing is noted.
on 97=0x10000000001 100=7 129=65541 132=256 136=7 192=5 257=1 260=0x8000000000000000 2145=1 2148=9
begin 65793
for 96 1 0 2112: Load(#)
stands (false, None)
Store(129, 1)
Store(192, 4)
Store(257, 0)
Flush(16)
Flush(24)
Flush(32)
Fence
Store(97, 268435457)
Store(99, 2533274790395904)
Store(65, 65794)
Flush(8)
Fence
stands (false, None)
Store(4356, 0)
Done
stands (true, Some(Repaired))
# A split with a ready side ends first. There are key 5 and a record of the 1-side, of depth 0; the lock of the first stash bucket is taken.
on 97=3 100=5 102=0x8000000000000000 2144=3
begin 513 1
for 96 1 0 2112: Load(#)
Store(97, 1)
Flush(12)
Fence
Store(65, 65793)
Flush(8)
Fence
Store(2144, 2)
Flush(268)
Fence
Store(65, 65794)
Flush(8)
Fence
stands (false, None)
Store(4356, 0)
Done
stands (true, Some(Repaired))
# Eight lines make a round: all words, 66 locks with a flush each, nine fences, the header with flush and fence, and the guard.
on 96=7 128=7 160=7 192=7 224=7 256=7 288=7 320=7 352=7 384=7 416=7 448=7 480=7 512=7 544=7 576=7 608=7 640=7 672=7 704=7 736=7 768=7 800=7 832=7 864=7 896=7 928=7 960=7 992=7 1024=7 1056=7 1088=7 1120=7 1152=7 1184=7 1216=7 1248=7 1280=7 1312=7 1344=7 1376=7 1408=7 1440=7 1472=7 1504=7 1536=7 1568=7 1600=7 1632=7 1664=7 1696=7 1728=7 1760=7 1792=7 1824=7 1856=7 1888=7 1920=7 1952=7 1984=7 2016=7 2048=7 2080=7 2112=7 2144=7 2176=7
do 257 -> (true, Some(Repaired)) in 2257
has 96=6 128=6 160=6 192=6 224=6 256=6 288=6 320=6 352=6 384=6 416=6 448=6 480=6 512=6 544=6 576=6 608=6 640=6 672=6 704=6 736=6 768=6 800=6 832=6 864=6 896=6 928=6 960=6 992=6 1024=6 1056=6 1088=6 1120=6 1152=6 1184=6 1216=6 1248=6 1280=6 1312=6 1344=6 1376=6 1408=6 1440=6 1472=6 1504=6 1536=6 1568=6 1600=6 1632=6 1664=6 1696=6 1728=6 1760=6 1792=6 1824=6 1856=6 1888=6 1920=6 1952=6 1984=6 2016=6 2048=6 2080=6 2112=6 2144=6 2176=6
has 65=258
# Behind other answers than those of the event that is wanted, the same is wanted, and it stands as before.
on -
begin 257
keeps Passed
keeps Lost 3
for 96 1 0 2112: Load(#)
stands (false, None)
keeps Value 1
keeps Won
Store(65, 258)
";
