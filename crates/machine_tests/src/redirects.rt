//! Stale segments in slot 0, with a ready side in slot 1 or without one: the events by which entries are redirected, what is handed on, and the
//! ends. Each is told by its header, with the slot of the side behind it.
use crate::memory::Memory;
use crate::rows::Follows;
use redirect_op::{RedirectEnd, RedirectOp};
use repair_op::Guarded;
use row_file::{first_word, number_of};
use std::test::Fail;

/// The stale segment of slot 0 with this header, and the slot of its side behind it.
pub fn guarded(memory: &Memory, case: &str) -> Result<Guarded, Fail> {
    let (head, side) = first_word(case);
    Ok(Guarded {
        site: memory.site,
        segment: 0,
        head: number_of(head)?,
        side: if side.is_empty() {
            None
        } else {
            Some(number_of(side)?)
        },
    })
}

impl Follows for RedirectOp {
    /// Whether it wants nothing more, whether it hands on, and its end.
    type Stand = (bool, bool, Option<RedirectEnd>);

    fn begun(memory: &mut Memory, case: &str) -> Result<RedirectOp, Fail> {
        Ok(RedirectOp::new(guarded(memory, case)?))
    }

    fn stands(&self) -> Self::Stand {
        (self.wants_nothing(), self.hands_on(), self.end())
    }
}

/// Redirectings in images of two slots and of three: the header of a segment of version 1 and depth 0 is 257 where it is normal, and 513 where it is
/// splitting.
pub const ROWS: &str = "\
site 2 1 2 1
# A segment without a side is handed on at once.
begin 257
stands (true, true, Some(Guarded))
# The entry of the stale segment names the side.
begin 513 1
stands (false, false, None)
Exchange(4355, 0, 1) = Won
Load(8) = Value 1
Load(34) = Value 0
Load(65) = Value 513
Store(34, 1) = Passed
Flush(4) = Passed
Fence = Passed
Store(4355, 0) = Passed
stands (true, true, Some(Guarded))
# The entry of a deeper segment is left alone.
site 3 2 2 1
begin 513 1
Exchange(6499, 0, 1) = Won
Load(8) = Value 2
Load(37) = Value 0
Load(65) = Value 513
Store(37, 1) = Passed
Load(38) = Value 2
Load(4353) = Value 0x300020102
Flush(4) = Passed
Fence = Passed
Store(6499, 0) = Passed
stands (true, true, Some(Guarded))
# Entries that lead into the side are fenced alone.
site 2 1 2 1
begin 513 1
Exchange(4355, 0, 1) = Won
Load(8) = Value 1
Load(34) = Value 1
Load(2209) = Value 0x100010102
Fence = Passed
Store(4355, 0) = Passed
stands (true, true, Some(Guarded))
# The guard of the directory is another's.
begin 513 1
Exchange(4355, 0, 1) = Lost 9
Store(4356, 0) = Passed
stands (true, false, Some(Again(Busy { word: 4355, seen: 9 })))
# The 128 entries of the 1-side, of an area of 256, lie on 17 lines, and are stored in three rounds.
site 2 8 2 1
begin 513 1
Exchange(4835, 0, 1) = Won
Load(8) = Value 8
for 415 57 1 1: Load(#) = Value 0; Load(545) = Value 513; Store(#, 1) = Passed
Load(472) = Value 0
Load(545) = Value 513
for 51 8 1 1: Flush(#) = Passed
Fence = Passed
Store(472, 1) = Passed
for 473 63 1 1: Load(#) = Value 0; Load(545) = Value 513; Store(#, 1) = Passed
Load(536) = Value 0
Load(545) = Value 513
for 59 8 1 1: Flush(#) = Passed
Fence = Passed
Store(536, 1) = Passed
for 537 6 1 1: Load(#) = Value 0; Load(545) = Value 513; Store(#, 1) = Passed
Flush(67) = Passed
Fence = Passed
Store(4835, 0) = Passed
stands (true, true, Some(Guarded))
# Behind other answers than those of the event that is wanted, the same is wanted, and it stands as before.
site 2 1 2 1
begin 513 1
keeps Passed
keeps Value 1
Exchange(4355, 0, 1) = Won
keeps Passed
stands (false, false, None)
Load(8) = Value 1
";
