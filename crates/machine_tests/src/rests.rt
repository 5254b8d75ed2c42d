//! The rest of a split of a segment with three records: one went to the side, and one stands in the stash.
use crate::memory::Memory;
use crate::rows::Follows;
use map_model::{Change, Effect};
use rest_op::{RestEnd, RestOp};
use std::test::Fail;

impl Follows for RestOp {
    /// Its end, which is `Off` before.
    type Stand = RestEnd;

    fn begun(memory: &mut Memory, _case: &str) -> Result<RestOp, Fail> {
        let effect = Effect::Insert(1);
        Ok(RestOp::new(memory.enclosed(Change { key: 9, effect })))
    }

    fn stands(&self) -> Self::Stand {
        self.end()
    }
}

/// The rest of one: two records of home 0, of which the first has a hash with top bit 1, and one of home 0 in the first stash bucket. The lock of the
/// last bucket had the value 8.
pub const ROWS: &str = "\
site 2 1 1 1
table 65=257 97=3 100=0x8000000000000000 102=5 2145=1 2148=7 2176=8
begin -
stands Off
Store(97, 2) = Passed
Flush(12) = Passed
Fence = Passed
Store(65, 65793) = Passed
Flush(8) = Passed
Fence = Passed
Store(97, 268435458) = Passed
Store(99, 1970324836974592) = Passed
for 96 65 32 1: Store(#, 2) = Passed
Store(2176, 10) = Passed
# Behind another answer the same is wanted, and it stands as before.
keeps Won
Store(4356, 0) = Won
stands Off
Store(4356, 0) = Passed
Done
stands Split
";
