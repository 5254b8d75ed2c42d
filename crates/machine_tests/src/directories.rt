//! The events of a publishing where the directory is deep enough, and of one that waits and doubles it, in an image of two slots: of what
//! is copied of the segment in slot 0, of depth 0, to a side in slot 1.
use crate::memory::Memory;
use crate::rows::Follows;
use directory_op::{DirectoryOp, DirectoryStep};
use image_layout::WORDS_OF_BUCKETS;
use map_model::{Change, Effect};
use split_op::Copied;
use std::test::Fail;

impl Follows for DirectoryOp {
    /// Where it stands.
    type Stand = DirectoryStep;

    fn begun(memory: &mut Memory, _case: &str) -> Result<DirectoryOp, Fail> {
        let effect = Effect::Insert(7);
        Ok(DirectoryOp::new(Copied {
            whole: memory.enclosed(Change { key: 5, effect }),
            side: 1,
            words: [0; WORDS_OF_BUCKETS as usize],
        }))
    }

    fn stands(&self) -> Self::Stand {
        self.step
    }
}

/// Publishings. The headers: of the segment, 513, splitting with depth 0; of its side, 0x100010301, new with depth 1 and pattern 1, and
/// 4295033089 once it is live.
pub const ROWS: &str = "\
site 2 1 1 3
table 65=257
# A side is published where the directory is deep enough; first another caller has its guard.
begin -
Load(65) = Value 513
Load(2209) = Value 0x100010301
Exchange(4355, 0, 3) = Lost 2
Power = Value 0
Exchange(4355, 0, 3) = Won
Load(8) = Value 1
Store(2209, 4295033089) = Passed
Flush(276) = Passed
Fence = Passed
Store(34, 1) = Passed
Flush(4) = Passed
Fence = Passed
Store(4355, 0) = Passed
Done
stands Ended(Published)
# The directory is doubled.
begin -
Load(65) = Value 513
Load(2209) = Value 0x100010301
Exchange(4355, 0, 3) = Won
Load(8) = Value 0
Load(32) = Value 0
Store(33, 0) = Passed
Store(34, 0) = Passed
Flush(4) = Passed
Fence = Passed
Store(8, 1) = Passed
Flush(1) = Passed
Fence = Passed
Store(2209, 4295033089) = Passed
Flush(276) = Passed
# It ends where the power is off.
begin -
? = Value 513
? = Passed
? = Value 0x100010301
? = Lost 2
? = Value 1
Done
stands Ended(Off)
";
