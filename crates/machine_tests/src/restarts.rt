//! Restarts of images of one slot and of nine, event for event. Each is told by the number of slots. Bit 8 of the state word is the marker.
use crate::memory::Memory;
use crate::rows::Follows;
use image_layout::{Geometry, IDENTITY_KIND};
use op_core::{Machine, Want};
use restart_op::{RestartOp, Started};
use row_file::number_of;
use std::test::Fail;

impl Follows for RestartOp {
    /// What it leaves.
    type Stand = Option<Started>;

    fn begun(_memory: &mut Memory, case: &str) -> Result<RestartOp, Fail> {
        Ok(RestartOp::new(Geometry::new(number_of(case)?, 0, IDENTITY_KIND)?))
    }

    fn stands(&self) -> Self::Stand {
        match self.want() {
            Want::Done => Some(self.end()),
            _ => None,
        }
    }
}

/// Restarts, each on an image with so many slots for segments.
pub const ROWS: &str = "\
# Clean ones keep their version, and unclean ones get the next.
begin 1
Load(16) = Value 259
Store(16, 3) = Passed
Flush(2) = Passed
Fence = Passed
stands Some(Started { version: 3, swept: false })
begin 1
Load(16) = Value 511
Store(16, 255) = Passed
Flush(2) = Passed
Fence = Passed
stands Some(Started { version: 255, swept: false })
begin 1
Load(16) = Value 3
Store(16, 4) = Passed
Flush(2) = Passed
Fence = Passed
stands Some(Started { version: 4, swept: false })
begin 1
Load(16) = Value 254
Store(16, 255) = Passed
Flush(2) = Passed
Fence = Passed
stands Some(Started { version: 255, swept: false })
begin 1
Load(16) = Value 65027
Store(16, 4) = Passed
Flush(2) = Passed
Fence = Passed
stands Some(Started { version: 4, swept: false })
# A sweep of one slot.
begin 1
? = Value 255
Load(65) = Value 511
Store(65, 256) = Passed
Flush(8) = Passed
Fence = Passed
Store(16, 1) = Passed
Flush(2) = Passed
Fence = Passed
stands Some(Started { version: 1, swept: true })
# A sweep of nine slots takes two rounds. Their headers stand in words 65, 2209 and so on: 2144 words and 268 lines apart.
begin 9
? = Value 255
Load(65) = Value 0xFF000001FF000200
Store(65, 18374686488244781568) = Passed
Load(2209) = Value 0xFF000001FF000201
Store(2209, 18374686488244781568) = Passed
Load(4353) = Value 0xFF000001FF000202
Store(4353, 18374686488244781568) = Passed
Load(6497) = Value 0xFF000001FF000203
Store(6497, 18374686488244781568) = Passed
Load(8641) = Value 0xFF000001FF000204
Store(8641, 18374686488244781568) = Passed
Load(10785) = Value 0xFF000001FF000205
Store(10785, 18374686488244781568) = Passed
Load(12929) = Value 0xFF000001FF000206
Store(12929, 18374686488244781568) = Passed
Load(15073) = Value 0xFF000001FF000207
Store(15073, 18374686488244781568) = Passed
Flush(8) = Passed
Flush(276) = Passed
Flush(544) = Passed
Flush(812) = Passed
Flush(1080) = Passed
Flush(1348) = Passed
Flush(1616) = Passed
Flush(1884) = Passed
Fence = Passed
Load(17217) = Value 0xFF000001FF000208
Store(17217, 18374686488244781568) = Passed
Flush(2152) = Passed
Fence = Passed
Store(16, 1) = Passed
Flush(2) = Passed
Fence = Passed
stands Some(Started { version: 1, swept: true })
# Behind answers of another kind the same is wanted, and it stands as before.
begin 1
keeps Passed
Load(16) = Value 511
keeps Won
Store(16, 255) = Passed
Flush(2) = Passed
Fence = Passed
stands Some(Started { version: 255, swept: false })
";
