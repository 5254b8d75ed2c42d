//! A close of the smallest image, event for event: it has 2208 words, which are 276 lines.
use crate::memory::Memory;
use crate::rows::Follows;
use op_core::{Machine, Want};
use restart_op::{CloseOp, CloseStep, Closed};
use std::test::Fail;

impl Follows for CloseOp {
    /// What it leaves.
    type Stand = Option<Closed>;

    fn begun(memory: &mut Memory, case: &str) -> Result<CloseOp, Fail> {
        let mut op = CloseOp::new(memory.site.geometry);
        if case == "load" {
            op.step = CloseStep::Load;
        }
        Ok(op)
    }

    fn stands(&self) -> Self::Stand {
        match self.want() {
            Want::Done => Some(self.end()),
            _ => None,
        }
    }
}

/// Closes, of which `load` is one that has all lines behind it.
pub const ROWS: &str = "\
# All its events: 34 rounds of eight lines, and one of four; and the marker is set in the state word.
begin all
for 0 8 1 1: Flush(#) = Passed
Fence = Passed
for 8 8 1 1: Flush(#) = Passed
Fence = Passed
for 16 8 1 1: Flush(#) = Passed
Fence = Passed
for 24 8 1 1: Flush(#) = Passed
Fence = Passed
for 32 8 1 1: Flush(#) = Passed
Fence = Passed
for 40 8 1 1: Flush(#) = Passed
Fence = Passed
for 48 8 1 1: Flush(#) = Passed
Fence = Passed
for 56 8 1 1: Flush(#) = Passed
Fence = Passed
for 64 8 1 1: Flush(#) = Passed
Fence = Passed
for 72 8 1 1: Flush(#) = Passed
Fence = Passed
for 80 8 1 1: Flush(#) = Passed
Fence = Passed
for 88 8 1 1: Flush(#) = Passed
Fence = Passed
for 96 8 1 1: Flush(#) = Passed
Fence = Passed
for 104 8 1 1: Flush(#) = Passed
Fence = Passed
for 112 8 1 1: Flush(#) = Passed
Fence = Passed
for 120 8 1 1: Flush(#) = Passed
Fence = Passed
for 128 8 1 1: Flush(#) = Passed
Fence = Passed
for 136 8 1 1: Flush(#) = Passed
Fence = Passed
for 144 8 1 1: Flush(#) = Passed
Fence = Passed
for 152 8 1 1: Flush(#) = Passed
Fence = Passed
for 160 8 1 1: Flush(#) = Passed
Fence = Passed
for 168 8 1 1: Flush(#) = Passed
Fence = Passed
for 176 8 1 1: Flush(#) = Passed
Fence = Passed
for 184 8 1 1: Flush(#) = Passed
Fence = Passed
for 192 8 1 1: Flush(#) = Passed
Fence = Passed
for 200 8 1 1: Flush(#) = Passed
Fence = Passed
for 208 8 1 1: Flush(#) = Passed
Fence = Passed
for 216 8 1 1: Flush(#) = Passed
Fence = Passed
for 224 8 1 1: Flush(#) = Passed
Fence = Passed
for 232 8 1 1: Flush(#) = Passed
Fence = Passed
for 240 8 1 1: Flush(#) = Passed
Fence = Passed
for 248 8 1 1: Flush(#) = Passed
Fence = Passed
for 256 8 1 1: Flush(#) = Passed
Fence = Passed
for 264 8 1 1: Flush(#) = Passed
Fence = Passed
for 272 4 1 1: Flush(#) = Passed
Fence = Passed
Load(16) = Value 3
Store(16, 259) = Passed
Flush(2) = Passed
Fence = Passed
Done
stands Some(Closed)
# Behind answers of another kind the same is wanted; and a marker that is set stays so.
begin all
keeps Won
Flush(0) = Passed
begin load
keeps Passed
Load(16) = Value 0x1FE
Store(16, 510) = Passed
";
