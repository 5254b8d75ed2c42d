// The outside in memory, which tells all that it holds: for tests, and for sessions that touch no file.
ghost use Rattle.std.specs.Prelude.{◌≡◌, ◌↔◌, IsTrue};
ghost use Rattle.outside.specs.Causes.{count_after};
ghost use Rattle.outside.specs.Memory.{IsToFail};

use crate::parts::count_one;

pub mod fuse;
pub mod sink;
pub mod source;
pub mod store;

pub use fuse::{Fuse, Fuses};
pub use sink::MemSink;
pub use source::{MemSource, SureSource};
pub use store::MemStore;

// Counts a call, and says whether it is one of those that are to fail.
fn is_failing(calls: &mut u64, fails: &[u64]) -> bool
    ensures counted { calls.new ≡ count_after calls.old }
    ensures listed { IsTrue result ↔ IsToFail fails.now calls.old }
{
    count_one(calls);
    fails.contains(calls)
}
