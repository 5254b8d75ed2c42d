// A store, a source and a sink. Each tells what it holds or nothing, and counts its faults; a store counts its writes.
ghost use Rattle.std.specs.Prelude.{◌≡◌, ℕ, ◌+◌, ◌<◌, ◌≤◌, List, Option, length, OnOk, IfOk, Bool, true, false, OnErr};
ghost use Rattle.std.specs.Io.{ReadsAtMost, WritesAtMost};
ghost use Rattle.std.specs.Io.KnownBytes.{ReadConsumes, WriteAppends};
ghost use Rattle.outside.specs.Causes.{HasCause, Rose, TakesSome, count_after};
ghost use Rattle.outside.specs.Storing.{HasReadCause, IsFront, Holds, most_writes};

use std::alloc::{AllocError, Global};
use std::error::Error;
use std::fmt;

/// The sentence that is printed where the outside failed.
const FAILED: &str = "the outside failed";

/// A call on the outside failed, and its count of faults rose.
#[derive(Clone, Copy, Debug, PartialEq, Eq)]
pub struct Failed;

impl fmt::Display for Failed {
    ghost use Rattle.std.specs.Prelude.{Some};
    ghost use Rattle.outside.specs.Storing.{failed_text};

    ghost output = { λ _. Some failed_text };

    fn fmt<W: fmt::Write>(&self, f: &mut fmt::Formatter<W>) -> fmt::Result {
        f.write_str(FAILED)
    }
}

impl Error for Failed {}

/// Why bytes were not read: the outside failed, or memory was wanting.
#[derive(Clone, Copy, Debug, PartialEq, Eq)]
pub enum StoreFault {
    /// The outside failed, and its count of faults rose.
    Failed,
    /// Memory was wanting. No count rises for it.
    NoMemory,
}

impl fmt::Display for StoreFault {
    ghost use Rattle.std.specs.Prelude.{Some};
    ghost use Rattle.outside.specs.Storing.{fault_text};

    ghost output = { λ fault. Some (fault_text fault) };

    fn fmt<W: fmt::Write>(&self, f: &mut fmt::Formatter<W>) -> fmt::Result {
        f.write_str(match self {
            StoreFault::Failed => FAILED,
            StoreFault::NoMemory => "memory was wanting",
        })
    }
}

impl Error for StoreFault {}

impl From<Failed> for StoreFault {
    ghost use Rattle.std.specs.Prelude.{◌≡◌};
    ghost use Rattle.outside.specs.declared.parts.StoreFault.TheVariants.{Failed as FailedFault};

    ghost from_gives = { λ _ e. e ≡ FailedFault };

    fn from(_failed: Failed) -> StoreFault {
        StoreFault::Failed
    }
}

impl From<AllocError> for StoreFault {
    ghost use Rattle.std.specs.Prelude.{◌≡◌};
    ghost use Rattle.outside.specs.declared.parts.StoreFault.TheVariants.{NoMemory};

    ghost from_gives = { λ _ e. e ≡ NoMemory };

    fn from(_error: AllocError) -> StoreFault {
        StoreFault::NoMemory
    }
}

/// Counts one more fault, or call, and stands still at 2^64-1.
pub(crate) fn count_one(count: &mut u64)
    ensures counted { count.new ≡ count_after count.old }
    ensures later { count.old ≤ count.new }
    ensures rose { Rose count.old count.new }
{
    *count = count.saturating_add(1);
}

/// A list of bytes that is read and written as a whole.
pub trait Store {
    /// The bytes held, where they are told.
    ghost contents: { Self → Option (List ℕ) };
    /// How often a call has failed.
    ghost faults: { Self → ℕ };
    /// How often it was written, by calls that failed too. The number is exact, also where no bytes are told.
    ghost writes: { Self → ℕ };
    /// Whether the last write failed. A read leaves it.
    ghost lost: { Self → Bool };

    /// All of the bytes, or the first `limit + 1` where there are more. `NoMemory` may come at any time.
    fn read_all(&mut self, alloc: Global, limit: u64) -> Result<Vec<u8>, StoreFault>
        ensures bound { IfOk result (λ bytes. length bytes.items ≤ limit + 1) }
        ensures bytes { IfOk result (λ bytes. IsFront (contents self.old) limit bytes.items) }
        ensures same { contents self.new ≡ contents self.old }
        ensures cause { HasReadCause (faults self.old) (faults self.new) result }
        ensures unwritten { writes self.new ≡ writes self.old }
        ensures still { lost self.new ≡ lost self.old };

    /// Puts these bytes in the place of all that is held. After a failure nothing is known of what is held.
    fn write_all(&mut self, bytes: &[u8]) -> Result<(), Failed>
        requires { writes self.old < most_writes }
        ensures written { OnOk result (Holds (contents self.old) (contents self.new) bytes.now) }
        ensures cause { HasCause (faults self.old) (faults self.new) result }
        ensures once { writes self.new ≡ writes self.old + 1 }
        ensures kept { OnOk result (lost self.new ≡ false) }
        ensures failed { OnErr result (lost self.new ≡ true) };
}

/// Bytes that come in.
pub trait Source {
    /// The bytes left, where they are told.
    ghost left: { Self → Option (List ℕ) };
    /// How often a call has failed.
    ghost faults: { Self → ℕ };

    /// Takes some bytes from the front, and answers how many; a failed pull takes none. No byte into a buffer that
    /// has room is the end of the input.
    fn pull(&mut self, buf: &mut [u8]) -> Result<usize, Failed>
        ensures bound { ReadsAtMost result buf.new }
        ensures bytes { ReadConsumes (left self.old) (left self.new) result buf.new }
        ensures cause { HasCause (faults self.old) (faults self.new) result };
}

/// Bytes that go out.
pub trait Sink {
    /// The bytes taken, where they are told.
    ghost taken: { Self → Option (List ℕ) };
    /// How often a call has failed, or has taken nothing of a piece that is not empty.
    ghost faults: { Self → ℕ };

    /// Takes some bytes from the front of the piece, and answers how many; a failed push takes none.
    fn push(&mut self, buf: &[u8]) -> Result<usize, Failed>
        ensures bound { WritesAtMost result buf.now }
        ensures bytes { WriteAppends (taken self.old) (taken self.new) result buf.now }
        ensures cause { HasCause (faults self.old) (faults self.new) result }
        ensures some { TakesSome (faults self.old) (faults self.new) result buf.now };
}
