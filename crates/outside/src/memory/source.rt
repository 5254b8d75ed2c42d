// Sources in memory.
ghost use Rattle.std.specs.Prelude.{◌≡◌, ◌≤◌, ◌-◌, ◌↔◌, min, length, drop, Some, IsErr};
ghost use Rattle.std.specs.Io.{ReadsAtMost};
ghost use Rattle.std.specs.Io.KnownBytes.{ReadConsumes};
ghost use Rattle.outside.specs.Causes.{HasCause, count_after};
ghost use Rattle.outside.specs.Memory.{IsToFail};

use crate::memory::is_failing;
use crate::parts::count_one;
use crate::{Failed, Source};

/// A source in memory that never fails.
#[derive(Drop)]
pub struct SureSource {
    /// All of the input.
    pub bytes: Vec<u8>,
    /// How many bytes of it are taken.
    pub at: usize,
    ghost in_range: { at ≤ length bytes.items },
}

impl SureSource {
    /// A source with these bytes left.
    pub fn new(bytes: Vec<u8>) -> Self
        ensures bytes { result.bytes.items ≡ bytes.items }
        ensures at { result.at ≡ 0 }
    {
        SureSource { bytes, at: 0 }
    }
}

impl Source for SureSource {
    ghost left = { λ s. Some (drop s.at s.bytes.items) };

    ghost faults = { λ s. 0 };

    fn pull(&mut self, buf: &mut [u8]) -> Result<usize, Failed>
        ensures bound { ReadsAtMost result buf.new }
        ensures bytes { ReadConsumes (Some (drop self.old.at self.old.bytes.items))
            (Some (drop self.new.at self.new.bytes.items)) result buf.new }
        ensures cause { HasCause 0 0 result }

        // It gives as many bytes as there is room for, or all that are left.
        ensures ok { result ≡ Ok (min (length buf.old) (length self.old.bytes.items - self.old.at)) }
        ensures all { self.new.bytes.items ≡ self.old.bytes.items }
    {
        let count = buf.len().min(self.bytes.len() - self.at);
        buf[..count].copy_from_slice(&self.bytes[self.at..self.at + count]);
        self.at += count;
        Ok(count)
    }
}

/// A source in memory, with the calls that are to fail.
#[derive(Drop)]
pub struct MemSource {
    /// The input, and how much of it is taken.
    pub inner: SureSource,
    /// The calls that are to fail, counted from 1.
    pub fails: Vec<u64>,
    /// How many calls there were.
    pub calls: u64,
    /// How many of them failed.
    pub faults: u64,
}

impl MemSource {
    /// A source with these bytes left.
    pub fn new(bytes: Vec<u8>, fails: Vec<u64>) -> Self
        ensures bytes { result.inner.bytes.items ≡ bytes.items }
        ensures at { result.inner.at ≡ 0 }
        ensures fails { result.fails.items ≡ fails.items }
        ensures calls { result.calls ≡ 0 }
        ensures faults { result.faults ≡ 0 }
    {
        MemSource {
            inner: SureSource::new(bytes),
            fails,
            calls: 0,
            faults: 0,
        }
    }
}

impl Source for MemSource {
    ghost left = { λ s. Some (drop s.inner.at s.inner.bytes.items) };

    ghost faults = { λ s. s.faults };

    fn pull(&mut self, buf: &mut [u8]) -> Result<usize, Failed>
        ensures bound { ReadsAtMost result buf.new }
        ensures bytes { ReadConsumes (Some (drop self.old.inner.at self.old.inner.bytes.items))
            (Some (drop self.new.inner.at self.new.inner.bytes.items)) result buf.new }
        ensures cause { HasCause self.old.faults self.new.faults result }

        // It fails at the calls of its list and at no other.
        ensures err { IsErr result ↔ IsToFail self.old.fails.items self.old.calls }
        ensures calls { self.new.calls ≡ count_after self.old.calls }
        ensures fails { self.new.fails.items ≡ self.old.fails.items }
    {
        if is_failing(&mut self.calls, &self.fails) {
            count_one(&mut self.faults);
            return Err(Failed);
        }
        self.inner.pull(buf)
    }
}
