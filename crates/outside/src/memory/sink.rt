// A sink in memory.
ghost use Rattle.std.specs.Prelude.{◌≡◌, ◌≤◌, ◌-◌, ◌↔◌, [], length, vec_len, vec_capacity, IfOk, IsErr, Some};
ghost use Rattle.std.specs.Io.{WritesAtMost};
ghost use Rattle.std.specs.Io.KnownBytes.{WriteAppends};
ghost use Rattle.outside.specs.Causes.{HasCause, TakesSome, count_after};
ghost use Rattle.outside.specs.Memory.{IsRefused};

use crate::memory::is_failing;
use crate::parts::count_one;
use crate::{Failed, Sink};
use std::alloc::{AllocError, Global};

/// A sink in memory, with the calls that are to fail.
#[derive(Drop)]
pub struct MemSink {
    /// The bytes taken.
    pub bytes: Vec<u8>,
    /// How many bytes it has room for.
    pub room: usize,
    /// The calls that are to fail, counted from 1.
    pub fails: Vec<u64>,
    /// How many calls there were.
    pub calls: u64,
    /// How many of them failed.
    pub faults: u64,
    ghost reserved: { room ≤ vec_capacity bytes },
}

impl MemSink {
    /// A sink that has taken nothing and has room for so many bytes. The memory for that room is taken here.
    pub fn new(alloc: Global, room: usize, fails: Vec<u64>) -> Result<Self, AllocError>
        ensures bytes { IfOk result (λ sink. sink.bytes.items ≡ []) }
        ensures room { IfOk result (λ sink. sink.room ≡ room) }
        ensures fails { IfOk result (λ sink. sink.fails.items ≡ fails.items) }
        ensures calls { IfOk result (λ sink. sink.calls ≡ 0) }
        ensures faults { IfOk result (λ sink. sink.faults ≡ 0) }
    {
        Ok(MemSink {
            bytes: Vec::with_capacity(alloc, room)?,
            room,
            fails,
            calls: 0,
            faults: 0,
        })
    }
}

impl Sink for MemSink {
    ghost taken = { λ s. Some s.bytes.items };

    ghost faults = { λ s. s.faults };

    fn push(&mut self, buf: &[u8]) -> Result<usize, Failed>
        ensures bound { WritesAtMost result buf.now }
        ensures bytes { WriteAppends (Some self.old.bytes.items) (Some self.new.bytes.items) result buf.now }
        ensures cause { HasCause self.old.faults self.new.faults result }
        ensures some { TakesSome self.old.faults self.new.faults result buf.now }

        // A piece is taken whole, or refused at a call of the list or past the room.
        ensures ok { IfOk result (λ n. n ≡ length buf.now) }
        ensures err { IsErr result ↔
            IsRefused self.old.fails.items self.old.calls (length buf.now) (self.old.room - vec_len self.old.bytes) }
        ensures calls { self.new.calls ≡ count_after self.old.calls }
        ensures fails { self.new.fails.items ≡ self.old.fails.items }
        ensures room { self.new.room ≡ self.old.room }
    {
        let free = self.room.saturating_sub(self.bytes.len());
        if is_failing(&mut self.calls, &self.fails) || buf.len() > free {
            count_one(&mut self.faults);
            return Err(Failed);
        }
        if self.bytes.extend_from_slice(buf).is_err() {
            count_one(&mut self.faults);
            return Err(Failed);
        }
        Ok(buf.len())
    }
}
