// A store in memory.
ghost use Rattle.std.specs.Prelude.{true, false, ◌≡◌, ◌<◌, ◌≤◌, ◌+◌, ◌↔◌, length, take, vec_capacity, IfOk, OnOk, OnErr, IsErr, IsErrOf, Some};
ghost use Rattle.outside.specs.Causes.{HasCause, count_after};
ghost use Rattle.outside.specs.Memory.{IsToFail, IsRefused};
ghost use Rattle.outside.specs.Storing.{HasReadCause, most_writes};

use crate::memory::is_failing;
use crate::parts::count_one;
use crate::{Failed, Store, StoreFault};
use std::alloc::{AllocError, Global};

/// A store in memory, with the calls that are to fail.
#[derive(Drop)]
pub struct MemStore {
    /// The bytes held.
    pub bytes: Vec<u8>,
    /// How many bytes it has room for.
    pub room: usize,
    /// The calls that are to fail, reads and writes counted together from 1.
    pub fails: Vec<u64>,
    /// How many calls there were.
    pub calls: u64,
    /// How many of them failed.
    pub faults: u64,
    /// How many of them were writes.
    pub writes: u64,
    /// Whether the last of these failed.
    pub lost: bool,
    ghost reserved: { room ≤ vec_capacity bytes },
}

impl MemStore {
    /// A store that holds these bytes and has room for so many. The memory for that room is taken here.
    pub fn new(alloc: Global, bytes: &[u8], room: usize, fails: &[u64]) -> Result<Self, AllocError>
        ensures bytes { IfOk result (λ store. store.bytes.items ≡ bytes.now) }
        ensures room { IfOk result (λ store. store.room ≡ room) }
        ensures fails { IfOk result (λ store. store.fails.items ≡ fails.now) }
        ensures calls { IfOk result (λ store. store.calls ≡ 0) }
        ensures faults { IfOk result (λ store. store.faults ≡ 0) }
        ensures writes { IfOk result (λ store. store.writes ≡ 0) }
        ensures lost { IfOk result (λ store. store.lost ≡ false) }
    {
        let mut held = Vec::with_capacity(alloc, room)?;
        held.extend_from_slice(bytes)?;
        Ok(MemStore {
            bytes: held,
            room,
            fails: fails.to_vec(alloc)?,
            calls: 0,
            faults: 0,
            writes: 0,
            lost: false,
        })
    }
}

// A copy of all of the bytes, or of the first `limit + 1` where there are more.
fn front_of(alloc: Global, bytes: &[u8], limit: u64) -> Result<Vec<u8>, AllocError>
    ensures { IfOk result (λ front. front.items ≡ take (limit + 1) bytes.now) }
{
    if bytes.len() as u64 <= limit {
        bytes.to_vec(alloc)
    } else {
        bytes[..limit as usize + 1].to_vec(alloc)
    }
}

impl Store for MemStore {
    ghost contents = { λ s. Some s.bytes.items };

    ghost faults = { λ s. s.faults };

    ghost writes = { λ s. s.writes };

    ghost lost = { λ s. s.lost };

    fn read_all(&mut self, alloc: Global, limit: u64) -> Result<Vec<u8>, StoreFault>
        ensures bound { IfOk result (λ bytes. length bytes.items ≤ limit + 1) }
        ensures bytes { IfOk result (λ bytes. bytes.items ≡ take (limit + 1) self.old.bytes.items) }
        ensures same { self.new.bytes.items ≡ self.old.bytes.items }
        ensures cause { HasReadCause self.old.faults self.new.faults result }
        ensures unwritten { self.new.writes ≡ self.old.writes }
        ensures still { self.new.lost ≡ self.old.lost }

        // It fails at the calls of its list and at no other.
        ensures failed { IsErrOf result StoreFault.Failed ↔ IsToFail self.old.fails.items self.old.calls }
        ensures calls { self.new.calls ≡ count_after self.old.calls }
        ensures fails { self.new.fails.items ≡ self.old.fails.items }
        ensures room { self.new.room ≡ self.old.room }
    {
        if is_failing(&mut self.calls, &self.fails) {
            count_one(&mut self.faults);
            return Err(StoreFault::Failed);
        }
        Ok(front_of(alloc, &self.bytes, limit)?)
    }

    fn write_all(&mut self, bytes: &[u8]) -> Result<(), Failed>
        requires { self.old.writes < most_writes }
        ensures written { OnOk result (self.new.bytes.items ≡ bytes.now) }
        ensures cause { HasCause self.old.faults self.new.faults result }
        ensures once { self.new.writes ≡ self.old.writes + 1 }
        ensures kept { OnOk result (self.new.lost ≡ false) }
        ensures failed { OnErr result (self.new.lost ≡ true) }

        // It fails at the calls of its list and past the room, and then holds what it held.
        ensures err { IsErr result ↔
            IsRefused self.old.fails.items self.old.calls (length bytes.now) self.old.room }
        ensures same { OnErr result (self.new.bytes.items ≡ self.old.bytes.items) }
        ensures calls { self.new.calls ≡ count_after self.old.calls }
        ensures fails { self.new.fails.items ≡ self.old.fails.items }
        ensures room { self.new.room ≡ self.old.room }
    {
        self.writes += 1;
        self.lost = true;
        if is_failing(&mut self.calls, &self.fails) || bytes.len() > self.room {
            count_one(&mut self.faults);
            return Err(Failed);
        }
        self.bytes.clear();
        if self.bytes.extend_from_slice(bytes).is_err() {
            count_one(&mut self.faults);
            return Err(Failed);
        }
        self.lost = false;
        Ok(())
    }
}
