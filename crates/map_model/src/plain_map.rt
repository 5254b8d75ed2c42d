//! The plain map itself, to try a history on.
ghost use Rattle.std.specs.Prelude.{◌≡◌, ◌↔◌, IsTrue, IfOk, OnOk};
ghost use Rattle.std.specs.FinMap as map;
ghost use Rattle.map_model.specs.Map.{reply_of, is_done, after};
ghost use Rattle.map_model.specs.Legal.{IsReplyOf, AreReplies};

use crate::call::Call;
use crate::entry::{Entry, Reply};
use crate::no_memory::NoMemory;
use std::alloc::Global;
use std::collections::BTreeMap;
use std::marker::Model;

/// Keys with their values.
#[derive(Drop)]
pub struct PlainMap {
    pairs: BTreeMap<u64, u64>,
}

impl Model for PlainMap {
    ghost use Rattle.std.specs.Prelude.{ℕ};
    ghost use Rattle.std.specs.Ordering.{nat_cmp};
    ghost use Rattle.std.specs.FinMap as map;
    ghost use Rattle.std.specs.Coded.{coded_ℕ};

    ghost Value = { map.FinMap nat_cmp ℕ };

    ghost coded = { map.code coded_ℕ coded_ℕ };

    ghost view = { λ plain. map.from_entries plain.pairs.entries };
}

/// Whether a reply says that the map was changed.
pub fn changes(reply: Reply) -> bool
    ensures { result ≡ is_done reply }
{
    matches!(reply, Reply::Done)
}

impl PlainMap {
    /// The map of these pairs; where a key stands twice, its first pair counts.
    pub fn of_pairs(alloc: Global, pairs: &[(u64, u64)]) -> Result<PlainMap, NoMemory>
        ensures { IfOk result (λ plain. plain ≡ map.from_entries pairs.now) }
    {
        let mut plain = PlainMap {
            pairs: BTreeMap::new(alloc),
        };
        for i in (0..pairs.len()).rev() {
            plain.insert(pairs[i].0, pairs[i].1)?;
        }
        Ok(plain)
    }

    fn get(&self, key: u64) -> Option<u64>
        ensures { result ≡ map.get self.now key }
    {
        self.pairs.get(&key).copied()
    }

    fn insert(&mut self, key: u64, value: u64) -> Result<(), NoMemory>
        ensures { OnOk result (self.new ≡ map.insert self.old key value) }
    {
        self.pairs.insert(key, value)?;
        Ok(())
    }

    fn remove(&mut self, key: u64)
        ensures { self.new ≡ map.remove self.old key }
    {
        self.pairs.remove(&key);
    }

    /// The map's own reply to a call.
    fn reply_to(&self, call: Call) -> Reply
        ensures { result ≡ reply_of self.now call }
    {
        match call {
            Call::Get(key) => match self.get(key) {
                Some(value) => Reply::Found(value),
                None => Reply::Absent,
            },
            Call::Insert(key, _) => match self.get(key) {
                Some(_) => Reply::Exists,
                None => Reply::Done,
            },
            Call::Update(key, _) | Call::Remove(key) => match self.get(key) {
                Some(_) => Reply::Done,
                None => Reply::Absent,
            },
        }
    }

    /// Whether a reply may stand where the map is this one.
    fn may_answer(&self, call: Call, reply: Reply) -> bool
        ensures { IsTrue result ↔ IsReplyOf self.now call reply }
    {
        match reply {
            Reply::Full | Reply::Deep => matches!(call, Call::Insert(_, _)),
            Reply::Spent => !matches!(call, Call::Get(_)),
            Reply::Found(_) | Reply::Absent | Reply::Done | Reply::Exists => {
                reply == self.reply_to(call)
            }
        }
    }

    /// Does what a call with its reply did.
    fn apply(&mut self, call: Call, reply: Reply) -> Result<(), NoMemory>
        ensures { OnOk result (self.new ≡ after self.old call reply) }
    {
        if changes(reply) {
            match call {
                Call::Get(_) => (),
                Call::Insert(key, value) | Call::Update(key, value) => self.insert(key, value)?,
                Call::Remove(key) => self.remove(key),
            }
        }
        Ok(())
    }

    /// Whether along a row of entries each reply may stand where it stands. What the map is then, is
    /// left open.
    pub fn are_replies(&mut self, row: &[Entry]) -> Result<bool, NoMemory>
        ensures { IfOk result (λ yes. IsTrue yes ↔ AreReplies self.old row.now) }
    {
        for entry in row {
            if !self.may_answer(entry.call, entry.reply) {
                return Ok(false);
            }
            self.apply(entry.call, entry.reply)?;
        }
        Ok(true)
    }
}
