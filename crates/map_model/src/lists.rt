// The entries of each caller.
ghost use Rattle.std.specs.Prelude.{◌≡◌, ◌<◌, ◌≤◌, length, map, slice_get, IfOk, IfSome, Some};
ghost use Rattle.map_model.specs.Roomed.{with_room, with_entry, lists_of};
ghost use Rattle.map_model.specs.Weave.{first_caller, seat_of};

use crate::entry::Entry;
use crate::no_memory::NoMemory;
use std::alloc::Global;
use std::marker::Model;

/// How many callers a run has at most. Lists have any number of them.
pub const MOST_CALLERS: u64 = 64;
/// Callers are numbered from this number on.
pub const FIRST_CALLER: u64 = 1;
/// The number of the keeper, who starts the image and closes it.
pub const KEEPER_NUMBER: u8 = 0;

/// The entries of each caller in its own order, with room for a number of more that is set at the
/// start. Callers are numbered from 1.
#[derive(Drop)]
pub struct Lists {
    lists: Vec<Vec<Entry>>,
}

impl Model for Lists {
    ghost use Rattle.std.specs.Prelude.{List, map, vec_len, vec_capacity, ◌-◌};
    ghost use Rattle.map_model.specs.Roomed.{Roomed};

    ghost Value = { List Roomed };

    ghost view = { λ inside. map
        (λ list. record { entries = list.items; spare = vec_capacity list - vec_len list })
        inside.lists.items };
}

impl Lists {
    /// No entries yet, and room for so many entries of each caller as `room` says at its seat. More room than memory
    /// can hold is `NoMemory`.
    pub fn new(alloc: Global, room: &[u64]) -> Result<Lists, NoMemory>
        ensures { IfOk result (λ lists. lists ≡ map with_room room.now) }
    {
        let mut lists = Vec::with_capacity(alloc, room.len())?;
        for entries in room {
            lists.push(Vec::with_capacity(alloc, *entries as usize)?)?;
        }
        Ok(Lists { lists })
    }

    /// The number of callers.
    pub fn callers(&self) -> usize
        ensures { result ≡ length self.now }
    {
        self.lists.len()
    }

    /// The entries of a caller, oldest first.
    pub fn of(&self, caller: u8) -> &[Entry]
        requires from_one { first_caller ≤ caller }
        requires is_caller { caller ≤ length self.now }
        ensures { slice_get (lists_of self.now) (seat_of caller) ≡ Some result.now }
    {
        &self.lists[caller as usize - FIRST_CALLER as usize]
    }

    /// The entries of all callers, by caller number.
    pub(crate) fn rows(&self) -> &[Vec<Entry>]
        ensures { map (λ row. row.items) result.now ≡ lists_of self.now }
    {
        &self.lists
    }

    /// One more entry of a caller, into the room that it has left.
    pub fn push(&mut self, caller: u8, entry: Entry)
        requires from_one { first_caller ≤ caller }
        requires is_caller { caller ≤ length self.old }
        requires has_spare { IfSome (slice_get self.old (seat_of caller)) (λ kept. 0 < kept.spare) }
        ensures { self.new ≡ with_entry self.old (seat_of caller) entry }
    {
        let list = &mut self.lists[caller as usize - FIRST_CALLER as usize];
        list.push_reserved(entry);
    }
}
