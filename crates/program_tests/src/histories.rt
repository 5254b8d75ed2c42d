//! Whether calls woven by their places are a legal history, and lists for which there is no memory.
use crate::rows::{TellsOfNumbers, shown, walk_numbers};
use map_model::{Call, Entry, Lists, Reply, weave_check};
use std::alloc::Global;
use std::test::Fail;

/// The first call of a caller, an `insert` of 7 at key 5 that drew place 0.
fn insert() -> Entry {
    Entry {
        serial: 1,
        call: Call::Insert(5, 7),
        reply: Reply::Done,
        place: 0,
        drew: true,
    }
}

/// A call that looked key 5 up at a place that it loaded.
fn get(serial: u64, reply: Reply, place: u64) -> Entry {
    Entry {
        serial,
        call: Call::Get(5),
        reply,
        place,
        drew: false,
    }
}

/// Whether the caller that inserted may be told so then.
fn is_legal_of_one(alloc: Global, reply: Reply, place: u64) -> Result<bool, Fail> {
    let mut lists = Lists::new(alloc, &[2])?;
    lists.push(1, insert());
    lists.push(1, get(2, reply, place));
    Ok(weave_check(alloc, &[], &lists)?)
}

/// Whether another caller may be told so, where these pairs were there at the start.
fn is_legal_of_two(
    alloc: Global,
    start: &[(u64, u64)],
    reply: Reply,
    place: u64,
) -> Result<bool, Fail> {
    let mut lists = Lists::new(alloc, &[1, 1])?;
    lists.push(1, insert());
    lists.push(2, get(1, reply, place));
    Ok(weave_check(alloc, start, &lists)?)
}

/// Whether there is memory for so many entries.
fn has_room(alloc: Global, entries: u64) -> bool {
    Lists::new(alloc, &[entries]).is_ok()
}

/// Histories of an insert of 7 at key 5 and a get.
#[derive(Drop)]
struct Histories;

impl TellsOfNumbers for Histories {
    fn told(&mut self, alloc: Global, name: &str, numbers: &[u64]) -> Result<String, Fail> {
        let told = match (name, numbers) {
            ("own", [value, place]) => is_legal_of_one(alloc, Reply::Found(*value), *place)?,
            ("other", [value, place]) => {
                is_legal_of_two(alloc, &[], Reply::Found(*value), *place)?
            }
            ("absent", [place]) => is_legal_of_two(alloc, &[], Reply::Absent, *place)?,
            ("started", [start, value, place]) => {
                is_legal_of_two(alloc, &[(5, *start)], Reply::Found(*value), *place)?
            }
            ("room", [entries]) => has_room(alloc, *entries),
            _ => return Err(Fail::new(name)),
        };
        shown(alloc, &told)
    }
}

#[test]
fn histories_of_two_calls(rt: HostRuntime) -> Result<(), Fail> {
    walk_numbers(rt.alloc(), &mut Histories, ROWS)
}

const ROWS: &str = "\
# The caller that inserted gets this value at this place.
own 7 1 -> true
own 8 1 -> false
own 7 0 -> false
# Another caller does, or finds nothing there.
absent 0 -> true
other 7 1 -> true
absent 1 -> false
absent 18446744073709551615 -> false
# It gets the second value, where the map began with the first one.
started 6 6 0 -> false
# Lists of so many entries, for which there is no memory.
room 18446744073709551615 -> false
room 4611686018427387904 -> false
";
