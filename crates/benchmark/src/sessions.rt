//! Scripts and sessions of a size, the same at each call.

ghost use Rattle.std.specs.Prelude.{◌≡◌, length, IfOk};

use image_file::format;
use image_layout::{Geometry, IDENTITY_KIND};
use map_model::{Call, Entry, Lists, MOST_CALLERS, NoMemory, Reply};
use reply_text::Session;
use std::alloc::{AllocError, Global};

/// A script of inserts, of keys of 4 digits and values of 1 or 2: of 1,000,000 lines, it has just under 16 MiB.
pub(crate) fn script_of(alloc: Global, lines: u32) -> Result<String, AllocError> {
    let mut text = String::new(alloc);
    for line in 0..lines {
        let key = 1000 + line % 9000;
        let value = if line % 4 == 0 {
            line % 10
        } else {
            10 + line % 90
        };
        write!(&mut text, "1 insert {key} {value}\n")?;
    }
    Ok(text)
}

/// The entry of the only caller at a place of its list: one of four replies by turns.
fn entry_by_turns(line: u32) -> Entry {
    let place = u64::from(line);
    let reply = match line % 4 {
        0 => Reply::Done,
        1 => Reply::Absent,
        2 => Reply::Exists,
        _ => Reply::Found(place.wrapping_mul(6_364_136_223_846_793_005) % 1_000_000),
    };
    Entry {
        serial: place + 1,
        call: Call::Get(place),
        reply,
        place: place / 2,
        drew: false,
    }
}

/// The same with the longest text that a reply and a place have.
fn longest_entry(line: u32) -> Entry {
    Entry {
        serial: u64::from(line) + 1,
        call: Call::Get(5),
        reply: Reply::Found(u64::MAX),
        place: u64::MAX,
        drew: false,
    }
}

/// The list of the only caller.
#[tactic(auto, using(crate::proofs::OneList::count, crate::proofs::OneList::spare, crate::proofs::OneList::pushed))]
fn lists_of(alloc: Global, lines: u32, longest: bool) -> Result<Lists, NoMemory>
    ensures one_list { IfOk result (λ lists. length lists ≡ 1) }
{
    let mut lists = Lists::new(alloc, &[u64::from(lines)])?;
    for line in 0..lines {
        let entry = if longest {
            longest_entry(line)
        } else {
            entry_by_turns(line)
        };
        lists.push(1, entry);
    }
    Ok(lists)
}

/// A session of one caller with so many answered calls.
pub(crate) fn session_of(alloc: Global, lines: u32, longest: bool) -> Result<Session, NoMemory>
    ensures one_list { IfOk result (λ session. length session.lists ≡ 1) }
{
    let Ok(geometry) = Geometry::new(1, 0, IDENTITY_KIND) else {
        return Err(NoMemory);
    };
    let medium = format(alloc, geometry)?;
    Ok(Session {
        lists: lists_of(alloc, lines, longest)?,
        stops: [None; MOST_CALLERS as usize],
        medium,
        cut: false,
    })
}
