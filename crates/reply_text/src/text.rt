//! The text of a session.

ghost use Rattle.std.specs.Prelude.{◌≡◌, ◌≤◌, ◌++◌, length, string_bytes, IfOk, OnOk, Some};
ghost use Rattle.map_model.specs.Roomed.{lists_of};
ghost use Rattle.map_model.specs.Weave.{most_callers};
ghost use Rattle.session.specs.Transcript.{line, placed_text, entry_lines, open_text, caller_lines, transcript_of};
ghost use Rattle.reply_text.specs.Told.{told_by, tolds_of};

use crate::left::Session;
use map_model::{Entry, FIRST_CALLER, NoMemory, Stop};
use std::alloc::{AllocError, Global};

// Appends the line of an answered call.
fn push_entry(text: &mut String, caller: u8, entry: &Entry) -> Result<(), AllocError>
    ensures { OnOk result (string_bytes text.new ≡ string_bytes text.old ++ line caller entry.now.serial (placed_text entry.now.reply entry.now.place)) }
{
    let serial = entry.serial;
    let reply = entry.reply;
    let place = entry.place;
    write!(text, "{caller} {serial} {reply} @{place}\n")
}

// Appends the lines of a caller's answered calls.
fn push_entries(text: &mut String, caller: u8, entries: &[Entry]) -> Result<(), AllocError>
    ensures { OnOk result (string_bytes text.new ≡ string_bytes text.old ++ entry_lines caller entries.now) }
{
    for entry in entries {
        push_entry(text, caller, entry)?;
    }
    Ok(())
}

// Appends the line of a call that drew, and is open.
fn push_drawn(text: &mut String, caller: u8, serial: u64, entry: Entry) -> Result<(), AllocError>
    ensures { OnOk result (string_bytes text.new ≡ string_bytes text.old ++ line caller serial (open_text (Some entry))) }
{
    let reply = entry.reply;
    let place = entry.place;
    write!(text, "{caller} {serial} OPEN {reply} @{place}\n")
}

// Appends the line of a call that is open.
fn push_open(
    text: &mut String,
    caller: u8,
    serial: u64,
    drew: Option<Entry>,
) -> Result<(), AllocError>
    ensures { OnOk result (string_bytes text.new ≡ string_bytes text.old ++ line caller serial (open_text drew)) }
{
    match drew {
        None => write!(text, "{caller} {serial} OPEN\n"),
        Some(entry) => push_drawn(text, caller, serial, entry),
    }
}

// Appends the lines of a caller: those of its answered calls, then that of the call that it stopped in, if that had
// begun.
fn push_caller(
    text: &mut String,
    caller: u8,
    entries: &[Entry],
    stop: Option<Stop>,
) -> Result<(), AllocError>
    ensures { OnOk result (string_bytes text.new ≡ string_bytes text.old ++ caller_lines caller (told_by entries.now stop)) }
{
    push_entries(text, caller, entries)?;
    match stop {
        Some(stop) if stop.begun => push_open(text, caller, entries.len() as u64 + 1, stop.drew),
        _ => Ok(()),
    }
}

/// The lines of a session: one for each call that began, callers ascending, and serials ascending from 1.
///
/// # Errors
///
/// `NoMemory` if memory runs out.
pub fn transcript(alloc: Global, session: &Session) -> Result<Vec<u8>, NoMemory>
    requires callers { length session.now.lists ≤ most_callers }
    ensures { IfOk result (λ text. text.items ≡ transcript_of (tolds_of (lists_of session.now.lists) session.now.stops)) }
{
    let mut text = String::new(alloc);
    for i in 0..session.lists.callers() {
        let caller = i as u8 + FIRST_CALLER as u8;
        push_caller(
            &mut text,
            caller,
            session.lists.of(caller),
            session.stops[i],
        )?;
    }
    Ok(text.into_bytes())
}
