//! The time that the texts take.

use crate::faults::{invalid, no_data, no_memory};
use crate::sessions::{script_of, session_of};
use reply_text::transcript;
use script_text::{Mode, parse};
use std::alloc::Global;
use std::io::{self, Print};
use std::time::{Clock, Duration, Instant};

/// A checksum of bytes.
fn sum(bytes: &[u8]) -> u64 {
    let mut sum: u64 = 0;
    for byte in bytes {
        sum = sum.wrapping_mul(31).wrapping_add(u64::from(*byte));
    }
    sum
}

/// Prints how many bytes a text has, and how long it took.
fn print_figures(rt: &impl Print, bytes: usize, time: Duration) -> io::Result<()> {
    println!(rt; "{bytes} {}", time.as_nanos())
}

/// Makes a script, and does no more.
fn print_script(alloc: Global, rt: &(impl Print + Clock), lines: u32) -> io::Result<()> {
    let start = Instant::now(rt)?;
    let script = script_of(alloc, lines)?;
    print_figures(rt, script.len(), start.elapsed(rt)?)
}

/// Reads a script.
fn print_parse(alloc: Global, rt: &(impl Print + Clock), lines: u32) -> io::Result<()> {
    let script = script_of(alloc, lines)?;
    let start = Instant::now(rt)?;
    let Ok(read) = parse(alloc, Mode::Play, script.as_bytes()) else {
        return Err(no_data());
    };
    let time = start.elapsed(rt)?;
    if read.len() != u64::from(lines) {
        return Err(no_data());
    }
    print_figures(rt, script.len(), time)
}

/// Makes a session, and does no more.
fn print_session(
    alloc: Global,
    rt: &(impl Print + Clock),
    lines: u32,
    longest: bool,
) -> io::Result<()> {
    let start = Instant::now(rt)?;
    let Ok(session) = session_of(alloc, lines, longest) else {
        return Err(no_memory());
    };
    let time = start.elapsed(rt)?;
    print_figures(rt, session.lists.callers(), time)
}

/// Writes the transcript of a session.
fn print_transcript(
    alloc: Global,
    rt: &(impl Print + Clock),
    lines: u32,
    longest: bool,
) -> io::Result<()> {
    let Ok(session) = session_of(alloc, lines, longest) else {
        return Err(no_memory());
    };
    let start = Instant::now(rt)?;
    let Ok(text) = transcript(alloc, &session) else {
        return Err(no_memory());
    };
    let time = start.elapsed(rt)?;
    print_figures(rt, text.len(), time)
}

/// Makes a text, reads or writes it, as the part says, and prints how many bytes it has, and how long it took.
pub(crate) fn print_part(
    alloc: Global,
    rt: &(impl Print + Clock),
    part: &str,
    lines: u32,
) -> io::Result<()> {
    match part {
        "script" => print_script(alloc, rt, lines),
        "parse" => print_parse(alloc, rt, lines),
        "session" => print_session(alloc, rt, lines, false),
        "longest-session" => print_session(alloc, rt, lines, true),
        "transcript" => print_transcript(alloc, rt, lines, false),
        "longest" => print_transcript(alloc, rt, lines, true),
        _ => Err(invalid()),
    }
}

/// Prints the checksum of the transcript of a session.
fn print_sum(alloc: Global, rt: &impl Print, name: &str, longest: bool) -> io::Result<()> {
    let Ok(session) = session_of(alloc, 1000, longest) else {
        return Err(no_memory());
    };
    let Ok(text) = transcript(alloc, &session) else {
        return Err(no_memory());
    };
    println!(rt; "{name} {:016x}", sum(&text))
}

/// Prints the checksums of a script and of two transcripts, each of 1000 lines.
pub(crate) fn print_sums(alloc: Global, rt: &impl Print) -> io::Result<()> {
    let script = script_of(alloc, 1000)?;
    println!(rt; "script {:016x}", sum(script.as_bytes()))?;
    print_sum(alloc, rt, "transcript", false)?;
    print_sum(alloc, rt, "longest", true)
}
