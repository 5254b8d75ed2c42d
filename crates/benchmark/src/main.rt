//! Measures parts of the table by themselves; the first argument chooses.
//! `scan ROUNDS`: the scan of fingerprints by lanes beside the plain loop. `text PART LINES`: the reading of a script, or
//! the writing of a transcript. `image IMAGE COPY`: reading an image, telling what it holds, and writing it. With no
//! argument it prints checksums of what the first two work on, and what a small new image holds.
#![tactic(auto)]

mod faults;
mod images;
mod scans;
mod sessions;
mod texts;

use faults::invalid;
use std::alloc::Global;
use std::env;
use std::fs::Files;
use std::io::{self, Print};
use std::time::Clock;

/// What is looked at with no argument.
fn print_sums<R: AllocGlobal + Print>(rt: &R) -> io::Result<()> {
    scans::print_checksums(rt, &scans::buckets(rt.alloc())?)?;
    texts::print_sums(rt.alloc(), rt)?;
    images::print_small(rt.alloc(), rt)
}

/// Measures what the first word says, with the two words behind it, of which the second is empty where there is none.
fn measure<R: Files + AllocGlobal + Print + Clock>(
    rt: &R,
    what: &str,
    first: &str,
    second: &str,
) -> io::Result<()> {
    match what {
        "scan" => scans::print_times(rt, &scans::buckets(rt.alloc())?, number_of(first)?),
        "text" => texts::print_part(rt.alloc(), rt, first, number_of(second)?),
        "image" => images::print_times(rt, first, second),
        _ => Err(invalid()),
    }
}

/// The number that a word says.
fn number_of(word: &str) -> io::Result<u32> {
    match word.parse::<u32>() {
        Ok(number) => Ok(number),
        Err(_) => Err(invalid()),
    }
}

fn main(rt: HostRuntime) -> io::Result<()> {
    let words: Vec<String> = env::args(&rt)?.collect(rt.alloc())?;
    match words.as_slice() {
        [_] => print_sums(&rt),
        [_, what, first] => measure(&rt, what.as_str(), first.as_str(), ""),
        [_, what, first, second] => measure(&rt, what.as_str(), first.as_str(), second.as_str()),
        _ => Err(invalid()),
    }
}
