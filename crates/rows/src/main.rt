//! The rows: whole runs of the top call over the outside in memory, each with what must come out of it. The files that
//! the arguments name hold the rows, in the format of the README. For each row a line is printed, that it holds or what
//! differs. The status is 0 where all hold, 1 where one differs, and 2 where a file is not read, or is none of rows.
#![tactic(auto)]

mod row;

use anyhow::{Context, Result};
use row::difference_of;
use row_file::{File, file_of};
use std::io::Print;
use std::marker::Sync;
use std::process::ExitCode;
use std::rt::Files;
use std::sync::Wait;
use std::thread::Threads;
use std::{env, fs};

/// The status where a row differs.
const DIFFERS: u8 = 1;
/// The status where a file cannot be read, or is none of rows.
const NOT_READ: u8 = 2;

/// Judges each row of a file, prints its line, and answers whether all hold.
fn all_hold<R: Print + Threads + Wait + Sync + AllocGlobal>(rt: &R, file: &File) -> Result<bool> {
    let mut holding = true;
    for row in &file.rows {
        let name = row.name;
        let difference = difference_of(rt, rt.alloc(), &file.beginning, &row.lines);
        match difference.context(format_args!("{name}"))? {
            None => println!(rt; "holds: {name}")?,
            Some(difference) => {
                holding = false;
                println!(rt; "differs: {name}: {difference}")?;
            }
        }
    }
    Ok(holding)
}

/// The same for each of the files.
fn all_files_hold<R: Files + Print + Threads + Wait + Sync + AllocGlobal>(
    rt: &R,
    paths: &[String],
) -> Result<bool> {
    let mut holding = true;
    for path in paths {
        let text = fs::read_to_string(rt, path.as_str()).context(format_args!("{path}"))?;
        let file = file_of(rt.alloc(), text.as_str()).context(format_args!("{path}"))?;
        holding = all_hold(rt, &file).context(format_args!("{path}"))? && holding;
    }
    Ok(holding)
}

fn main(rt: HostRuntime) -> Result<ExitCode> {
    let paths: Vec<String> = env::args(&rt)?.skip(1).collect(rt.alloc())?;
    match all_files_hold(&rt, &paths) {
        Ok(true) => Ok(ExitCode::SUCCESS),
        Ok(false) => Ok(ExitCode::from(DIFFERS)),
        Err(error) => {
            println!(rt; "{error:#}")?;
            Ok(ExitCode::from(NOT_READ))
        }
    }
}
