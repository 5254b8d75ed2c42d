//! A step of a row: commands that are run one after another, and what must come out of each.

use crate::line::{Counts, Line, Others, Part, Word};
use crate::text::push_lines;
use anyhow::Result;
use std::alloc::Global;

/// The status of a run that is done: the one that must come where no line says another.
const DONE: u8 = 0;

/// Commands to be run, and what must come out of each.
#[derive(Drop)]
pub struct Step<'a> {
    /// The commands, parted by `, `.
    pub commands: &'a str,
    /// The script of each run.
    pub script: String,
    /// The calls of the store that fail in each run, counted from 1.
    pub store_fails: Vec<u64>,
    /// The calls of the source that fail.
    pub source_fails: Vec<u64>,
    /// The calls of the sink that fail.
    pub sink_fails: Vec<u64>,
    /// What must be written.
    pub written: String,
    /// The status that must come.
    pub status: u64,
    /// What must be counted, where that is said.
    pub counts: Option<Counts>,
    /// The words that must be left.
    pub left: Vec<Word>,
    /// What the other words must be.
    pub others: Others,
    /// How many bytes must be left, where that is said.
    pub bytes: Option<u64>,
}

impl<'a> Step<'a> {
    /// These commands, of which nothing more is said yet.
    pub fn new(alloc: Global, commands: &'a str) -> Self {
        Step {
            commands,
            script: String::new(alloc),
            store_fails: Vec::new(alloc),
            source_fails: Vec::new(alloc),
            sink_fails: Vec::new(alloc),
            written: String::new(alloc),
            status: u64::from(DONE),
            counts: None,
            left: Vec::new(alloc),
            others: Others::Any,
            bytes: None,
        }
    }

    // Lets a call of a part fail.
    fn fail(&mut self, part: Part, call: u64) -> Result<()> {
        let fails = match part {
            Part::Store => &mut self.store_fails,
            Part::Source => &mut self.source_fails,
            Part::Sink => &mut self.sink_fails,
        };
        fails.push(call)?;
        Ok(())
    }

    /// Takes a line that says something of its runs.
    ///
    /// # Errors
    ///
    /// If a text has braces or a backslash that mean nothing, or if there is no memory.
    pub fn take(&mut self, line: &Line<'a>) -> Result<()> {
        match line {
            Line::Script(lines) => push_lines(&mut self.script, lines),
            Line::Written(lines) => push_lines(&mut self.written, lines),
            Line::Fails(part, call) => self.fail(*part, *call),
            Line::Status(status) => {
                self.status = *status;
                Ok(())
            }
            Line::Counts(counts) => {
                self.counts = Some(*counts);
                Ok(())
            }
            Line::Left(word) => {
                self.left.push(*word)?;
                Ok(())
            }
            Line::LeftOthers(others) => {
                self.others = *others;
                Ok(())
            }
            Line::LeftBytes(count) => {
                self.bytes = Some(*count);
                Ok(())
            }
            _ => Ok(()),
        }
    }
}
