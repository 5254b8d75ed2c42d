//! A row: its runs, one after another, on one store.

use anyhow::{Result, bail};
use dash_top::dash_run;
use outside::{Fuses, MemSink, MemSource, MemStore};
use row_file::{Line, ROOM, Step, change};
use row_outcome::Outcome;
use std::alloc::Global;
use std::marker::Sync;
use std::sync::Wait;
use std::thread::Threads;

/// Runs one command of a step on an image.
fn outcome_of<R: Threads + Wait + Sync>(
    rt: &R,
    alloc: Global,
    command: &str,
    image: &[u8],
    step: &Step,
) -> Result<Outcome> {
    let mut words = Vec::new(alloc);
    for word in command.split_whitespace() {
        words.push(String::from_str(alloc, word)?)?;
    }
    let mut store = MemStore::new(alloc, image, ROOM, &step.store_fails)?;
    let script = step.script.as_bytes().to_vec(alloc)?;
    let mut source = MemSource::new(script, step.source_fails.as_slice().to_vec(alloc)?);
    let mut sink = MemSink::new(alloc, ROOM, step.sink_fails.as_slice().to_vec(alloc)?)?;
    let mut gates = Fuses::new();
    let status = dash_run(
        rt,
        alloc,
        &words,
        &mut store,
        &mut source,
        &mut sink,
        &mut gates,
    );
    let pulled = source.inner.at as u64;
    let counts = [
        store.writes,
        pulled,
        store.faults,
        source.faults,
        sink.faults,
    ];
    Ok(Outcome {
        status,
        written: sink.bytes,
        image: store.bytes,
        counts,
    })
}

/// What is known while a row's lines are gone through.
#[derive(Drop)]
struct Judging<'a> {
    image: Vec<u8>,
    step: Option<Step<'a>>,
}

impl<'a> Judging<'a> {
    // Runs the commands of a step on the image, which becomes what they leave, and answers the first difference.
    fn made<R: Threads + Wait + Sync>(
        &mut self,
        rt: &R,
        alloc: Global,
        step: Step<'a>,
    ) -> Result<Option<String>> {
        for command in step.commands.split(", ") {
            let outcome = outcome_of(rt, alloc, command, &self.image, &step)?;
            if let Some(difference) = outcome.difference(alloc, command, &self.image, &step)? {
                return Ok(Some(format!(in alloc; "`{command}`: {difference}")?));
            }
            self.image = outcome.image;
        }
        Ok(None)
    }

    // Makes the runs that are still to be made.
    fn finish<R: Threads + Wait + Sync>(
        &mut self,
        rt: &R,
        alloc: Global,
    ) -> Result<Option<String>> {
        match self.step.take() {
            Some(step) => self.made(rt, alloc, step),
            None => Ok(None),
        }
    }

    // Takes the next line.
    fn take<R: Threads + Wait + Sync>(
        &mut self,
        rt: &R,
        alloc: Global,
        line: &Line<'a>,
    ) -> Result<Option<String>> {
        match line {
            Line::Run(commands) => {
                let difference = self.finish(rt, alloc)?;
                self.step = Some(Step::new(alloc, commands));
                Ok(difference)
            }
            Line::Image(_) | Line::Word(_) | Line::Bytes(_) => {
                let difference = self.finish(rt, alloc)?;
                change(alloc, &mut self.image, line)?;
                Ok(difference)
            }
            Line::Nothing | Line::Row(_) => Ok(None),
            _ => {
                let Some(step) = &mut self.step else {
                    bail!("what must come out stands above the first run");
                };
                step.take(line)?;
                Ok(None)
            }
        }
    }
}

/// The first difference of a row, in words; none where it holds. The row has the lines of the beginning and its own.
pub fn difference_of<'a, R: Threads + Wait + Sync>(
    rt: &R,
    alloc: Global,
    beginning: &[Line<'a>],
    lines: &[Line<'a>],
) -> Result<Option<String>> {
    if !lines.iter().any(|line| matches!(line, Line::Run(_))) {
        bail!("it has no run");
    }
    let mut judging = Judging {
        image: Vec::new(alloc),
        step: None,
    };
    for line in beginning.iter().chain(lines) {
        if let Some(difference) = judging.take(rt, alloc, line)? {
            return Ok(Some(difference));
        }
    }
    judging.finish(rt, alloc)
}
