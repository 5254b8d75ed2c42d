//! A file of rows.

use crate::line::{Line, line_of};
use anyhow::{Result, bail};
use std::alloc::{AllocError, Global};

/// A row: its name and its lines.
#[derive(Drop)]
pub struct Row<'a> {
    /// What stands behind `row`.
    pub name: &'a str,
    /// The lines below it, up to the next row.
    pub lines: Vec<Line<'a>>,
}

/// A file of rows.
#[derive(Drop)]
pub struct File<'a> {
    /// The lines above the first row, with which each row begins.
    pub beginning: Vec<Line<'a>>,
    /// The rows, in order.
    pub rows: Vec<Row<'a>>,
}

impl<'a> File<'a> {
    // Puts a line where it belongs.
    fn push(&mut self, alloc: Global, line: Line<'a>) -> Result<(), AllocError> {
        if let Line::Row(name) = line {
            self.rows.push(Row {
                name,
                lines: Vec::new(alloc),
            })?;
            return Ok(());
        }
        match self.rows.last_mut() {
            Some(row) => row.lines.push(line)?,
            None => self.beginning.push(line)?,
        }
        Ok(())
    }
}

/// The rows that a text holds.
pub fn file_of(alloc: Global, text: &str) -> Result<File<'_>> {
    let mut file = File {
        beginning: Vec::new(alloc),
        rows: Vec::new(alloc),
    };
    for (place, line) in text.lines().enumerate() {
        match line_of(line) {
            Some(line) => file.push(alloc, line)?,
            None => bail!("line {}: {line}: no line of a row", place.saturating_add(1)),
        }
    }
    Ok(file)
}
