//! Cases as rows of a text, and the loop that walks them: every test function is proved, and to that a row adds nothing.
//!
//! A row is what is asked, ` -> `, and what has to be told then. What is meant stands behind `# `.
use row_file::{first_word, number_of};
use std::alloc::Global;
use std::fmt::Debug;
use std::test::Fail;

/// What the rows of a text are about.
pub trait Tells {
    /// What is told to what is asked.
    fn told(&mut self, alloc: Global, asked: &str) -> Result<String, Fail>;
}

/// What the rows of a text are about, where each asks by a name and numbers.
pub trait TellsOfNumbers {
    /// What is told to this name and these numbers.
    fn told(&mut self, alloc: Global, name: &str, numbers: &[u64]) -> Result<String, Fail>;
}

/// Fails where something else is told than a row says.
fn judge(row: &str, told: &str, wanted: &str) -> Result<(), Fail> {
    if told == wanted {
        return Ok(());
    }
    Err(Fail::new(format_args!("{row}, and not {told}")))
}

/// Asks what a row asks, and fails where something else is told than it says. A row that says what is meant asks nothing.
fn ask(alloc: Global, subject: &mut impl Tells, row: &str) -> Result<(), Fail> {
    match row.split_once(" -> ") {
        Some((asked, wanted)) => judge(row, subject.told(alloc, asked)?.as_str(), wanted),
        None => holds(row.starts_with("# "), row),
    }
}

/// Walks all rows of a text, and fails at the first to which something else is told.
pub fn walk(alloc: Global, subject: &mut impl Tells, text: &str) -> Result<(), Fail> {
    for row in text.lines() {
        ask(alloc, subject, row)?;
    }
    Ok(())
}

/// What is told to a name and the numbers behind it.
fn told_of_numbers(
    alloc: Global,
    subject: &mut impl TellsOfNumbers,
    asked: &str,
) -> Result<String, Fail> {
    let (name, rest) = first_word(asked);
    let numbers = numbers(alloc, rest)?;
    subject.told(alloc, name, &numbers)
}

/// The same for a row that asks by a name and numbers.
fn ask_numbers(alloc: Global, subject: &mut impl TellsOfNumbers, row: &str) -> Result<(), Fail> {
    match row.split_once(" -> ") {
        Some((asked, wanted)) => {
            judge(
                row,
                told_of_numbers(alloc, subject, asked)?.as_str(),
                wanted,
            )
        }
        None => holds(row.starts_with("# "), row),
    }
}

/// The same for rows that ask by a name and numbers.
pub fn walk_numbers(
    alloc: Global,
    subject: &mut impl TellsOfNumbers,
    text: &str,
) -> Result<(), Fail> {
    for row in text.lines() {
        ask_numbers(alloc, subject, row)?;
    }
    Ok(())
}

/// Fails with these words where something is not so.
pub fn holds(is_so: bool, what: &str) -> Result<(), Fail> {
    if is_so { Ok(()) } else { Err(Fail::new(what)) }
}

/// A text as it is.
pub fn said(alloc: Global, text: &str) -> Result<String, Fail> {
    Ok(String::from_str(alloc, text)?)
}

/// A value as it is written for debugging.
pub fn shown(alloc: Global, value: &impl Debug) -> Result<String, Fail> {
    Ok(format!(in alloc; "{value:?}")?)
}

/// A number in hexadecimal digits.
pub fn hex(alloc: Global, number: u64) -> Result<String, Fail> {
    Ok(format!(in alloc; "{number:x}")?)
}

/// Numbers with spaces between them.
pub fn numbers(alloc: Global, text: &str) -> Result<Vec<u64>, Fail> {
    let mut numbers = Vec::new(alloc);
    for word in text.split_ascii_whitespace() {
        numbers.push(number_of(word)?)?;
    }
    Ok(numbers)
}

/// A script that is written in one line, with a `;` for each of its line feeds; or so many line feeds behind `lines`.
pub fn script_of(alloc: Global, text: &str) -> Result<Vec<u8>, Fail> {
    let mut script = Vec::new(alloc);
    if let Some(count) = text.strip_prefix("lines ") {
        for _ in 0..number_of(count)? {
            script.push(b'\n')?;
        }
        return Ok(script);
    }
    for byte in text.as_bytes() {
        script.push(if *byte == b';' { b'\n' } else { *byte })?;
    }
    Ok(script)
}
