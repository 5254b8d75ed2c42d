//! The lines of a file of rows.

use crate::number::number_of;

/// A word of an image by its number, and a value for it.
#[derive(Clone, Copy)]
pub struct Word {
    /// Its number, from 0.
    pub number: u64,
    /// The value.
    pub value: u64,
}

/// A text, once for each number of a range.
#[derive(Clone, Copy)]
pub struct Lines<'a> {
    /// The first number.
    pub first: u64,
    /// The last number.
    pub last: u64,
    /// The text, with the places of the number.
    pub text: &'a str,
    /// Whether each ends in a line feed.
    pub ended: bool,
}

/// What the words that no line names must be after a run.
#[derive(Clone, Copy, PartialEq, Eq)]
pub enum Others {
    /// Anything.
    Any,
    /// As before the run.
    Kept,
    /// 0.
    Zero,
}

/// A part of the outside of which calls may fail.
#[derive(Clone, Copy)]
pub enum Part {
    /// The store.
    Store,
    /// The source of the script.
    Source,
    /// The sink of what is written.
    Sink,
}

/// How often the store was written, how many bytes of the script were taken, and how many calls of the store, of the source and of the sink failed.
pub type Counts = [u64; 5];

/// What a line says.
#[derive(Clone, Copy)]
pub enum Line<'a> {
    /// Nothing: an empty line or a comment.
    Nothing,
    /// A row of this name begins.
    Row(&'a str),
    /// The store holds an image of so many words, all 0.
    Image(u64),
    /// A word of the store is set.
    Word(Word),
    /// The store keeps its first bytes, so many, or has zeros behind them.
    Bytes(u64),
    /// These commands are run, one after another.
    Run(&'a str),
    /// Lines of the script.
    Script(Lines<'a>),
    /// Lines that must be written.
    Written(Lines<'a>),
    /// The call of this number fails, of all calls of a part, from 1.
    Fails(Part, u64),
    /// The status that must come.
    Status(u64),
    /// What must be counted.
    Counts(Counts),
    /// A word that must be left.
    Left(Word),
    /// What the other words must be.
    LeftOthers(Others),
    /// How many bytes must be left.
    LeftBytes(u64),
}

/// `N = X`.
fn word_of(text: &str) -> Option<Word> {
    let (left, right) = text.split_once(" = ")?;
    Some(Word {
        number: number_of(left).ok()?,
        value: number_of(right).ok()?,
    })
}

/// What stands behind `fails`.
fn fails_of(text: &str) -> Option<Line<'_>> {
    let (part, call) = text.split_once(' ')?;
    let part = match part {
        "store" => Part::Store,
        "source" => Part::Source,
        "sink" => Part::Sink,
        _ => return None,
    };
    Some(Line::Fails(part, number_of(call).ok()?))
}

/// What stands behind `counts`.
fn counts_of(text: &str) -> Option<Line<'_>> {
    let mut counts = [0; 5];
    let mut words = text.split(' ');
    for count in counts.iter_mut() {
        *count = number_of(words.next()?).ok()?;
    }
    match words.next() {
        None => Some(Line::Counts(counts)),
        Some(_) => None,
    }
}

/// What stands behind `left`.
fn left_of(text: &str) -> Option<Line<'_>> {
    match text {
        "others kept" => Some(Line::LeftOthers(Others::Kept)),
        "others 0" => Some(Line::LeftOthers(Others::Zero)),
        _ => match text.strip_prefix("bytes ") {
            Some(count) => Some(Line::LeftBytes(number_of(count).ok()?)),
            None => Some(Line::Left(word_of(text)?)),
        },
    }
}

/// A line of the script or of what must be written, for each number of a range.
fn text_of<'a>(first: u64, last: u64, mark: &str, text: &'a str) -> Option<Line<'a>> {
    let ended = mark != "<<";
    let lines = Lines {
        first,
        last,
        text,
        ended,
    };
    match mark {
        "<" | "<<" => Some(Line::Script(lines)),
        ">" => Some(Line::Written(lines)),
        _ => None,
    }
}

/// The first word of a text, and what stands behind the space after it: nothing where there is no space.
pub fn first_word(text: &str) -> (&str, &str) {
    text.split_once(' ').unwrap_or((text, ""))
}

/// What stands behind `each`.
fn each_of(line: &str) -> Option<Line<'_>> {
    let (first, line) = line.split_once(' ')?;
    let (last, line) = line.split_once(' ')?;
    let (mark, line) = first_word(line);
    text_of(number_of(first).ok()?, number_of(last).ok()?, mark, line)
}

/// What a line says; none where it is no line of the format.
pub fn line_of(line: &str) -> Option<Line<'_>> {
    if line.is_empty() || line.starts_with('#') {
        return Some(Line::Nothing);
    }
    let (mark, rest) = first_word(line);
    match mark {
        "row" => Some(Line::Row(rest)),
        "image" => Some(Line::Image(number_of(rest).ok()?)),
        "word" => Some(Line::Word(word_of(rest)?)),
        "bytes" => Some(Line::Bytes(number_of(rest).ok()?)),
        "run" => Some(Line::Run(rest)),
        "fails" => fails_of(rest),
        "status" => Some(Line::Status(number_of(rest).ok()?)),
        "counts" => counts_of(rest),
        "left" => left_of(rest),
        "each" => each_of(rest),
        _ => text_of(0, 0, mark, rest),
    }
}
