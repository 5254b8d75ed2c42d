//! The texts that lines give: the numbers and the bytes that cannot be written plainly.

use crate::line::Lines;
use anyhow::{Context, Result};

/// The number that stands for what is between braces: the number of the range itself, or that plus a number.
fn filled(number: u64, inside: &str) -> Option<u64> {
    if inside.is_empty() {
        return Some(number);
    }
    let added = inside.strip_prefix('+')?.parse::<u64>().ok()?;
    number.checked_add(added)
}

/// The byte that is written as a backslash and this letter, and what stands behind the letter.
fn escaped(piece: &str) -> Option<(char, &str)> {
    let mut letters = piece.chars();
    let byte = match letters.next()? {
        'n' => '\n',
        'r' => '\r',
        't' => '\t',
        _ => return None,
    };
    Some((byte, letters.as_str()))
}

/// Appends a piece without braces.
fn push_piece(text: &mut String, piece: &str) -> Result<()> {
    for (place, part) in piece.split('\\').enumerate() {
        if place == 0 {
            text.push_str(part)?;
            continue;
        }
        let (byte, rest) = escaped(part).context("a backslash without n, r or t behind it")?;
        text.push(byte)?;
        text.push_str(rest)?;
    }
    Ok(())
}

/// Appends the text for one number.
fn push_one(text: &mut String, template: &str, number: u64) -> Result<()> {
    for (place, piece) in template.split('{').enumerate() {
        if place == 0 {
            push_piece(text, piece)?;
            continue;
        }
        let (inside, rest) = piece.split_once('}').context("a brace that is not closed")?;
        let number = filled(number, inside).context("no number is in the braces")?;
        write!(text, "{number}")?;
        push_piece(text, rest)?;
    }
    Ok(())
}

/// Appends the text once for each number of its range.
pub fn push_lines(text: &mut String, lines: &Lines) -> Result<()> {
    for number in lines.first..=lines.last {
        push_one(text, lines.text, number)?;
        if lines.ended {
            text.push('\n')?;
        }
    }
    Ok(())
}
