//! What came out beside what must come out.

ghost use Rattle.std.specs.Prelude.{◌≡◌, IfOk, IsNone};

use row_file::{Others, WORD_BYTES, Word, word_at};
use std::alloc::{AllocError, Global};

/// That a line is this, and not that; none where a text ends before.
fn line_told(
    alloc: Global,
    number: u64,
    came: Option<&str>,
    wanted: Option<&str>,
) -> Result<String, AllocError> {
    match (came, wanted) {
        (Some(came), Some(wanted)) => {
            format!(in alloc; "line {number} is `{came}`, and not `{wanted}`")
        }
        (Some(came), None) => format!(in alloc; "line {number}, `{came}`, is not wanted"),
        (None, Some(wanted)) => format!(in alloc; "line {number}, `{wanted}`, is wanting"),
        (None, None) => format!(in alloc; "there is no line {number}"),
    }
}

/// The first line that differs between two texts, in words.
pub fn line_difference(
    alloc: Global,
    came: &str,
    wanted: &str,
) -> Result<Option<String>, AllocError>
    ensures { IfOk result (λ difference. IsNone difference → came.now ≡ wanted.now) }
{
    if came == wanted {
        return Ok(None);
    }
    let mut wanted_lines = wanted.lines();
    let mut came_lines = came.lines();
    for number in 1..u64::MAX {
        let line = came_lines.next();
        let other = wanted_lines.next();
        if line.is_none() && other.is_none() {
            break;
        }
        if line != other {
            return Ok(Some(line_told(alloc, number, line, other)?));
        }
    }
    Ok(Some(String::from_str(alloc, "the ends of lines differ")?))
}

/// That a word is this, and not that; none where the image does not have it.
fn told(
    alloc: Global,
    number: u64,
    came: Option<u64>,
    wanted: Option<u64>,
) -> Result<String, AllocError> {
    match (came, wanted) {
        (Some(came), Some(wanted)) => {
            format!(in alloc; "word {number} is {came}, and not {wanted}")
        }
        (Some(came), None) => format!(in alloc; "word {number} is {came}, and new"),
        (None, _) => format!(in alloc; "there is no word {number}"),
    }
}

/// What a word that no line names must be.
fn other_word(before: &[u8], others: Others, number: u64) -> Option<u64> {
    match others {
        Others::Zero => Some(0),
        _ => word_at(before, number),
    }
}

/// The first word that is not what it must be, in words.
pub fn word_difference(
    alloc: Global,
    before: &[u8],
    after: &[u8],
    left: &[Word],
    others: Others,
) -> Result<Option<String>, AllocError> {
    for word in left {
        let came = word_at(after, word.number);
        if came != Some(word.value) {
            return Ok(Some(told(alloc, word.number, came, Some(word.value))?));
        }
    }
    if others == Others::Any {
        return Ok(None);
    }
    for number in 0..after.len() as u64 / WORD_BYTES {
        if left.iter().any(|word| word.number == number) {
            continue;
        }
        let came = word_at(after, number);
        let wanted = other_word(before, others, number);
        if came != wanted {
            return Ok(Some(told(alloc, number, came, wanted)?));
        }
    }
    Ok(None)
}
