//! The calls of the callers among the lines of a script.
ghost use Rattle.std.specs.Prelude.{◌≡◌, length, IfOk};
ghost use Rattle.script_text.specs.Calls.{calls_of, last_caller};

use map_model::Call;
use script_text::Line;
use std::alloc::{AllocError, Global};

/// The last caller that the lines give a call, and 0 where there is none.
pub fn last_caller(lines: &[Line]) -> u8
    ensures { result ≡ last_caller lines.now }
{
    let mut last = 0;
    for line in lines {
        if let Line::Call(number, _) = line
            && *number > last
        {
            last = *number;
        }
    }
    last
}

/// How many calls the lines give to a caller.
fn count_calls_of(lines: &[Line], caller: u8) -> usize
    ensures { result ≡ length (calls_of caller lines.now) }
{
    let mut count = 0;
    for line in lines {
        if let Line::Call(number, _) = line
            && *number == caller
        {
            count += 1;
        }
    }
    count
}

/// The calls that the lines give to a caller, in their order.
///
/// # Errors
///
/// `AllocError` if there is no memory.
pub fn calls_of_caller(alloc: Global, lines: &[Line], caller: u8) -> Result<Vec<Call>, AllocError>
    ensures { IfOk result (λ calls. calls.items ≡ calls_of caller lines.now) }
{
    let mut calls = Vec::with_capacity(alloc, count_calls_of(lines, caller))?;
    for line in lines {
        if let Line::Call(number, call) = line
            && *number == caller
        {
            calls.push(*call)?;
        }
    }
    Ok(calls)
}
