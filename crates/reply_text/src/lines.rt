// What is written: the lines of `check`, `list` and `storm`, and the lines of refusals.
ghost use Rattle.std.specs.Prelude.{◌≡◌, ◌++◌, OnOk, IfOk, string_bytes};
ghost use Rattle.reply_text.specs.Texts.{marker_text, check_text, pair_line, list_text, storm_text, script_fault_text, image_fault_text};

use crate::left::StormSum;
use image_file::{ImageFault, Summary};
use script_text::ScriptFault;
use std::alloc::{AllocError, Global};

/// The line of a refusal of the words.
pub const USAGE: &str = "fault usage\n";

// How the marker of an image is told.
fn marker(clean: bool) -> &'static str
    ensures { result.now ≡ marker_text clean }
{
    if clean { "clean" } else { "unclean" }
}

/// The line of an image in numbers.
///
/// # Errors
///
/// `AllocError` if there is no memory.
pub fn check_line(alloc: Global, summary: &Summary) -> Result<String, AllocError>
    ensures { IfOk result (λ text. string_bytes text ≡ check_text summary.now) }
{
    let version = summary.version;
    let depth = summary.depth;
    let live = summary.live;
    let pairs = summary.pairs;
    let marker = marker(summary.clean);
    format!(in alloc; "sound {version} {depth} {live} {pairs} {marker}\n")
}

/// The line of what sessions one after another did.
///
/// # Errors
///
/// `AllocError` if there is no memory.
pub fn storm_line(alloc: Global, sum: &StormSum) -> Result<String, AllocError>
    ensures { IfOk result (λ text. string_bytes text ≡ storm_text sum.now) }
{
    let sessions = sum.sessions;
    let replies = sum.replies;
    let opens = sum.opens;
    let pairs = sum.pairs;
    let version = sum.version;
    format!(in alloc; "storm {sessions} {replies} {opens} {pairs} {version}\n")
}

// Appends the line of a pair.
fn push_pair(text: &mut String, pair: (u64, u64)) -> Result<(), AllocError>
    ensures { OnOk result (string_bytes text.new ≡ string_bytes text.old ++ pair_line pair) }
{
    let (key, value) = pair;
    write!(text, "{key} {value}\n")
}

/// The lines of pairs.
///
/// # Errors
///
/// `AllocError` if there is no memory.
pub fn list_lines(alloc: Global, pairs: &[(u64, u64)]) -> Result<String, AllocError>
    ensures { IfOk result (λ text. string_bytes text ≡ list_text pairs.now) }
{
    let mut text = String::new(alloc);
    for pair in pairs {
        push_pair(&mut text, *pair)?;
    }
    Ok(text)
}

/// The line of a refused script. Want of memory is no fault of it, and has no line.
///
/// # Errors
///
/// `AllocError` if there is no memory.
pub fn script_fault(alloc: Global, fault: ScriptFault) -> Result<String, AllocError>
    ensures { IfOk result (λ text. string_bytes text ≡ script_fault_text fault) }
{
    match fault {
        ScriptFault::Word { line } => format!(in alloc; "fault script word line {line}\n"),
        ScriptFault::Number { line } => format!(in alloc; "fault script number line {line}\n"),
        ScriptFault::Caller { line } => format!(in alloc; "fault script caller line {line}\n"),
        ScriptFault::Order { line } => format!(in alloc; "fault script order line {line}\n"),
        ScriptFault::TooLong { line } => format!(in alloc; "fault script toolong line {line}\n"),
        ScriptFault::NoMemory => Ok(String::new(alloc)),
    }
}

/// The line of a refused image. Want of memory is no fault of it, and has no line.
///
/// # Errors
///
/// `AllocError` if there is no memory.
pub fn image_fault(alloc: Global, fault: ImageFault) -> Result<String, AllocError>
    ensures { IfOk result (λ text. string_bytes text ≡ image_fault_text fault) }
{
    match fault {
        ImageFault::Length => String::from_str(alloc, "fault image length\n"),
        ImageFault::Magic => String::from_str(alloc, "fault image magic\n"),
        ImageFault::Format => String::from_str(alloc, "fault image format\n"),
        ImageFault::Geometry => String::from_str(alloc, "fault image geometry\n"),
        ImageFault::Unsound { rule, word } => {
            let number = rule.number();
            format!(in alloc; "fault image rule {number} word {word}\n")
        }
        ImageFault::NoMemory => Ok(String::new(alloc)),
    }
}
