// What the program is called with: its name, the image's path, and the words.
ghost use Rattle.std.specs.Prelude.{◌≡◌, ◌↔◌, MatchOption, [], drop, map, slice_get, string_bytes};
ghost use Rattle.outside.specs.declared.file.Purpose.TheVariants.{Reading};
ghost use Rattle.command_line.specs.Commands.{LeavesStore};

use crate::command::{Command, command_of};
use outside::Purpose;
use std::alloc::{AllocError, Global};
use std::env;
use std::env::Env;
use std::io::ErrorKind;

/// The arguments, of which the first is the program's name. None where one of them is not UTF-8: they are then none
/// of the commands.
///
/// # Errors
///
/// `AllocError` if there is no memory.
pub fn received<R: Env + AllocGlobal>(rt: &R) -> Result<Vec<String>, AllocError> {
    match env::args(rt) {
        Ok(arguments) => arguments.collect(rt.alloc()),
        Err(error) if error.kind() == ErrorKind::OutOfMemory => Err(AllocError),
        Err(_) => Ok(Vec::new(rt.alloc())),
    }
}

/// The image's path, and the words behind it. The path is empty where there is none.
pub fn parted<'a>(arguments: &'a [String]) -> (&'a str, &'a [String])
    ensures words { result.1.now ≡ drop 2 arguments.now }
    ensures path { MatchOption (slice_get arguments.now 1) (result.0.now ≡ []) (λ path. result.0.now ≡ string_bytes path) }
{
    match arguments {
        [_, path, words @ ..] => (path.as_str(), words),
        _ => ("", &[]),
    }
}

/// The name by which the program was called, for its messages.
pub fn program_of(arguments: &[String]) -> &str {
    match arguments {
        [program, ..] => program.as_str(),
        [] => "dash",
    }
}

/// What the image's file is for: `check` and `list` read it, `storm` leaves it alone, and every other command writes it.
pub fn purpose_of(words: &[String]) -> Purpose
    ensures { (result ≡ Reading) ↔ LeavesStore (map string_bytes words.now) }
{
    match command_of(words) {
        Command::Check | Command::List | Command::Storm(_) => Purpose::Reading,
        Command::Format(_) | Command::Play | Command::Serve | Command::Unknown => {
            Purpose::Writing
        }
    }
}
