// What each command does between the outside's bytes.
ghost use Rattle.std.specs.Prelude.{◌≡◌, ◌≢◌, ◌⊎◌, ◌+◌, ◌<◌, ◌≤◌, ℕ, List, OnOk, IfOk, IfErr, map, string_bytes, false};
ghost use Rattle.outside.specs.Storing.{most_writes};
ghost use Rattle.command_line.specs.Commands.{LeavesStore, words_of_mode, IsStormSize, ReadsSource};
ghost use Rattle.dash_top.specs.Bytes.{bytes_told};
ghost use Rattle.dash_top.specs.Reading.{HasImageCause};
ghost use Rattle.dash_top.specs.Work.{StoresNew, Checks, ListsPairs, Runs, TellsStorm, IsDone, HasCause, HasFormatCause, output_bytes};

use crate::reading::{read_image, read_script};
use crate::running::run;
use command_line::{Command, StormSize, command_of};
use image_file::{ImageFault, check, format, list, to_bytes};
use image_layout::Geometry;
use map_model::NoMemory;
use outside::{Failed, Source, Store};
use reply_text::{check_line, list_lines, storm_line, transcript};
use script_text::{Mode, ScriptFault};
use std::alloc::{AllocError, Global};
use std::marker::Sync;
use std::sync::Wait;
use std::thread::Threads;
use storm::storm;

/// Why a command is refused: it stops before all is done.
#[derive(Clone, Copy, Debug, PartialEq, Eq)]
pub enum Refused {
    /// The words are none of the commands.
    Words,
    /// The script has this fault, which is not want of memory.
    Script(ScriptFault),
    /// The image has this fault, which is not want of memory.
    Image(ImageFault),
    /// The source failed.
    Source,
    /// The store failed.
    Store,
    /// Memory was wanting.
    NoMemory,
}

impl From<AllocError> for Refused {
    ghost use Rattle.std.specs.Prelude.{◌≡◌};
    ghost use Rattle.dash_top.specs.declared.work.Refused.TheVariants.{NoMemory};

    ghost from_gives = { λ _ e. e ≡ NoMemory };

    fn from(_error: AllocError) -> Refused {
        Refused::NoMemory
    }
}

impl From<NoMemory> for Refused {
    ghost use Rattle.std.specs.Prelude.{◌≡◌};
    ghost use Rattle.dash_top.specs.declared.work.Refused.TheVariants.{NoMemory};

    ghost from_gives = { λ _ e. e ≡ NoMemory };

    fn from(_error: NoMemory) -> Refused {
        Refused::NoMemory
    }
}

/// What a command writes.
#[derive(Drop)]
pub enum Output {
    /// Nothing.
    Nothing,
    /// A text.
    Text(String),
    /// The lines of a transcript.
    Lines(Vec<u8>),
}

impl Output {
    /// Its bytes.
    pub fn as_bytes(&self) -> &[u8]
        ensures { result.now ≡ output_bytes self.now }
    {
        match self {
            Output::Nothing => &[],
            Output::Text(text) => text.as_bytes(),
            Output::Lines(bytes) => bytes.as_slice(),
        }
    }
}

// Stores the image of an empty table.
fn format_image<I: Store>(alloc: Global, image: &mut I, geometry: Geometry) -> Result<(), Refused>
    requires { I.writes image.old < most_writes }
    ensures ok { OnOk result (StoresNew (I.contents image.old) (I.contents image.new) geometry) }
    ensures once { OnOk result (I.writes image.new ≡ I.writes image.old + 1) }
    ensures kept { OnOk result (I.lost image.new ≡ false) }
    ensures err { IfErr result (HasFormatCause (I.contents image.old) (I.contents image.new) (I.writes image.old) (I.writes image.new) (I.lost image.new)
        (I.faults image.old) (I.faults image.new)) }
{
    let medium = format(alloc, geometry)?;
    let bytes = to_bytes(alloc, &medium)?;
    match image.write_all(&bytes) {
        Ok(()) => Ok(()),
        Err(Failed) => Err(Refused::Store),
    }
}

// The line of the image in numbers.
fn check_image<I: Store>(alloc: Global, image: &mut I) -> Result<String, Refused>
    ensures ok { IfOk result (λ text. Checks (I.contents image.old) (string_bytes text)) }
    ensures err { IfErr result (HasImageCause (I.contents image.old) (I.faults image.old) (I.faults image.new)) }
    ensures keeps { I.contents image.new ≡ I.contents image.old }
    ensures unwritten { I.writes image.new ≡ I.writes image.old }
{
    let medium = read_image(alloc, image)?;
    let text = check_line(alloc, &check(&medium))?;
    Ok(text)
}

// The lines of the image's pairs.
fn list_image<I: Store>(alloc: Global, image: &mut I) -> Result<String, Refused>
    ensures ok { IfOk result (λ text. ListsPairs (I.contents image.old) (string_bytes text)) }
    ensures err { IfErr result (HasImageCause (I.contents image.old) (I.faults image.old) (I.faults image.new)) }
    ensures keeps { I.contents image.new ≡ I.contents image.old }
    ensures unwritten { I.writes image.new ≡ I.writes image.old }
{
    let medium = read_image(alloc, image)?;
    let pairs = list(alloc, &medium)?;
    let text = list_lines(alloc, &pairs)?;
    Ok(text)
}

// Reads a script of this mode and the image, runs the one on the other, writes the image, and answers the transcript.
fn run_script<R: Threads + Wait + Sync, I: Store, S: Source>(
    rt: &R,
    alloc: Global,
    mode: Mode,
    image: &mut I,
    input: &mut S,
) -> Result<Vec<u8>, Refused>
    requires { I.writes image.old < most_writes }
    ensures ok { IfOk result (λ lines. Runs mode (bytes_told (I.contents image.old) (I.contents image.new) (I.writes image.old) (I.writes image.new) (I.lost image.new) (S.left input.old) (S.left input.new)) lines.items) }
    ensures once { IfOk result (λ lines. I.writes image.new ≡ I.writes image.old + 1) }
    ensures kept { IfOk result (λ lines. I.lost image.new ≡ false) }
    ensures err { IfErr result (HasCause (bytes_told (I.contents image.old) (I.contents image.new) (I.writes image.old) (I.writes image.new) (I.lost image.new) (S.left input.old) (S.left input.new))
        (words_of_mode mode) (S.faults input.old) (S.faults input.new) (I.faults image.old) (I.faults image.new)) }
{
    let script = read_script(alloc, input, mode)?;
    let medium = read_image(alloc, image)?;
    let session = run(rt, alloc, mode, medium, &script)?;
    let lines = transcript(alloc, &session)?;
    let ending = to_bytes(alloc, &session.medium)?;
    match image.write_all(&ending) {
        Ok(()) => Ok(lines),
        Err(Failed) => Err(Refused::Store),
    }
}

// The line of a storm of this size.
fn storm_in_memory(alloc: Global, size: StormSize) -> Result<String, NoMemory>
    requires { IsStormSize size }
    ensures { IfOk result (λ text. TellsStorm size (string_bytes text)) }
{
    let sum = storm(alloc, size.seed, size.sessions, size.calls)?;
    let text = storm_line(alloc, &sum)?;
    Ok(text)
}

/// Does what the words ask for, and answers what is to be written. `check`, `list` and `storm` leave the store as it is, and only
/// `play` and `serve` read the source.
pub fn perform<R: Threads + Wait + Sync, I: Store, S: Source>(
    rt: &R,
    alloc: Global,
    words: &[String],
    image: &mut I,
    input: &mut S,
) -> Result<Output, Refused>
    requires { I.writes image.old < most_writes }
    ensures ok { IfOk result (λ output. IsDone (bytes_told (I.contents image.old) (I.contents image.new) (I.writes image.old) (I.writes image.new) (I.lost image.new) (S.left input.old) (S.left input.new))
        (map string_bytes words.now) (output_bytes output)) }
    ensures err { IfErr result (HasCause (bytes_told (I.contents image.old) (I.contents image.new) (I.writes image.old) (I.writes image.new) (I.lost image.new) (S.left input.old) (S.left input.new))
        (map string_bytes words.now) (S.faults input.old) (S.faults input.new) (I.faults image.old) (I.faults image.new)) }
    ensures readers_keep { LeavesStore (map string_bytes words.now) → I.contents image.new ≡ I.contents image.old }
    ensures readers_write_nothing { LeavesStore (map string_bytes words.now) → I.writes image.new ≡ I.writes image.old }
    ensures no_second_write { I.writes image.new ≤ I.writes image.old + 1 }
    ensures source_left { (ReadsSource (map string_bytes words.now) → ⊥) → S.left input.new ≡ S.left input.old }
    ensures source_still { (ReadsSource (map string_bytes words.now) → ⊥) → S.faults input.new ≡ S.faults input.old }
{
    match command_of(words) {
        Command::Format(geometry) => {
            format_image(alloc, image, geometry)?;
            Ok(Output::Nothing)
        }
        Command::Check => {
            let text = check_image(alloc, image)?;
            Ok(Output::Text(text))
        }
        Command::List => {
            let text = list_image(alloc, image)?;
            Ok(Output::Text(text))
        }
        Command::Play => {
            let lines = run_script(rt, alloc, Mode::Play, image, input)?;
            Ok(Output::Lines(lines))
        }
        Command::Serve => {
            let lines = run_script(rt, alloc, Mode::Serve, image, input)?;
            Ok(Output::Lines(lines))
        }
        Command::Storm(size) => {
            let text = storm_in_memory(alloc, size)?;
            Ok(Output::Text(text))
        }
        Command::Unknown => Err(Refused::Words),
    }
}
