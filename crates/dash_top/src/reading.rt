// The script and the image, read from the outside.
ghost use Rattle.std.specs.Prelude.{◌≡◌, ◌≤◌, ℕ, List, All, length, IfOk, IfErr};
ghost use Rattle.outside.specs.Causes.{Rose};
ghost use Rattle.script_text.specs.declared.line.Line.{Line};
ghost use Rattle.script_text.specs.Script.{most_script_lines, IsScript};
ghost use Rattle.script_text.specs.Calls.{IsLineSoFar};
ghost use Rattle.dash_top.specs.Bytes.{ReadsScript, ReadsSound};
ghost use Rattle.dash_top.specs.Reading.{HasScriptCause, HasImageCause};

use crate::work::Refused;
use image_file::{ImageFault, Medium, WORD_BYTES, from_bytes};
use image_layout::MOST_WORDS;
use outside::{Source, Store, StoreFault, take_all};
use script_text::{MOST_BYTES, Mode, Script, ScriptFault, parse};
use std::alloc::Global;

/// The most bytes that an image has: eight for each of its words.
pub const MOST_IMAGE_BYTES: u64 = WORD_BYTES as u64 * MOST_WORDS;

/// Reads a script of this mode, to its end.
pub fn read_script<S: Source>(alloc: Global, input: &mut S, mode: Mode) -> Result<Script, Refused>
    ensures ok { IfOk result (λ lines. (script : List ℕ) × ReadsScript (S.left input.old) (S.left input.new) script × IsScript mode script lines) }
    ensures few { IfOk result (λ lines. length lines ≤ most_script_lines) }
    ensures so_far { IfOk result (All IsLineSoFar) }
    ensures err { IfErr result (HasScriptCause mode (S.left input.old) (S.left input.new) (S.faults input.old) (S.faults input.new)) }
{
    let script = match take_all(alloc, input, MOST_BYTES as u64) {
        Ok(script) => script,
        Err(StoreFault::Failed) => return Err(Refused::Source),
        Err(StoreFault::NoMemory) => return Err(Refused::NoMemory),
    };
    match parse(alloc, mode, &script) {
        Ok(lines) => Ok(lines),
        Err(ScriptFault::NoMemory) => Err(Refused::NoMemory),
        Err(fault) => Err(Refused::Script(fault)),
    }
}

/// Reads the image of the store, which stays.
pub fn read_image<I: Store>(alloc: Global, image: &mut I) -> Result<Medium, Refused>
    ensures ok { IfOk result (λ medium. ReadsSound (I.contents image.old) medium.geometry medium.words) }
    ensures err { IfErr result (HasImageCause (I.contents image.old) (I.faults image.old) (I.faults image.new)) }
    ensures later { I.faults image.old ≤ I.faults image.new }
    ensures keeps { I.contents image.new ≡ I.contents image.old }
    ensures unwritten { I.writes image.new ≡ I.writes image.old }
{
    let start = match image.read_all(alloc, MOST_IMAGE_BYTES) {
        Ok(start) => start,
        Err(StoreFault::Failed) => return Err(Refused::Store),
        Err(StoreFault::NoMemory) => return Err(Refused::NoMemory),
    };
    match from_bytes(alloc, &start) {
        Ok(medium) => Ok(medium),
        Err(ImageFault::NoMemory) => Err(Refused::NoMemory),
        Err(fault) => Err(Refused::Image(fault)),
    }
}
