// A run of a script on an image, in the script's mode.
ghost use Rattle.std.specs.Prelude.{◌≤◌, All, length, IfOk};
ghost use Rattle.map_model.specs.Weave.{most_callers};
ghost use Rattle.sound_image.specs.Image.{IsSoundImage};
ghost use Rattle.script_text.specs.Script.{most_script_lines};
ghost use Rattle.script_text.specs.Calls.{IsLineSoFar};
ghost use Rattle.dash_top.specs.Ran.{HasRun};

use image_file::Medium;
use map_model::NoMemory;
use reply_text::Session;
use script_text::{Mode, Script};
use serve::{play, serve};
use std::alloc::Global;
use std::marker::Sync;
use std::sync::Wait;
use std::thread::Threads;

/// Runs a script on an image: in turns, or a thread for each caller.
pub fn run<R: Threads + Wait + Sync>(
    rt: &R,
    alloc: Global,
    mode: Mode,
    medium: Medium,
    script: &Script,
) -> Result<Session, NoMemory>
    requires sound { IsSoundImage medium.geometry medium.words }
    requires few { length script.now ≤ most_script_lines }
    requires so_far { All IsLineSoFar script.now }
    ensures ran { IfOk result (HasRun mode medium.geometry medium.words script.now) }
    ensures few_lists { IfOk result (λ left. length left.lists ≤ most_callers) }
{
    match mode {
        Mode::Play => play(alloc, medium, script),
        Mode::Serve => serve(rt, alloc, medium, script),
    }
}
