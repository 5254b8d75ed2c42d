//! A script from its start to its end.

ghost use Rattle.std.specs.Prelude.{◌≡◌, ◌≤◌, All, length, IfOk};
ghost use Rattle.map_model.specs.Roomed.{lists_of};
ghost use Rattle.map_model.specs.Weave.{most_callers};
ghost use Rattle.script_text.specs.Script.{most_script_lines};
ghost use Rattle.script_text.specs.Calls.{IsLineSoFar};
ghost use Rattle.sound_image.specs.Image.{IsSoundImage};
ghost use Rattle.core_run.specs.Run.{cut_of, most_with, most_events};
ghost use Rattle.reply_text.specs.Told.{replies_in};
ghost use Rattle.play.specs.Played.{IsPlay};

use crate::run_state::RunState;
use crate::starting::{begin, count_calls, waiting_callers};
use core_run::events_of_call;
use image_file::Medium;
use image_layout::Geometry;
use map_model::NoMemory;
use reply_text::Session;
use script_text::{Line, Script};
use std::alloc::Global;

/// The choice of the power cut with which a script ends, if it does.
fn cut_of(lines: &[Line]) -> Option<u64>
    ensures { result ≡ cut_of lines.now }
{
    for line in lines {
        if let Line::Cut(choice) = line {
            return Some(*choice);
        }
    }
    None
}

/// At most so many events does any line make.
fn most_events(geometry: &Geometry, calls: usize) -> u64
    requires { calls ≤ most_script_lines }
    ensures { result ≡ most_with geometry.now calls }
{
    2 * geometry.words() + events_of_call(geometry) * (calls as u64 + 1)
}

/// Runs a script on a sound image: its restart, its calls by the lines of the schedule, and a close where no
/// cut ends it. All memory is taken before the first event.
///
/// # Errors
///
/// `NoMemory` if memory runs out.
pub fn play(alloc: Global, medium: Medium, script: &Script) -> Result<Session, NoMemory>
    requires sound { IsSoundImage medium.geometry medium.words }
    requires few { length script.now ≤ most_script_lines }
    requires so_far { All IsLineSoFar script.now }
    ensures played { IfOk result (IsPlay medium.geometry medium.words script.now) }
    ensures few_lists { IfOk result (λ left. length left.lists ≤ most_callers) }
    ensures few_replies { IfOk result (λ left. replies_in (lists_of left.lists) ≤ length script.now) }
{
    core_run::run_begins();
    core_run::lines_are_well();
    core_run::runs_are_sessions();
    let lines = script.as_slice();
    let callers = waiting_callers(alloc, medium.geometry, lines)?;
    let most = most_events(&medium.geometry, count_calls(&callers));
    let mut run_state = begin(alloc, medium, callers)?;
    run_state.do_lines(most, lines);
    let cut = cut_of(lines);
    run_state.end_run(most, cut);
    Ok(run_state.into_session(cut))
}
