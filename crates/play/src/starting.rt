//! What a play starts with: callers with their calls, and a run state before its restart.

ghost use Rattle.std.specs.Prelude.{◌≡◌, ◌≤◌, [], List, length, map, IfOk};
ghost use Rattle.map_model.specs.declared.call.Call.{Call as SaidCall};
ghost use Rattle.map_model.specs.Weave.{first_caller};
ghost use Rattle.image_layout.specs.Places.{words_of};
ghost use Rattle.script_text.specs.Script.{most_script_lines};
ghost use Rattle.core_run.specs.State.{waiting};
ghost use Rattle.core_run.specs.Wells.{start_state};
ghost use Rattle.play.specs.Callers.{caller_of, calls_in, AreWaiting};
ghost use Rattle.play.specs.RunStates.{IsOf};
ghost use Rattle.play.specs.Played.{scripts_of, setup_of};

use crate::caller::Caller;
use crate::calls::{calls_of_caller, last_caller};
use crate::run_state::RunState;
use core_run::Keeper;
use image_file::Medium;
use image_layout::Geometry;
use image_layout::state::NO_VERSION;
use map_model::{Call, Lists, MOST_CALLERS, NoMemory};
use pm_trace::Device;
use restart_op::RestartOp;
use script_text::Line;
use std::alloc::{AllocError, Global};
use world::Site;

/// The greatest number of a caller.
const CALLERS: u8 = MOST_CALLERS as u8;

/// A caller, before the restart has ended.
fn waiting_caller(geometry: Geometry, number: u8, calls: Vec<Call>) -> Caller
    ensures caller { caller_of result [] ≡ waiting geometry number calls.items }
    ensures ended { result.ended ≡ 0 }
{
    Caller {
        site: Site {
            geometry,
            version: NO_VERSION,
            caller: number,
        },
        calls,
        ended: 0,
        engine: None,
        begun: false,
        drew: None,
    }
}

/// The callers that the lines give calls, from 1 to the last, before the restart has ended.
///
/// # Errors
///
/// `AllocError` if there is no memory.
pub(crate) fn waiting_callers(
    alloc: Global,
    geometry: Geometry,
    lines: &[Line],
) -> Result<Vec<Caller>, AllocError>
    ensures { IfOk result (λ callers. AreWaiting geometry first_caller (scripts_of lines.now) callers.items) }
{
    let last = last_caller(lines);
    let mut callers = Vec::with_capacity(alloc, last as usize)?;
    for before in 0..last {
        let calls = calls_of_caller(alloc, lines, before + 1)?;
        callers.push(waiting_caller(geometry, before + 1, calls))?;
    }
    Ok(callers)
}

/// How many calls they have.
pub(crate) fn count_calls(callers: &[Caller]) -> usize
    requires { calls_in callers.now ≤ most_script_lines }
    ensures { result ≡ calls_in callers.now }
{
    let mut count = 0;
    for caller in callers {
        count += caller.calls.len();
    }
    count
}

/// For how many entries each caller needs room.
fn rooms_for(alloc: Global, callers: &[Caller]) -> Result<Vec<u64>, AllocError>
    ensures { IfOk result (λ rooms. rooms.items ≡ map (λ r. length r.calls.items) callers.now) }
{
    let mut rooms = Vec::with_capacity(alloc, callers.len())?;
    for caller in callers {
        rooms.push(caller.calls.len() as u64)?;
    }
    Ok(rooms)
}

/// The run state over an image with these callers, before its restart.
pub(crate) fn begin(
    alloc: Global,
    medium: Medium,
    callers: Vec<Caller>,
) -> Result<RunState, NoMemory>
    requires { length medium.words ≡ words_of medium.geometry }
    ensures { IfOk result (λ run_state. (scripts : List (List SaidCall)) → AreWaiting medium.geometry first_caller scripts callers.items
        → IsOf (setup_of medium.geometry medium.words scripts) run_state (start_state (setup_of medium.geometry medium.words scripts))) }
{
    let geometry = medium.geometry;
    let rooms = rooms_for(alloc, &callers)?;
    let lists = Lists::new(alloc, &rooms)?;
    Ok(RunState {
        device: Device::new(alloc, medium, CALLERS)?,
        keeper: Keeper::Restarting(RestartOp::new(geometry)),
        callers,
        lists,
    })
}
