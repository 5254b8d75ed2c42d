//! What a run state leaves.

ghost use Rattle.std.specs.Prelude.{◌≡◌, ◌≤◌, List, length};
ghost use Rattle.trace.specs.Events.{Words, value};
ghost use Rattle.map_model.specs.Roomed.{Roomed};
ghost use Rattle.map_model.specs.Weave.{most_callers};
ghost use Rattle.core_run.specs.Engines.{Core};
ghost use Rattle.pm_trace.specs.TraceOf.{IsTraceOf};
ghost use Rattle.core_run.specs.Run.{medium_words};
ghost use Rattle.core_run.specs.Running.{Setup};
ghost use Rattle.core_run.specs.State.{State};
ghost use Rattle.play.specs.Callers.{callers_of, HaveRoom};
ghost use Rattle.play.specs.RunStates.{IsOf};
ghost use Rattle.play.specs.Played.{stops_of, IsLeftOf};

use crate::caller::Caller;
use crate::run_state::RunState;
use image_file::Medium;
use map_model::{MOST_CALLERS, Stop};
use pm_trace::{ALL_NEWEST, Device};
use reply_text::Session;

/// The medium that is left at a cut with this choice, or else where each newest value has settled.
fn medium_of(device: Device, cut: Option<u64>) -> Medium
    ensures geometry { result.geometry ≡ device.shape }
    ensures words { (start : Words) (core : Core) → IsTraceOf start core.trace device → core.words ≡ value start core.trace
        → result.words ≡ medium_words device.shape start core cut }
{
    trace::settled_values();
    match cut {
        Some(choice) => device.cut(choice),
        None => device.cut(ALL_NEWEST),
    }
}

/// Where the callers stopped, among those of all 64.
fn stops_of(callers: &[Caller]) -> [Option<Stop>; MOST_CALLERS as usize]
    requires { length callers.now ≤ most_callers }
    ensures { (lists : List Roomed) → HaveRoom callers.now lists → result ≡ stops_of (callers_of callers.now lists) }
{
    let mut stops = [None; MOST_CALLERS as usize];
    for index in 0..callers.len() {
        stops[index] = callers[index].stop();
    }
    stops
}

impl RunState {
    /// What it leaves at a cut with this choice, or where it was closed.
    pub(crate) fn into_session(self, cut: Option<u64>) -> Session
        requires { length self.callers.items ≤ most_callers }
        ensures left { (t : Setup) (s : State) → IsOf t self s → IsLeftOf t s cut result }
        ensures lists { result.lists ≡ self.lists }
    {
        let stops = stops_of(&self.callers);
        Session {
            lists: self.lists,
            stops,
            medium: medium_of(self.device, cut),
            cut: cut.is_some(),
        }
    }
}
