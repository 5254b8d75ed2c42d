//! The laws of what is done in a run. The functions do nothing: each stands for the law that its contract says.

ghost use Rattle.core_run.specs.Along.{BeginsAlong, ComesAlong, KeeperLaws};
ghost use Rattle.core_run.specs.Ends.{DriveStays, RestartedStays, RoundStays, RoundsStay, ReadyStays, RunOutStays, LineStays, LinesStay, ClosedStays};
ghost use Rattle.core_run.specs.Ends.{DrivesAreEnough, RestartEnds, RestartOpens, RunOutEnds, ClosedEnds, RunsAreWell};
ghost use Rattle.core_run.specs.Wells.{LinesAreWell};

use crate::{end_rule, states};

/// Turns of the callers have led to an open image, from the beginning on, and each event of a caller is one turn more.
pub fn turns_lead_here()
    ensures begins { BeginsAlong }
    ensures comes { ComesAlong }
{
    restart_op::close_ends();
}

/// What the ends of the restart and of the close rest on.
fn keepers_have_laws()
    ensures { KeeperLaws }
{
    restart_op::restart_ends();
    restart_op::close_ends();
    states::deeds_are_well();
    turns_lead_here();
}

/// A caller that goes on, a restart that is brought to its end, and rounds of turns keep a state of the run.
pub fn drives_stay()
    ensures drive { DriveStays }
    ensures restarted { RestartedStays }
    ensures round { RoundStays }
    ensures rounds { RoundsStay }
    ensures ready { ReadyStays }
{
    states::deeds_are_well();
    turns_lead_here();
}

/// The number of events that a run counts at most is enough: with a greater one a caller goes no further, wherever all others stand.
pub fn drives_are_enough()
    ensures { DrivesAreEnough }
{
    engine::never_again_alone();
    engine::calls_end_alone();
    engine::turns_go_on();
    engine::driven_calls_end();
    keepers_have_laws();
}

/// The restart ends, and leaves the image to the callers.
pub fn restarts_end()
    ensures restart { RestartEnds }
    ensures opens { RestartOpens }
{
    keepers_have_laws();
}

/// Each line, the end rule and the close keep a state of the run; the close begins, and it ends.
pub fn runs_stay_well()
    ensures run_out { RunOutStays }
    ensures line { LineStays }
    ensures lines { LinesStay }
    ensures closed { ClosedStays }
    ensures shut { RunOutEnds }
    ensures ends { ClosedEnds }
{
    restart_op::close_ends();
    states::close_may_begin();
    keepers_have_laws();
    drives_stay();
    restarts_end();
    end_rule::calls_run_out();
}

/// A run is one, whatever its lines are, and without a cut the image is closed at its end.
pub fn runs_are_well()
    ensures { RunsAreWell }
{
    states::run_begins();
    turns_lead_here();
    runs_stay_well();
}

/// Each line of a run, and the end of the calls, leaves a state of the run.
pub fn lines_are_well()
    ensures { LinesAreWell }
{
    states::run_begins();
    turns_lead_here();
    runs_stay_well();
}
