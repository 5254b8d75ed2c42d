//! The law of every moment of a run. The function does nothing: it stands for the law that its contract says.

ghost use Rattle.core_run.specs.Moments.{ActsAreSingle, MomentsOfRuns, EveryMomentIsGood};

use crate::{end_rule, runs, states};

/// Every possible medium at every moment of a run, from its beginning on, restart and close included, is sound and holds the map
/// of the history so far, each open call whole or absent: for up to 64 callers after any acts in any order, where an act is an
/// event of a caller or the beginning of the close, and so after the first so many acts of a run, whatever its lines are. An act
/// does one event at the most, so that no moment is left out.
pub fn every_moment_is_good()
    ensures single { ActsAreSingle }
    ensures acts { MomentsOfRuns }
    ensures runs { EveryMomentIsGood }
{
    states::run_begins();
    states::deeds_are_well();
    states::close_may_begin();
    states::moments_are_good();
    runs::turns_lead_here();
    runs::drives_stay();
    end_rule::calls_run_out();
    runs::runs_stay_well();
}
