//! The laws of the end rule. The function does nothing: it stands for the laws that its contract says.

ghost use Rattle.core_run.specs.Rounds.{FirstRoundRests, SecondRoundRests, TurnEndsCall, TurnOfNone, RoundsEnd, RoundsAreEnough, OneCallersTurnEndsCall, OneCallersRoundsEnd};

use crate::{runs, states};

/// By the end rule all calls run out: after its first round each caller rests between two attempts or waits for the guard of the directory,
/// after its second all rest, and from then on each turn of a caller that has a call left ends that call. So it takes two rounds more at the
/// most than there are calls, which are no more than there are events. Where one caller alone has calls, each of its turns ends a call, in the
/// first round already; so as many rounds as there are calls are enough.
pub fn calls_run_out()
    ensures first { FirstRoundRests }
    ensures second { SecondRoundRests }
    ensures turn { TurnEndsCall }
    ensures none { TurnOfNone }
    ensures rounds { RoundsEnd }
    ensures few { RoundsAreEnough }
    ensures one_turn { OneCallersTurnEndsCall }
    ensures one_rounds { OneCallersRoundsEnd }
{
    engine::turns_keep();
    engine::ends_have_causes();
    engine::never_again_alone();
    engine::turns_go_on();
    states::deeds_are_well();
    runs::drives_stay();
    runs::drives_are_enough();
}
