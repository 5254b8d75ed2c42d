//! The laws of a caller that steps alone. The functions do nothing: each stands for the laws that its contract says.

ghost use Rattle.engine.specs.Alone.{AllRestAtStart, AloneAtStart, RestingIsAlone, OwnTurnsStayAlone, AloneNeverAgain, EndsAreTold, EndsTell, EndedRests, OthersStayResting};
ghost use Rattle.engine.specs.Alone.{DueAtStart, EventsAreFew, AloneLeavesFewer};

use crate::{causes, driven, laws, turns};

/// While one caller steps and all others stand between two attempts, no attempt of it that begins then ends in Again: nothing that it
/// loaded has moved but by itself, and a lock or a guard that is taken is another's, that is in the midst of an attempt. At the beginning all
/// callers rest; a caller whose attempt ended rests; where all rest each is alone, and its own turns leave it so. And whoever has its
/// turn, its attempt ends with a reply, in Again, with a segment that is to be split or to be repaired, or with a split or a repair, which is
/// what its end tells.
pub fn never_again_alone()
    ensures start { AllRestAtStart }
    ensures start_alone { AloneAtStart }
    ensures rests { RestingIsAlone }
    ensures stays { OwnTurnsStayAlone }
    ensures never { AloneNeverAgain }
    ensures told { EndsAreTold }
    ensures tell { EndsTell }
    ensures ended { EndedRests }
    ensures others { OthersStayResting }
{
    laws::calls_are_parts();
    laws::attempts_have_causes();
    turns::opened_holds();
    turns::turn_keeps();
    causes::ends_have_causes();
}

/// A call of a caller that steps while all others stand between two attempts ends: it encloses no segment but one without room, so that each
/// split takes a free slot; it repairs none but a stale one, which then has the image's version, and frees one slot at the most for it; no other
/// event frees a slot, and none makes a segment stale. Each event of it leaves fewer events of the call, of which there are never more than
/// `events_of_call`.
pub fn calls_end_alone()
    ensures start { DueAtStart }
    ensures few { EventsAreFew }
    ensures fewer { AloneLeavesFewer }
{
    split_op::new_slots_were_free();
    directory_op::free_guards_are_won();
    rest_op::rests_are_parts();
    laws::calls_are_parts();
    never_again_alone();
    driven::turns_go_on();
    driven::driven_calls_end();
}
