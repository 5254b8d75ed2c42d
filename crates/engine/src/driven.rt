//! The laws of a caller that is driven. The functions do nothing: each stands for the laws that its contract says.

ghost use Rattle.engine.specs.Driven.{TriesAreOthers, TurnsGoOn, AttemptsAreShort, OwnTurnsStayStill, OwnTurnsStayDue, OwnTurnsLeaveFewer, EndsBeginAnew, BegunIsDue, EndsLeaveNothing};
ghost use Rattle.engine.specs.Seen.{ToldNothingSeesNothing};

use crate::{causes, laws, single, turns};

/// Whoever has its turn, wherever all others stand: where it does not try in vain for the guard of the directory and then waits for it, its turn
/// leaves fewer events of its attempt, of which there are never more than `most_alone`; and where it tries in vain another caller has the guard,
/// which is in the midst of an attempt and does not wait for the guard itself.
pub fn turns_go_on()
    ensures tries { TriesAreOthers }
    ensures goes { TurnsGoOn }
    ensures short { AttemptsAreShort }
{
    split_op::new_slots_were_free();
    directory_op::free_guards_are_won();
    rest_op::rests_are_parts();
    laws::calls_are_parts();
    laws::attempts_have_causes();
    turns::opened_holds();
    turns::turn_keeps();
}

/// A call whose caller alone has turns, wherever all others stand, comes to an end, or to an attempt that ends in Again, or to a wait for the guard of
/// the directory: what its attempt loaded stays as it is; what it splits or repairs stays due; and while it is due each event leaves fewer events
/// of the call. A split or a repair that has done its work is followed by an attempt of the call, which is due.
pub fn driven_calls_end()
    ensures still { OwnTurnsStayStill }
    ensures due { OwnTurnsStayDue }
    ensures fewer { OwnTurnsLeaveFewer }
    ensures anew { EndsBeginAnew }
    ensures begins { BegunIsDue }
{
    world::slots_stay();
    world::used_slots_stay();
    world::stale_segments_only_go();
    read_op::gets_are_parts();
    write_op::changes_are_parts();
    move_op::moves_are_parts();
    stash_op::stashes_are_parts();
    release_op::releases_find_no_room();
    enclose_op::enclosings_are_parts();
    split_op::new_slots_were_free();
    directory_op::free_guards_are_won();
    rest_op::rests_are_parts();
    laws::calls_are_parts();
    laws::attempts_have_causes();
    turns::opened_holds();
    turns::turn_keeps();
    causes::ends_have_causes();
    single::never_again_alone();
}

/// An attempt that ends without a reply leaves nothing behind: its caller holds and owes nothing, has drawn nothing, was told what it had
/// been told, and has seen no more by the turn that ends it, which leaves the pairs; and its call has begun. By all turns of such attempts, whatever the
/// others do meanwhile, their caller has seen no more: it was told nothing. That they leave the pairs is what [`crate::refusals_leave_pairs`] says.
pub fn ends_leave_nothing()
    ensures ends { EndsLeaveNothing }
    ensures told { ToldNothingSeesNothing }
{
    world::worlds_stay_well();
    world::slots_stay();
    world::used_slots_stay();
    world::steps_leave();
    world::steps_do_events();
    laws::calls_are_parts();
    laws::fits_the_world();
    laws::stores_are_words();
    laws::refusals_leave_pairs();
    turns::turn_keeps();
    causes::ends_have_causes();
}
