//! What a turn and an attempt rest on. The functions do nothing: each stands for the laws that its contract says.

ghost use Rattle.shared_call.specs.Laws.{MachineLaws, TurnLaws, AttemptLaws};
ghost use Rattle.shared_call.specs.Attempts.{BeginsGoing, EndsOver};
ghost use Rattle.shared_call.specs.Tries.{BeginsRepairing};

/// The machines of an attempt are one part, and each outcome has its cause.
fn machines_have_laws()
    ensures { MachineLaws }
{
    engine::calls_are_parts();
}

/// What a turn rests on.
pub fn turns_have_laws()
    ensures { TurnLaws }
{
    machines_have_laws();
    engine::attempts_end();
    world::steps_add_one_reply();
    world::structure_steps_change_no_pair();
    world::steps_leave();
}

/// What an attempt rests on.
pub fn attempts_have_laws()
    ensures { AttemptLaws }
{
    machines_have_laws();
    engine::calls_are_parts();
    engine::fits_the_world();
    engine::attempts_end();
}

/// An attempt is under way where its engine has done nothing yet and the view suits it, be it that of a call, of a split or of a repair; and
/// where its engine wants nothing more it is over: with a reply, or with none, and then, unless the power was found off, the view suits the next
/// attempt of a caller that has a number. So begins, of such a caller, the repair of a segment that the view knows to be live.
pub fn attempts_begin_and_end()
    ensures begins { BeginsGoing }
    ensures ends { EndsOver }
    ensures repairs { BeginsRepairing }
{
    attempts_have_laws();
}
