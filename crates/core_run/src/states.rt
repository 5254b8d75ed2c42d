//! The laws of the states of a run. The functions do nothing: each stands for the law that its contract says.

ghost use Rattle.core_run.specs.Running.{DeedsAreWell};
ghost use Rattle.core_run.specs.States.{RunBegins, CloseMayBegin, MomentsAreGood, ClosedIsClosed, ToldsFollow};

/// Each event of a state of a run is one that a memory may be asked for, and leaves a state of the run.
pub fn deeds_are_well()
    ensures { DeedsAreWell }
{
    restart_op::close_ends();
    engine::opened_holds();
    engine::turn_keeps();
    engine::asks_within();
    engine::flushes_are_few();
}

/// A run begins with a state of the run, whatever it is set up with.
pub fn run_begins()
    ensures { RunBegins }
{}

/// Where no engine runs, the close may begin.
pub fn close_may_begin()
    ensures { CloseMayBegin }
{}

/// At any moment the replies so far are one legal history, and whatever a power cut may leave is a sound image of the same shape
/// with that history's map, each open call whole or absent; and each refusal had its cause: full buckets, no free
/// slot, or a number that is spent.
pub fn moments_are_good()
    ensures { MomentsAreGood }
{
    engine::holding_is_good();
    engine::through_is_quiet();
    restart_op::restart_keeps();
    restart_op::restart_begins();
    restart_op::close_keeps();
}

/// Where the image is closed, the newest words may be left, are a sound image with the marker set, and have the history's map;
/// and each call has its reply.
pub fn closed_is_closed()
    ensures { ClosedIsClosed }
{
    engine::through_is_quiet();
    restart_op::restart_begins();
    restart_op::close_keeps();
}

/// What each caller was told follows its script: its calls are the first of it, in their order, and at most one is open.
pub fn tolds_follow()
    ensures { ToldsFollow }
{}
