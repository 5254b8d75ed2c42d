//! Laws of the restart. The functions do nothing: each stands for the law that its contract says.

ghost use Rattle.restart_op.specs.declared.restart.RestartOp.{RestartOp};
ghost use Rattle.restart_op.specs.Restart.{wanted};
ghost use Rattle.restart_op.specs.Budget.{BeginsWithASweep, Falls, EndsAtNone, IsOnStateOrHead};
ghost use Rattle.restart_op.specs.Restarted.{RestartCounts, RestartAsks, RestartKeeps, EndsStarted, IsRestart, RestartBegins, HasSeats, KeepsPairs, EndsAtRest, EndsOwned, EndsOpen};

/// A restart ends: each answer of the kind that was asked for leaves fewer events, whatever it is, and on an image one fewer. All
/// of them are on the state word and on headers, and a memory of the image has them.
pub fn restart_ends()
    ensures most { BeginsWithASweep }
    ensures falls { Falls }
    ensures none { EndsAtNone }
    ensures words { (op : RestartOp) → IsOnStateOrHead op.geometry (wanted op) }
    ensures counts { RestartCounts }
    ensures asks { RestartAsks }
{}

/// A power cut after any number of events of a restart, also in a sweep, leaves a sound image with the same pairs.
pub fn restart_keeps()
    ensures { RestartKeeps }
{}

/// A restart of a sound image leaves a world that begins, with the image's pairs, for any callers; the version by the state word that it
/// found; current segments at rest, which own their records; and a structure on which callers run.
pub fn restart_begins()
    ensures started { EndsStarted }
    ensures restart { IsRestart }
    ensures begins { RestartBegins }
    ensures seats { HasSeats }
    ensures pairs { KeepsPairs }
    ensures rest { EndsAtRest }
    ensures own { EndsOwned }
    ensures structure { EndsOpen }
{}
