//! The laws of a close. The functions do nothing: each stands for the law that its contract says.

ghost use Rattle.std.specs.Prelude.{ℕ, ◌≡◌};
ghost use Rattle.image_layout.specs.Places.{Shape, IsShape};
ghost use Rattle.restart_op.specs.Close.{begun};
ghost use Rattle.restart_op.specs.Closing.{events_of, left, Falls, EndsInTime, FewWait, FitsByEvents, QuietAfterRestart, CloseKeeps, CloseSettles, CloseMarks, CloseKeepsStructure, ChangesStateAlone};

/// Each event leaves fewer to do, and so a close ends; and never do more than eight lines wait for a fence.
pub fn close_ends()
    ensures falls { Falls }
    ensures most { (shape : Shape) → IsShape shape → left (begun shape) ≡ events_of shape }
    ensures ends { EndsInTime }
    ensures few_wait { FewWait }
{}

/// What has to hold before a close: all values fit where each event's do, and a restart leaves the world quiet.
pub fn close_begins()
    ensures fits { FitsByEvents }
    ensures quiet { QuietAfterRestart }
{}

/// Whatever a power cut may leave during a close is a sound image with the pairs of the table; and where the close has
/// ended, that is one medium alone, with the marker set, on the structure that it had. At no time has it changed another word than
/// the state word.
pub fn close_keeps()
    ensures cuts { CloseKeeps }
    ensures ends { CloseSettles }
    ensures marks { CloseMarks }
    ensures structure { CloseKeepsStructure }
    ensures others { ChangesStateAlone }
{}
