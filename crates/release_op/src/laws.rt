//! The laws of a release. The functions do nothing: each stands for the law that its contract says.

ghost use Rattle.part.specs.Part.{IsPart, NeverFinished, EndsAsTold};
ghost use Rattle.part.specs.Causes.{EndsByCause};
ghost use Rattle.release_op.specs.ReleasePart.{release_part, BeginsAsPart, BeginsRemembering, BeginsUndecided};
ghost use Rattle.release_op.specs.Steps.{end_of};
ghost use Rattle.release_op.specs.Ends.{outcome_of, TellsNoOther};
ghost use Rattle.release_op.specs.Split.{NeedsSplitNow, LeavesThere};

/// An insert that found no slot, nothing to move, and both stash buckets full, gives its locks back as a part of a call, one after
/// another, at most six. Its outcome is that the segment is to be split, and has its cause in what the attempt loaded: there is no room in
/// that segment. It begins undecided, with the view and the memory of the insert that hands on to it, and never ends as who has done
/// its work.
pub fn releases_are_parts()
    ensures part { IsPart release_part }
    ensures causes { EndsByCause release_part }
    ensures begins { BeginsAsPart }
    ensures remembers { BeginsRemembering }
    ensures undecided { BeginsUndecided }
    ensures finished { NeverFinished release_part }
{}

/// Where an event of a release decides that a segment is to be split, there is no room in it for the key by the newest words, beside any
/// other callers; from then on the caller knows the segment to be live and current, and the call inserts a key that is a word, so
/// that its next attempt may begin with the segment's enclosing. And a release never tells another outcome.
pub fn releases_find_no_room()
    ensures now { NeedsSplitNow }
    ensures there { LeavesThere }
    ensures no_other { TellsNoOther }
{}

/// Where a release wants nothing more, the end that it tells is the outcome that was decided.
pub fn ends_tell()
    ensures { EndsAsTold release_part (λ op. outcome_of (end_of op)) }
{}
