//! The laws of a displacement. The functions do nothing: each stands for the law that its contract says.

ghost use Rattle.part.specs.Part.{IsPart, NeverFinished, NeverSplits, EndsAsTold};
ghost use Rattle.part.specs.Causes.{EndsByCause};
ghost use Rattle.move_op.specs.MovePart.{move_part, MoveBeginsAsPart, MoveBeginsRemembering, MoveBeginsUndecided, MoveHandsOnAll, MovesInOrder};
ghost use Rattle.move_op.specs.Steps.{end_at};
ghost use Rattle.move_op.specs.Fits.{outcome_of};
ghost use Rattle.move_op.specs.Replies.{MoveRepliesAsSeen};

/// A displacement is a part of a call, by the laws of `part`: each event is of its kind, which its
/// caller's view may take beside any other callers, and the view after it suits the next step; it ends in time, asks for words of the
/// image, puts words there, leaves no line waiting, and makes its insert with one store, once. It begins where an insert found its
/// home and probing bucket full and hands on its locks; where no record can move it hands them on in turn, with those of the two
/// third buckets and what it knows of them; else it ends bare, with a reply or to be made again. Each of its outcomes has its cause
/// in what its attempt did.
pub fn moves_are_parts()
    ensures part { IsPart move_part }
    ensures causes { EndsByCause move_part }
    ensures begins { MoveBeginsAsPart }
    ensures undecided { MoveBeginsUndecided }
    ensures remembers { MoveBeginsRemembering }
    ensures hands_on { MoveHandsOnAll }
    ensures finished { NeverFinished move_part }
    ensures splits { NeverSplits move_part }
{}

/// Where a record is stored, the one that moves is the lowest that may, by the words that are kept: forward where one may move on to the
/// next bucket, and else backward; and it comes to the lowest free slot of its new bucket.
pub fn moves_in_order()
    ensures { MovesInOrder }
{}

/// Each reply is told as it was seen: that a lock is spent with the commit counter's value as its place, and that the insert is done
/// by its draw, with the place that was drawn. A displacement tells no other reply.
pub fn replies_are_as_seen()
    ensures { MoveRepliesAsSeen }
{}

/// Where a displacement wants nothing more, the end that it tells is the outcome that was decided.
pub fn ends_tell()
    ensures { EndsAsTold move_part (λ op. outcome_of (end_at op.step)) }
{}
