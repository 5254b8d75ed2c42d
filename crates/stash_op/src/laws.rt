//! The laws of a record that comes to the stash. The functions do nothing: each stands for the law that its contract says.

ghost use Rattle.part.specs.Part.{IsPart, NeverFinished, NeverSplits, EndsAsTold};
ghost use Rattle.part.specs.Causes.{EndsByCause};
ghost use Rattle.stash_op.specs.StashPart.{stash_part, BeginsAsPart, BeginsRemembering, BeginsUndecided, HandsOnAll, HandsOnRemembering};
ghost use Rattle.stash_op.specs.Steps.{end_at};
ghost use Rattle.stash_op.specs.Fits.{outcome_of};
ghost use Rattle.stash_op.specs.Replies.{RepliesAsSeen};

/// A record that comes to the stash is a part of a call, by the laws of `part`: each event is of its kind, which its caller's view
/// may take beside any other callers, and the view after it suits the next step; it ends in time, asks for words of the image, puts
/// words there, leaves no line waiting, and makes its insert with one store, once, whose note is stored before its draw. It begins
/// with what an insert keeps that found no slot and nothing to move. Where both stash buckets are full it hands on all locks and what
/// it knows; else it ends bare, with a reply or to be made again. Each of its outcomes has its cause, in what its attempt did.
pub fn stashes_are_parts()
    ensures part { IsPart stash_part }
    ensures causes { EndsByCause stash_part }
    ensures begins { BeginsAsPart }
    ensures remembers { BeginsRemembering }
    ensures undecided { BeginsUndecided }
    ensures hands_on { HandsOnAll }
    ensures hands_memory { HandsOnRemembering }
    ensures finished { NeverFinished stash_part }
    ensures splits { NeverSplits stash_part }
{}

/// Each reply is told as it was seen: that a lock is spent with the commit counter's value as its place, and that the insert is done
/// by its draw, with the place that was drawn. No other reply is told.
pub fn replies_are_as_seen()
    ensures { RepliesAsSeen }
{}

/// Where it wants nothing more, the end that it tells is the outcome that was decided.
pub fn ends_tell()
    ensures { EndsAsTold stash_part (λ op. outcome_of (end_at op.stage.step)) }
{}
