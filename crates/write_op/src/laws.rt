//! The laws of a change. The functions do nothing: each stands for the law that its contract says.

ghost use Rattle.part.specs.Part.{IsPart, NeverFinished, NeverSplits, EndsAsTold};
ghost use Rattle.part.specs.Causes.{EndsByCause};
ghost use Rattle.write_op.specs.ChangePart.{change_part, BeginsAsPart, BeginsBare, BeginsRemembering, BeginsUndecided, HandsOnAll, HandsOnRemembering};
ghost use Rattle.write_op.specs.AnyMemory.{EventsHaveKinds, KeepsLoads, TriesFree, AsksInside, AgainByOthers};
ghost use Rattle.write_op.specs.Causes.{PublishesThere, MadeOnlySo, InsertsWhereFewer, RepliesAsSeen, NeverBusy, NeverStale};
ghost use Rattle.write_op.specs.Steps.{end_at};
ghost use Rattle.write_op.specs.Fits.{outcome_of};

/// A change is a part of a call, by the laws of `part`: each event is of its kind, which its caller's view may take beside any
/// other callers, and the view after it suits the next step; it ends in time, asks for words of the image, puts words there, leaves
/// no line waiting, and makes its change with one store, once. It begins with a caller that holds and owes nothing; where it finds no
/// slot it hands on its locks and what it knows; else it ends bare, with a reply, or to be made again or stale, or it finds the power
/// off. Each of its outcomes has its cause, in what its attempt did.
pub fn changes_are_parts()
    ensures part { IsPart change_part }
    ensures causes { EndsByCause change_part }
    ensures begins { BeginsAsPart }
    ensures bare { BeginsBare }
    ensures undecided { BeginsUndecided }
    ensures remembers { BeginsRemembering }
    ensures hands_on { HandsOnAll }
    ensures handed { HandsOnRemembering }
    ensures finished { NeverFinished change_part }
    ensures splits { NeverSplits change_part }
{}

/// An event is of a kind that makes a change exactly at the one store of the record that makes it, and nothing but that store makes the
/// change, however it is answered. A new record comes to the lowest free slot of its home bucket, where that has no more records than
/// the probing bucket by the words that are kept, and else of that. So an attempt that ends otherwise than as done left all pairs as they were.
pub fn changes_are_made_once()
    ensures publishes { PublishesThere }
    ensures only { MadeOnlySo }
    ensures chooses { InsertsWhereFewer }
{}

/// Each reply is told as it was seen: that the key exists, or is absent, by the words of the buckets that were loaded, with the
/// commit counter's value as its place; and that the change is done by its draw, with the place that was drawn.
pub fn replies_are_as_seen()
    ensures { RepliesAsSeen }
{}

/// Whatever words its events find, each of them is of its kind, and what a change keeps was loaded by its attempt, which changed its
/// locks alone before its stores. A lock is tried with a free value that has a next version. Each event asks for a word of the image, or
/// for one right behind it. And an attempt that is told to try again has not changed the word that it is told.
/// In a world, beside any other callers: where nobody else has a lock none is found taken, and where each live segment has the
/// site's version none is stale.
pub fn ends_have_causes()
    ensures kinds { EventsHaveKinds }
    ensures loads { KeepsLoads }
    ensures tries { TriesFree }
    ensures inside { AsksInside }
    ensures others { AgainByOthers }
    ensures alone { NeverBusy }
    ensures current { NeverStale }
{}

/// Where a change wants nothing more, the end that it tells is the outcome that was decided.
pub fn ends_tell()
    ensures { EndsAsTold change_part (λ op. outcome_of (end_at op.stage.step)) }
{}
