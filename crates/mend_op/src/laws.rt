//! The laws of a mending. The functions do nothing: each stands for the law that its contract says.

ghost use Rattle.part.specs.Part.{IsPart};
ghost use Rattle.part.specs.Repairs.{EndsByRepairCause};
ghost use Rattle.repair_op.specs.Finishing.{FinishesCurrent};
ghost use Rattle.mend_op.specs.MendPart.{mend_part, segment_of, BeginsAsPart, BeginsUndecided, BeginsRemembering, EndsRepaired};

/// A mending is a part of a call that ends with no reply: beside any other callers it loads all words of a stale segment, ends its split where
/// that has a ready side, clears the records that the segment does not own and of each key all but the first, frees its locks, stores exact
/// notes, gives the segment the image's version, and gives its guard back. It begins with what a redirecting hands on, undecided.
pub fn mends_are_parts()
    ensures part { IsPart mend_part }
    ensures begins { BeginsAsPart }
    ensures undecided { BeginsUndecided }
{}

/// A mending ends with the segment repaired: where it wants nothing more it has finished, and then its attempt has stored the header with the
/// image's version, and in the newest words it has that. It is told of no lock and of no guard, and not that the power is off; nothing is remembered
/// at first.
pub fn mends_end_repaired()
    ensures finished { EndsRepaired }
    ensures causes { EndsByRepairCause mend_part segment_of }
    ensures current { FinishesCurrent mend_part segment_of }
    ensures remembers { BeginsRemembering }
{}
