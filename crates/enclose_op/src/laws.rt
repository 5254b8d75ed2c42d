//! The laws of an enclosing. The functions do nothing: each stands for the law that its contract says.

ghost use Rattle.part.specs.Part.{IsPart, EndsAsTold};
ghost use Rattle.part.specs.Splits.{EndsBySplitCause};
ghost use Rattle.enclose_op.specs.GiveLaws.{GiveStands};
ghost use Rattle.enclose_op.specs.Steps.{end_at};
ghost use Rattle.enclose_op.specs.Ends.{outcome_told};
ghost use Rattle.enclose_op.specs.EnclosePart.{enclose_part, segment_of, BeginsAsPart, BeginsUndecided, BeginsRemembering, HandsOnWhole, HandsOnRemembered, FindsRoom, KeepsRoom, SaysOfHeld};

/// The enclosing of a segment is a part of a call, beside any other callers: it takes the guard and the 66 locks of a segment that its
/// caller knows to be live and current, and loads the header and all words of the buckets. It gives everything back where the header
/// does not lead to the hash of its key any more, where there is room, where a lock is another's or has come to its last version, and
/// where the segment is as deep as the image allows, which is told with its cause. Else it hands on the whole segment, with what its
/// caller holds and knows of it. Where it says that there may be room, the newest words have room for its key, or the header has another
/// version or does not lead there any more; and none of its events makes room in a segment that has none. That there may be room, and that
/// the segment is as deep as the image allows, it says while the guard and all 66 locks of the segment are held.
pub fn enclosings_are_parts()
    ensures part { IsPart enclose_part }
    ensures begins { BeginsAsPart }
    ensures undecided { BeginsUndecided }
    ensures whole { HandsOnWhole }
    ensures room { FindsRoom }
    ensures keeps { KeepsRoom }
    ensures held { SaysOfHeld }
{}

/// Each outcome of an enclosing has its cause, beside any other callers. A guard or lock that is told busy is that of the segment, or of one of
/// its buckets once the guard was taken; another has it now, and the attempt did not change it. A lock that is told to have moved was
/// loaded as free, and has another free value now. A lock that is spent was loaded with its last version. And a segment that is as deep as
/// the image allows was enclosed by this attempt, and the words that it loaded say that there was no room, and how deep it is. Nothing is
/// remembered at first but that no word was changed; of a segment that is handed on it is remembered that its guard and all its locks were
/// taken, that no other word was changed, and that the header and all words were loaded as they are kept.
pub fn ends_have_causes()
    ensures causes { EndsBySplitCause enclose_part segment_of }
    ensures remembers { BeginsRemembering }
    ensures remembered { HandsOnRemembered }
{}

/// Who holds the guard of a segment and the locks of some of its buckets, knows words of it alone, and has nothing unsettled, planned, under
/// way or owed, may give all back, one after another, until it holds and knows nothing.
pub fn all_is_given_back()
    ensures { GiveStands }
{}

/// Where an enclosing wants nothing more, the end that it tells is the outcome that was decided; of a segment that is handed on nothing is.
pub fn ends_tell()
    ensures { EndsAsTold enclose_part (λ op. outcome_told (end_at op.step)) }
{}
