//! The laws of a split. The functions do nothing: each stands for the law that its contract says.

ghost use Rattle.part.specs.Part.{IsPart};
ghost use Rattle.part.specs.Splits.{EndsBySplitCause};
ghost use Rattle.split_op.specs.SplitPart.{split_part, segment_of, IsWithinImage, BeginsAsPart, CopiesSide, BeginsUndecided, BeginsRemembering, HandsOnCopied, SaysFullOfHeld, TakesFreeSlot, NewSlotStays};

/// The split of an enclosed segment, up to the copies, is a part of a call: each of its events is one that a view may take that holds the
/// segment whole; at most 12935 are made, and one more for each slot of the image, so never more than 29319; and never more than eight
/// lines are flushed and not fenced; where no slot is free, or the guard of free slots is another's, it gives everything back. It begins undecided, with a segment that is kept whole and the words of its side: those
/// of the records of the 1-side, with exact notes. It hands on where the segment is splitting, with its new side linked, and the side has the
/// copies, with exact notes and free locks, all of it settled.
pub fn splits_are_parts()
    ensures part { IsPart split_part }
    ensures few { IsWithinImage }
    ensures begins { BeginsAsPart }
    ensures copies { CopiesSide }
    ensures undecided { BeginsUndecided }
    ensures hands { HandsOnCopied }
{}

/// Each outcome of a split, up to the copies, has its cause, beside any other callers. The guard of free slots that is told busy is another's
/// now, and the attempt did not change it. Where there is no room in the table, the segment was enclosed by this attempt, and the words that
/// it loaded say that there was no room in it, and that it is less deep than the image allows; it took the guard of free slots, and of each
/// slot it loaded a header that is not free; and that is decided while this guard, that of the segment and all its locks are held. A split begins with what the enclosing remembers: that the guard and all locks of the segment were taken
/// and no other word was changed, and that the header and all words were loaded as they are kept.
pub fn ends_have_causes()
    ensures causes { EndsBySplitCause split_part segment_of }
    ensures held { SaysFullOfHeld }
    ensures remembers { BeginsRemembering }
{}

/// The slot that a split takes for the side becomes new with one event, the store of its header, before which it was free; it stays new, and it is
/// where the split hands on.
pub fn new_slots_were_free()
    ensures takes { TakesFreeSlot }
    ensures stays { NewSlotStays }
{}
