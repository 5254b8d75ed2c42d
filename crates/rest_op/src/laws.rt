//! The law of the rest of a split. The function does nothing: it stands for the law that its contract says.

ghost use Rattle.part.specs.Part.{IsPart};
ghost use Rattle.part.specs.Splits.{EndsBySplitCause};
ghost use Rattle.rest_op.specs.RestPart.{rest_part, segment_of, BeginsAsPart, ReckonsRight, BeginsUndecided, EndsAsSplit, StoresHeader};

/// The rest of a split is a part of a call that ends with no reply: beside any other callers it clears the records of which its segment has
/// nothing any more, ends the split, stores exact notes, and gives all back, the whole segment with the first lock. It begins with what the
/// publishing of the side hands on, undecided, and with what is reckoned of a whole segment, which is right. It ends with the split made: that
/// is its only outcome, and it is told of no lock, of no guard, and not that the power is off. By then it has stored the header, of a normal
/// segment one deeper than it was, with a 0 behind its pattern and of the same version.
pub fn rests_are_parts()
    ensures part { IsPart rest_part }
    ensures causes { EndsBySplitCause rest_part segment_of }
    ensures begins { BeginsAsPart }
    ensures reckoned { ReckonsRight }
    ensures undecided { BeginsUndecided }
    ensures finished { EndsAsSplit }
    ensures header { StoresHeader }
{}
