//! The laws of the machine. The functions do nothing: each stands for the law that its contract says.

ghost use Rattle.part.specs.Part.{IsPart};
ghost use Rattle.part.specs.Splits.{EndsBySplitCause};
ghost use Rattle.directory_op.specs.DirectoryPart.{directory_part, segment_of, BeginsAsPart, BeginsWithinImage, BeginsUndecided, HandsOnPublished, HandsOnSplit, EndsOff, WinsWhereFree};

/// The doubling of the directory and the publishing of a side are a part of a call, beside any other callers: the deeper area is filled
/// before the root is stored, the side goes live with its copies, and it is settled that all its entries name it before the guard is given
/// back. No reply is entered, and no change is made. It begins with what a split has copied, and nothing is decided; from there on it makes at
/// most 18 events, and 7 for each entry of the image's deepest area, but while it waits for the guard. Where it hands on, the side is live and
/// all its entries name it, the guard is given back, and the segment that is split is held and known as before, with nothing of the 1-side: so
/// the rest of the split may begin. It ends in no other way but with the power off, and holds then what it held.
pub fn publishings_are_parts()
    ensures part { IsPart directory_part }
    ensures few { BeginsWithinImage }
    ensures begins { BeginsAsPart }
    ensures undecided { BeginsUndecided }
    ensures published { HandsOnPublished }
    ensures split { HandsOnSplit }
    ensures off { EndsOff }
{
    world::holders_may_publish();
}

/// Its only outcome is that the power is off, and that has its cause: its event loaded the power word, which was not that of a power that is on.
/// Nothing else is told by what it loads: a root that is deeper than the image allows is never found, nor one so deep that is to be one deeper.
pub fn outcomes_have_causes()
    ensures { EndsBySplitCause directory_part segment_of }
{}

/// The guard of the directory is won where it is free. As long as nobody else has it, each event leaves fewer events, also of those that are
/// done while the guard is waited for: so who is alone waits for nobody.
pub fn free_guards_are_won()
    ensures { WinsWhereFree }
{}
