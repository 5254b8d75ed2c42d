//! The laws of the redirecting of entries. The functions do nothing: each stands for the law that its contract says.

ghost use Rattle.part.specs.Part.{IsPart};
ghost use Rattle.part.specs.Repairs.{EndsByRepairCause};
ghost use Rattle.repair_op.specs.Finishing.{StaysOld};
ghost use Rattle.redirect_op.specs.RedirectPart.{redirect_part, segment_of, BeginsAsPart, BeginsUndecided, BeginsWithinImage, BeginsRemembering, HandsOnRedirected, EndsAsSaid};

/// The redirecting of the entries of a stale segment's ready side is a part, beside any other callers: it begins with a guarded segment, and
/// takes the guard of the directory; where another has that, it gives the guard of the segment back. An entry that names no deeper segment
/// than the stale one is to name the side; it hands on the segment once it is settled that no entry leads past the side, with the guard of
/// the directory given back, or at once where there is no ready side. It makes at most 4 events, and 5 for each entry of the image's deepest
/// area.
pub fn redirects_are_parts()
    ensures part { IsPart redirect_part }
    ensures begins { BeginsAsPart }
    ensures undecided { BeginsUndecided }
    ensures few { BeginsWithinImage }
    ensures redirected { HandsOnRedirected }
    ensures ends { EndsAsSaid }
{}

/// Its only outcome is that another has the guard of the directory, which the attempt, that took the guard of the segment, did not change; and
/// the segment has not the image's version then.
pub fn ends_have_causes()
    ensures causes { EndsByRepairCause redirect_part segment_of }
    ensures old { StaysOld redirect_part segment_of }
    ensures remembers { BeginsRemembering }
{}
