//! The laws of the beginning of a repair. The functions do nothing: each stands for the law that its contract says.

ghost use Rattle.part.specs.Part.{IsPart};
ghost use Rattle.part.specs.Repairs.{EndsByRepairCause};
ghost use Rattle.repair_op.specs.Finishing.{FinishesCurrent, StaysOld};
ghost use Rattle.repair_op.specs.Guarded.{GuardedAreStale};
ghost use Rattle.repair_op.specs.RepairPart.{repair_part, segment_of, BeginsAsRepair, BeginsUndecided, BeginsRemembering, HandsOnGuarded, HandsOnRemembered, EndsAsSaid};

/// The beginning of a repair is a part, beside any other callers: it takes the guard of a segment that its caller knows to be live, and loads
/// the header. It gives the guard back where the segment has the image's version by now, and where another has a guard that it needs. It
/// takes back a split that has no ready side: a new side becomes free, under the guard of free slots, and then the segment normal. It hands
/// on the segment with its guard, where that is normal, or has a ready side: with what its caller knows of it then.
pub fn repairs_are_parts()
    ensures part { IsPart repair_part }
    ensures begins { BeginsAsRepair }
    ensures undecided { BeginsUndecided }
    ensures guarded { HandsOnGuarded }
    ensures ends { EndsAsSaid }
{}

/// Each outcome of the beginning of a repair has its cause, beside any other callers. A guard that is told busy is that of the segment, or
/// that of free slots once the guard of the segment was taken; another has it now, and the attempt did not change it. A segment that is told
/// repaired was loaded with the image's version, and has it in the newest words. One has not that version where the guard of free slots is told
/// busy; where its own guard is, nothing is said of its header. Nothing is remembered at first but that no word was changed; of a segment that is
/// handed on it is remembered that its guard was taken, and that of the directory was not.
pub fn ends_have_causes()
    ensures causes { EndsByRepairCause repair_part segment_of }
    ensures current { FinishesCurrent repair_part segment_of }
    ensures old { StaysOld repair_part segment_of }
    ensures remembers { BeginsRemembering }
    ensures remembered { HandsOnRemembered }
{}

/// Who has a segment as it is handed on has a stale segment, by any words with its header: so it may do what the world allows who has one.
pub fn guarded_segments_are_stale()
    ensures { GuardedAreStale }
{}
