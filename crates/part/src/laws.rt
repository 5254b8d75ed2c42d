//! The laws. The functions do nothing: each stands for the law that its contract says.

ghost use Rattle.part.specs.Part.{IsPart};
ghost use Rattle.part.specs.Turns.{TurnKeeps};
ghost use Rattle.part.specs.Doings.{NothingIsStill, OwnEventsKeepStill};
ghost use Rattle.part.specs.Causes.{EndsByCause, AloneNothingMoves, AloneNothingLeadsAway, AloneNeverMoved};
ghost use Rattle.part.specs.Count.{count_part, BeginsAsPart, BeginsRemembering, BeginsUndecided, first_count, two_counts, two_or_one_counts};
ghost use Rattle.part.specs.Count.{EndsAsRepair, ThreeEndAsRepair};

/// What an attempt loaded is still so, or it changed that itself: so it is at the beginning, and after each event of its own,
/// whichever it is. So nothing moves for a caller while nobody else steps; and where the structure is sound and no segment of the
/// image's version is being split, each header of this version that it found leads to its key.
pub fn own_events_move_nothing()
    ensures begins { NothingIsStill }
    ensures own { OwnEventsKeepStill }
    ensures alone { AloneNothingMoves }
    ensures leads { AloneNothingLeadsAway }
{}

/// A count is a part of a call, and each of its outcomes has its cause. It begins with a view that suits it, remembering that it did
/// nothing, and with nothing decided.
pub fn counts_are_parts()
    ensures part { IsPart count_part }
    ensures causes { EndsByCause count_part }
    ensures begins { BeginsAsPart }
    ensures remembers { BeginsRemembering }
    ensures undecided { BeginsUndecided }
{}

/// A count that hands on where it has counted is one too.
pub fn first_counts_are_parts()
    ensures part { IsPart first_count }
    ensures causes { EndsByCause first_count }
{}

/// Two counts, one after another, are a part, whose outcomes have their causes: by the law of one part after another.
pub fn two_counts_are_a_part()
    ensures part { IsPart two_counts }
    ensures causes { EndsByCause two_counts }
{
    counts_are_parts();
    first_counts_are_parts();
}

/// Either two counts or one, under names of its own, is a part, whose outcomes have their causes: by the laws of either of two parts,
/// and of a part under other names.
pub fn two_counts_or_one_are_a_part()
    ensures part { IsPart two_or_one_counts }
    ensures causes { EndsByCause two_or_one_counts }
{
    counts_are_parts();
    two_counts_are_a_part();
}

/// Three counts, one after another, end by the causes of a repair, each of them whatever segment it is taken to repair: they find the
/// power off, or have done their work. By the law of one part after another, used twice.
pub fn counts_end_as_repairs()
    ensures count { EndsAsRepair count_part }
    ensures first { EndsAsRepair first_count }
    ensures three { ThreeEndAsRepair }
{
    counts_are_parts();
    first_counts_are_parts();
}

/// A turn of a caller that counts twice keeps the invariant, the pairs and the power word, and leaves a view that suits the counts, or
/// the attempt has ended; and to a caller alone it never says that a word moved, where no segment of the image's version is splitting:
/// by the laws of a turn of any part.
pub fn turns_of_counts_keep()
    ensures keeps { TurnKeeps two_counts }
    ensures alone { AloneNeverMoved two_counts }
{
    world::each_step_keeps();
    world::steps_add_one_reply();
    world::structure_steps_change_no_pair();
    world::steps_leave();
    two_counts_are_a_part();
}
