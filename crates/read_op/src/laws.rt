//! The laws of a get. The functions do nothing: each stands for the law that its contract says.

ghost use Rattle.std.specs.Prelude.{◌≤◌};
ghost use Rattle.world.specs.Ground.{Ground as Image};
ghost use Rattle.world.specs.Views.{View};
ghost use Rattle.read_op.specs.declared.op.ReadOp.{ReadOp};
ghost use Rattle.part.specs.Part.{IsPart, NeverFinished, NeverSplits};
ghost use Rattle.part.specs.Causes.{EndsByCause};
ghost use Rattle.read_op.specs.GetPart.{get_part, BeginsAsPart, BeginsUndecided, BeginsRemembering, EndsAsSaid};
ghost use Rattle.read_op.specs.Fits.{BeginsSuited, WantsByKind, MayStep, KeepsSuits};
ghost use Rattle.read_op.specs.Budget.{most_events, left, Falls, EndsInTime, AsksWithin};
ghost use Rattle.read_op.specs.Causes.{ReadsAlone, AnswersBySame, BusyIsAnothers, NeverBusy, NeverStale};
ghost use Rattle.read_op.specs.AnyMemory.{EndsByCauseAnywhere, KeepsLoads};

/// Each event leaves fewer to do, of at most `most_events`, so that a get ends after that many.
pub fn ends_in_time()
    ensures falls { Falls }
    ensures most { (op : ReadOp) → left op.step ≤ most_events }
    ensures ends { EndsInTime }
{}

/// A get asks for words of the image, the commit counter and the power word alone, in any state.
pub fn asks_within()
    ensures { AsksWithin }
{}

/// A get fits the world: each event that it wants is one of a kind, and a view that suits it may take that step.
pub fn fits_the_world()
    ensures begins { BeginsSuited }
    ensures wants { (site : Image) (op : ReadOp) → WantsByKind site op }
    ensures may { (site : Image) (op : ReadOp) (v : View) → MayStep site op v }
    ensures keeps { KeepsSuits }
{}

/// A get is a part of a call: it fits the world, ends in time, asks for words of the image alone, and stores nothing; and each of
/// its outcomes has its cause, in what its attempt did. It begins with a view that suits it, undecided, having done nothing, and
/// at its end it tells its outcome: a reply, or that it is to be made again, stale or off.
pub fn gets_are_parts()
    ensures part { IsPart get_part }
    ensures causes { EndsByCause get_part }
    ensures begins { BeginsAsPart }
    ensures undecided { BeginsUndecided }
    ensures remembers { BeginsRemembering }
    ensures ends { EndsAsSaid }
    ensures finished { NeverFinished get_part }
    ensures splits { NeverSplits get_part }
{
    ends_in_time();
    asks_within();
    fits_the_world();
    ends_have_causes();
}

/// A get only reads, so the change that it finds between two looks at a word is not its own; and its answer comes by a lock word
/// that was free and is as it was. Whatever values its events find, each of its ends has its cause in the event by which it comes
/// and in what was loaded before it, and what it keeps to tell was loaded, in that order. In a world, a lock that is found taken is
/// another caller's: there is none where no lock of a current segment is taken; and no segment is stale where all have the image's
/// version.
pub fn ends_have_causes()
    ensures reads { ReadsAlone }
    ensures answers { AnswersBySame }
    ensures causes { EndsByCauseAnywhere }
    ensures loads { KeepsLoads }
    ensures others { BusyIsAnothers }
    ensures alone { NeverBusy }
    ensures current { NeverStale }
{}
