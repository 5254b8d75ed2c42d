//! The laws of all kinds of step. The functions do nothing: each stands for the law that its contract says.

ghost use Rattle.world.specs.Ground.{Ground};
ghost use Rattle.world.specs.Laws.{ChangesOneWord};
ghost use Rattle.world.specs.StepKinds.{StepKind};
ghost use Rattle.world.specs.Slots.{SlotsStayTaken, TakenStays, FullsAreTaken, StaysCurrent, NewSlotsWereFree, RestsAreQuiet, OthersAreQuiet};
ghost use Rattle.world.specs.Slots.{CurrentStays, NothingGrowsStale, StaleStays, RenewedAreCurrent, CurrentIsRepaired, UsedStays, FreedByRepairs, FreeSlotsStayTaken, FreeSlotsStayTakenInMedia, CurrentSegmentsRest};
ghost use Rattle.world.specs.StepLaws.{Keeps, MildKindsKeep, MediaStand, PowerStays, StepsDoEvents, KeepsWell, OtherStepsKeepPairs, SpentLocksStay, RepliesComeLater, CutsKeep, JoinsKeep, CallsLeaveAreas, CallsWithoutAreas, KnowWithoutAreas, CallsSpareTheStructure};

/// A peek, a look at the power, a flush and the cut of the power keep the invariant, whatever areas their view has.
pub fn mild_kinds_keep()
    ensures { MildKindsKeep }
{}

/// Each kind of step keeps the invariant, for any number of callers, by a condition on the stepping caller's view alone.
pub fn each_step_keeps()
    ensures { (site : Ground) (kind : StepKind) → Keeps site kind }
{}

/// Whatever a power cut may leave has a sound structure, is a table, and stands in the history in which all
/// replies are right.
pub fn media_stand()
    ensures { MediaStand }
{}

/// A step leaves the words that its event makes of them; what a want leaves differs in one word at most.
pub fn steps_do_events()
    ensures words { StepsDoEvents }
    ensures one { ChangesOneWord }
{}

/// Each step keeps the world well: words, views and the events of the device.
pub fn worlds_stay_well()
    ensures { KeepsWell }
{}

/// No step but the one that stores it changes the power word; each leaves lock words of live segments that are free with the last version;
/// each that makes no change leaves what every key has; and it leaves a later view.
pub fn steps_leave()
    ensures power { PowerStays }
    ensures spent { SpentLocksStay }
    ensures pairs { OtherStepsKeepPairs }
    ensures later { RepliesComeLater }
{}

/// What holds stays so where a view is cut in two, and where two are joined.
pub fn seats_keep()
    ensures cuts { CutsKeep }
    ensures joins { JoinsKeep }
{}

/// A step of a caller's kinds leaves the areas of its view; where there are none, no kind asks more of the view than its condition, and the
/// view knows what the conditions rest on.
pub fn calls_need_no_areas()
    ensures leave { CallsLeaveAreas }
    ensures may { CallsWithoutAreas }
    ensures know { KnowWithoutAreas }
{}

/// No step of a caller's kinds stores to a word of the structure: a header, a link, the root, an entry.
pub fn calls_spare_the_structure()
    ensures { CallsSpareTheStructure }
{}

/// Where each live segment has the image's version, a step leaves each taken slot taken, in the newest words and in whatever a cut may leave,
/// and each live segment of that version; and the slot that it takes for a new side was free. Who tells that no slot is free finds each taken
/// in whatever a cut may leave.
pub fn slots_stay()
    ensures taken { SlotsStayTaken }
    ensures media { TakenStays }
    ensures full { FullsAreTaken }
    ensures current { StaysCurrent }
    ensures new { NewSlotsWereFree }
{}

/// Where no view has areas, no guard is taken, and no segment is split, where each live one has the image's version. Where no view but one has
/// areas, a guard that is taken is that view's, and it has each segment whole that is split.
pub fn rests_are_quiet()
    ensures nobody { RestsAreQuiet }
    ensures others { OthersAreQuiet }
{}

/// A step leaves each current segment current, and makes none stale. A stale one stays stale until it is renewed; one that is renewed was stale
/// and is current. So what was stale and is current behind a step is repaired: normal, with its own records alone, each key once, exact notes and
/// no lock taken.
pub fn stale_segments_only_go()
    ensures current { CurrentStays }
    ensures stale { NothingGrowsStale }
    ensures stays { StaleStays }
    ensures renewed { RenewedAreCurrent }
    ensures repaired { CurrentIsRepaired }
{}

/// A slot is used where its segment is live, or is the new side of a splitting segment of the image's version: it stays so, and no other slot is
/// freed but the side of a stale segment. So a slot that was free at the start and is taken stays taken, in the newest words and in whatever
/// a cut may leave.
pub fn used_slots_stay()
    ensures used { UsedStays }
    ensures freed { FreedByRepairs }
    ensures taken { FreeSlotsStayTaken }
    ensures media { FreeSlotsStayTakenInMedia }
{}

/// Where no view has areas no current segment is split. Where no view but one has areas, one that is split is whole in that view.
pub fn current_segments_rest()
    ensures { CurrentSegmentsRest }
{}
