//! The laws of areas: who holds a word beside the locks of buckets. The functions do nothing: each stands for the law that its contract
//! says.

ghost use Rattle.world.specs.areas.Fitting.{OneHolder, HeldWordsAreNear};
ghost use Rattle.world.specs.areas.Rows.{StoresSpareOthers, RowsKeepFits};
ghost use Rattle.world.specs.areas.Spared.{OtherStoresKeepFits, FencesKeepFits, ForeignWordsAreSpared, SparingStepsKeepFits};
ghost use Rattle.world.specs.areas.Lasting.{OwnersLast, LockedOwnersLast, RowsKeepFrames, RowsKeepOwners, RowsKeepLasting, OtherStoresKeepLasting, SparingStepsKeepLasting, FencesKeepLasting};
ghost use Rattle.world.specs.areas.Guarding.{FreeGuardsAreNobodys, TakenGuardsAreKept, GivenGuardsAreKept, OtherGuardsAreKept};
ghost use Rattle.world.specs.areas.Learning.{RootsTell, EntriesTell, HeadersTell};
ghost use Rattle.world.specs.areas.Beginning.{FreshViewsStand};
ghost use Rattle.world.specs.areas.Seated.{CutsKeepAreas, JoinsKeepAreas};
ghost use Rattle.world.specs.areas.Calling.{CallersKeepAreas};
ghost use Rattle.world.specs.areas.Ready.{SidesAreReadyEverywhere, SidesAreReadyNowhere};
ghost use Rattle.world.specs.areas.Saying.{StoresKeepSaid, FencesKeepSaid, SparingStepsKeepSaid, RowsKeepSaying};

/// A word has one holder: locks and areas of two views have no word in common. A held word is one of the image, and of its first words
/// the root alone.
pub fn words_have_one_holder()
    ensures holder { OneHolder }
    ensures near { HeldWordsAreNear }
{}

/// A store to a held word leaves what others hold as it was.
pub fn stores_spare_others()
    ensures { StoresSpareOthers }
{}

/// Each row of a header, and each store to another word, leaves the words such that all views may have their locks and areas, the
/// storing one too.
pub fn stores_keep_areas()
    ensures rows { RowsKeepFits }
    ensures others { OtherStoresKeepFits }
{}

/// So does a fence, with which a side may be given up, and each step that stores no core and settles nothing. What another view has not
/// settled, no step settles.
pub fn fences_keep_areas()
    ensures fences { FencesKeepFits }
    ensures sparing { SparingStepsKeepFits }
    ensures foreign { ForeignWordsAreSpared }
{}

/// What a segment that lives on owns now it owns in whatever a cut may leave: so one of which a lock is held.
pub fn owners_last()
    ensures living { OwnersLast }
    ensures locked { LockedOwnersLast }
{}

/// Each row of a header leaves a sound frame, the owners of all media, but those of the side that goes live, and what is live in them.
pub fn rows_keep_owners()
    ensures frames { RowsKeepFrames }
    ensures owners { RowsKeepOwners }
    ensures lasting { RowsKeepLasting }
{}

/// So does each other step; with the fence that settles the header of a side, its owners and its life are those of all media.
pub fn other_steps_keep_owners()
    ensures stores { OtherStoresKeepLasting }
    ensures sparing { SparingStepsKeepLasting }
    ensures fences { FencesKeepLasting }
{}

/// A guarded segment whose header and link are settled has a ready side in whatever a cut may leave, or in nothing of it, but for its
/// own side that is not settled: whatever others split meanwhile.
pub fn sides_are_ready_everywhere_or_nowhere()
    ensures everywhere { SidesAreReadyEverywhere }
    ensures nowhere { SidesAreReadyNowhere }
{}

/// What a view says of all media stays so over each store that keeps the fact beside each of them, and over each other step; and over
/// the rows of headers but for claims of the segment whose side goes live, which its holder alone may say.
pub fn said_stays()
    ensures stores { StoresKeepSaid }
    ensures fences { FencesKeepSaid }
    ensures sparing { SparingStepsKeepSaid }
    ensures rows { RowsKeepSaying }
{}

/// Loads tell facts of all media: the root, that its entries name segments that live there; such an entry, that its segment does; the header
/// of such a segment, where it begins, and whether it is current.
pub fn loads_tell()
    ensures root { RootsTell }
    ensures entry { EntriesTell }
    ensures header { HeadersTell }
{}

/// Who has a guard, its word is not that of a free one, so that an exchange from that wins a guard that nobody has: over the stores to
/// guards and to other words.
pub fn guards_are_taken()
    ensures free { FreeGuardsAreNobodys }
    ensures takes { TakenGuardsAreKept }
    ensures gives { GivenGuardsAreKept }
    ensures others { OtherGuardsAreKept }
{}

/// So all this is over fresh views, where the structure is sound and no current segment is split.
pub fn fresh_views_stand()
    ensures { FreshViewsStand }
{}

/// And it stays so where a view is cut in two, and where two are joined.
pub fn seats_keep_areas()
    ensures cuts { CutsKeepAreas }
    ensures joins { JoinsKeepAreas }
{}

/// Each of the kinds of step of callers keeps areas too, where no lock goes back of a segment that its holder has whole, and no fence settles
/// a side as a live segment.
pub fn callers_keep_areas()
    ensures { CallersKeepAreas }
{}
