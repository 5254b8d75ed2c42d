//! The laws of legal histories: each function does nothing, and its contract is the law.
ghost use Rattle.map_model.specs.Laws.{LoadedKeepsLegal, DrawnKeepsLegal, LegalByPlaces, WeaveLeavesDraws, LoadedKeepsMaps, DrawnKeepsMaps};

/// One more entry that loaded its place, with a right reply for that place, keeps a history legal.
pub fn loaded_keeps_legal()
    ensures { LoadedKeepsLegal }
{}

/// One more entry that drew the next place, with a right reply for the map of the whole history,
/// keeps it legal.
pub fn drawn_keeps_legal()
    ensures { DrawnKeepsLegal }
{}

/// A history is legal exactly where each entry, looked at alone, is right at its own place.
pub fn legal_by_places()
    ensures { LegalByPlaces }
{}

/// The weave of a legal history leaves the map that its draws leave.
pub fn weave_leaves_draws()
    ensures { WeaveLeavesDraws }
{}

/// One more entry leaves the map at each earlier place as it was, and the map of the whole history
/// is then what the entry makes of it.
pub fn later_entries_keep()
    ensures loaded { LoadedKeepsMaps }
    ensures drawn { DrawnKeepsMaps }
{}
