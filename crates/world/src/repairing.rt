//! What the holder of a stale segment has to know to repair it. The functions do nothing: each stands for the law that its contract says.

ghost use Rattle.world.specs.Ground.{Ground, IsGround};
ghost use Rattle.world.specs.Views.{View};
ghost use Rattle.world.specs.areas.Repairing.{MayTakeBack, MayRedirect};

/// Who has a stale segment, and knows that its split has no ready side, may free the new side that it has linked, and make it normal again.
pub fn repairers_may_take_back()
    ensures { (site : Ground) (v : View) → IsGround site → MayTakeBack site v }
{}

/// Who has a stale segment with a ready side, and the guard of the directory, may store that side in each entry that names no deeper segment,
/// and settle that all entries of the side name deeper ones.
pub fn repairers_may_redirect()
    ensures { (site : Ground) (v : View) → IsGround site → MayRedirect site v }
{}
