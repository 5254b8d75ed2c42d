//! What the holder of a stale segment has to know to mend it. The function does nothing: it stands for the law that its contract says.

ghost use Rattle.world.specs.Ground.{Ground, IsGround};
ghost use Rattle.world.specs.Views.{View};
ghost use Rattle.world.specs.areas.Repairing.{MayMend};

/// Who has a stale segment may clear records of a region of which the segment has nothing, end its split once the entries are settled, free
/// its locks, clear records that it does not own or that stand twice, rebuild notes, and give it the image's version where it is in order.
pub fn repairers_may_mend()
    ensures { (site : Ground) (v : View) → IsGround site → MayMend site v }
{}
