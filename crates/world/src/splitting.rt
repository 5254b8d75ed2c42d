//! What the holder of a guarded segment has to know to split it. The functions do nothing: each stands for the law that its contract says.

ghost use Rattle.world.specs.Ground.{Ground, IsGround};
ghost use Rattle.world.specs.Views.{View};
ghost use Rattle.world.specs.areas.Splitting.{MayFill, MayBegin, MayPublish, MayDirect, MayFinish, IsInOrderByLocks};

/// Who has a slot of its own, in which no segment lives, may store to any word of it but the header; and to the link of a segment whose
/// guard it has, while that is not splitting.
pub fn holders_may_fill()
    ensures { (site : Ground) (v : View) → IsGround site → MayFill site v }
{}

/// Who has a normal segment whole, and a free slot that it has linked, may mark the split and then make that slot its new side.
pub fn holders_may_begin_a_split()
    ensures { (site : Ground) (v : View) → IsGround site → MayBegin site v }
{}

/// Who knows all buckets of a splitting segment and of its new side, and that the side has the records of the 1-side slot by slot, with exact
/// notes and free locks, may make the side live under the guard of the directory.
pub fn holders_may_publish()
    ensures { (site : Ground) (v : View) → IsGround site → MayPublish site v }
{}

/// Who has the guard of the directory may fill a deeper area, store the root one deeper once that is filled, and store an entry that is to name
/// a segment which owns the hashes of the entry; and settle that all entries of a side name it.
pub fn holders_may_direct()
    ensures { (site : Ground) (v : View) → IsGround site → MayDirect site v }
{}

/// Who has a segment whole may clear records of a region of which the segment has nothing, end the split once its entries are settled, rebuild
/// notes, and open the segment where what it knows is in order.
pub fn holders_may_finish()
    ensures { (site : Ground) (v : View) → IsGround site → MayFinish site v }
{}

/// Who holds all locks of a segment and knows its buckets knows that each key stands once there, and that the records are the segment's own.
pub fn locks_tell_of_records()
    ensures { (site : Ground) (v : View) → IsInOrderByLocks site v }
{}
