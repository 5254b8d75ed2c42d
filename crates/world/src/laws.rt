//! The laws of the world. The functions do nothing: each stands for the law that its contract says.

ghost use Rattle.world.specs.Ground.{Ground};
ghost use Rattle.world.specs.Views.{View};
ghost use Rattle.world.specs.Readers.{MayAnswer};
ghost use Rattle.world.specs.Holders.{MayPrepare, MayPlace, MayChange, MayTell, MayRepay, MayDraw, MayUnstash, MayMove};
ghost use Rattle.world.specs.Laws.{EntriesAreLegal, StepsEnter, CallersStay};

/// The replies of all callers are one legal history of a plain map, whose replay has what the log gives each key.
pub fn entries_are_legal()
    ensures { EntriesAreLegal }
{}

/// A step adds one entry at the most to what its caller has replied, which says why the step is made, and leaves its view for
/// as many callers.
pub fn steps_add_one_reply()
    ensures entries { StepsEnter }
    ensures callers { CallersStay }
{}

/// What the holder of locks has to know of buckets: to prepare a slot; to place a record in its home, its probing bucket or the
/// stash; to change one that it found, or to take it away, from the stash too; to tell what a key has; to draw the place of a
/// change; to store or take away a note that it owes; and to move a record, by a copy and the clearing of its source.
pub fn holders_may()
    ensures prepare { (site : Ground) (v : View) → MayPrepare site v }
    ensures place { (site : Ground) (v : View) → MayPlace site v }
    ensures change { (site : Ground) (v : View) → MayChange site v }
    ensures tell { (site : Ground) (v : View) → MayTell site v }
    ensures unstash { (site : Ground) (v : View) → MayUnstash site v }
    ensures draw { (site : Ground) (v : View) → MayDraw site v }
    ensures repay { (site : Ground) (v : View) → MayRepay site v }
    ensures moves { (site : Ground) (v : View) → MayMove site v }
{}

/// What a reader has to note of buckets to place an answer.
pub fn readers_may()
    ensures { (site : Ground) (v : View) → MayAnswer site v }
{}
