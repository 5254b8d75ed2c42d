//! The laws of the rounds. The functions do nothing: each stands for the law that its contract says.

ghost use Rattle.std.specs.Prelude.{ℕ, Bool, IsTrue};
ghost use Rattle.rounds.specs.Laws.{RoundsRun, EventsStand, LinesAreStored, RoundsSettle, LooseIsStored, RoundsKeep, RoundsMay, RoundsFall, RoundsWait};

/// Stores of a list, in any order of their words, are all made in rounds, in the order of the list: the events are the stores, flushes
/// and fences of a segment's rounds, so each line is flushed after its last store and fenced, and at most eight lines are flushed
/// and not fenced. There are at most three events for each store.
pub fn rounds_are_made()
    ensures { RoundsRun }
{}

/// Each event is the store that is to come, the flush of a line of the round, or a fence, and leaves what its sort says. Where nothing is
/// wanted, nothing is to come, and no round was begun. The lines are those of words that were stored: a test that holds of these
/// holds of each line.
pub fn events_are_three()
    ensures events { EventsStand }
    ensures lines { (test : ℕ → Bool) → LinesAreStored (λ line. IsTrue (test line)) }
{}

/// Who has settled all may begin. What is not settled lies on lines of the round then, those that are flushed before those that are
/// not, and at the end all is settled again. Only words that were stored are loose.
pub fn rounds_settle_views()
    ensures settles { RoundsSettle }
    ensures loose { (test : ℕ → Bool) → LooseIsStored (λ word. IsTrue (test word)) }
{}

/// Each event leaves all of the view but the word that it stored, what is not settled, and what is relied on behind a fence.
pub fn rounds_keep_what_is_known()
    ensures { RoundsKeep }
{}

/// A flush may be made by any view, a store and a fence by who may make them; and fewer events are left after each.
pub fn rounds_may_go()
    ensures may { RoundsMay }
    ensures falls { RoundsFall }
{}

/// At most eight lines are flushed and wait for a fence: as many as were flushed since the last one. None waits where words are stored,
/// and none at the end.
pub fn lines_wait_for_a_fence()
    ensures { RoundsWait }
{}
