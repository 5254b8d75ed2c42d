//! The laws of the callers' turns. The functions do nothing: each stands for the law that its contract says.

ghost use Rattle.engine.specs.Holding.{CallsStay, TurnKeeps, RunKeeps, HoldingIsGood, CoreBegins};
ghost use Rattle.engine.specs.Laws.{OpenedHolds, TurnsKeep, CallsAreScripts, TurnsAlone, ThroughIsQuiet, ThroughIsExact, ThroughIsOnce, ThroughIsOwn, ThroughHasMap};
ghost use Rattle.engine.specs.Seen.{ViewsGetLater};
ghost use Rattle.engine.specs.Repaired.{TurnRepairs, BetweenIsInOrder};
ghost use Rattle.engine.specs.Sessions.{CutIsSession, CloseIsSession};

use crate::laws;

/// A turn of any caller keeps what holds of the core, and so do turns one after another, which leave the callers their calls. By any turns nobody
/// is taken back what it has seen, each reply comes at a place not before that, and who is told nothing sees no more.
pub fn turn_keeps()
    ensures one { TurnKeeps }
    ensures all { RunKeeps }
    ensures calls { CallsStay }
    ensures later { ViewsGetLater }
{
    world::worlds_stay_well();
    world::slots_stay();
    world::used_slots_stay();
    world::steps_leave();
    world::steps_do_events();
    laws::calls_are_parts();
    laws::fits_the_world();
    laws::stores_are_words();
}

/// A core that holds is good: the replies are one legal history, and whatever a power cut may leave holds its map.
pub fn holding_is_good()
    ensures { HoldingIsGood }
{
    world::entries_are_legal();
    world::device_leaves_what_views_say();
    laws::calls_are_parts();
}

/// The core with which callers begin holds.
pub fn core_begins()
    ensures { CoreBegins }
{
    laws::fits_the_world();
}

/// The core after a restart holds.
pub fn opened_holds()
    ensures { OpenedHolds }
{
    core_begins();
    restart_op::restart_begins();
    restart_op::close_begins();
}

/// Whatever turns the callers take, their replies are one legal history, and whatever a power cut may leave is sound and holds
/// that history's map, open calls whole or absent.
pub fn turns_keep()
    ensures good { TurnsKeep }
    ensures scripts { CallsAreScripts }
{
    restart_op::restart_begins();
    opened_holds();
    turn_keeps();
    holding_is_good();
}

/// Where no engine runs the world may be closed; in a segment that is not stale the notes of each home are exact, no key stands twice, and each
/// is the segment's own; and the newest words have the map of the history.
pub fn through_is_quiet()
    ensures quiet { ThroughIsQuiet }
    ensures exact { ThroughIsExact }
    ensures once { ThroughIsOnce }
    ensures own { ThroughIsOwn }
    ensures map { ThroughHasMap }
{
    world::entries_are_legal();
    world::current_segments_rest();
}

/// A repair leaves its segment in order, beside any other callers: whichever turn makes a stale segment current leaves it normal, with its own
/// records alone, each key once, exact notes, and no lock of it taken. And where all callers stand between two attempts, as they do behind each
/// attempt of one that steps while all others stand so, each segment of the image's version has its own records alone, each key once, and
/// exact notes.
pub fn repairs_leave_order()
    ensures turns { TurnRepairs }
    ensures between { BetweenIsInOrder }
{
    world::stale_segments_only_go();
    laws::calls_are_parts();
}

/// The replies to a caller that runs alone are, one after another, those of a plain map.
pub fn turns_alone()
    ensures { TurnsAlone }
{
    turns_keep();
}

/// A scheduled run that a power cut ends is a session: what the callers were told, and whatever words the cut may leave.
pub fn cut_is_session()
    ensures { CutIsSession }
{
    turns_keep();
}

/// A run that ends by a close is a session: each call has its reply, and the one image that is left has the map's pairs.
pub fn close_is_session()
    ensures { CloseIsSession }
{
    turns_keep();
    opened_holds();
    turn_keeps();
    through_is_quiet();
    restart_op::restart_begins();
    restart_op::close_keeps();
}
