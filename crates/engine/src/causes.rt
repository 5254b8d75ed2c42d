//! By what each attempt ends, over all turns. The function does nothing: it stands for the laws that its contract says.

ghost use Rattle.engine.specs.Causes.{BeginsUndecided, DecidedStays, EndsAreDecided, WatchingChangesNothing, EndsHaveCauses};
ghost use Rattle.engine.specs.Alone.{BusyIsOthers};

use crate::{laws, turns};

/// Each end of an attempt is decided by one of its events. Whatever calls up to 64 callers have and whatever turns they take, where
/// the next event of a caller decides how its attempt ends, the cause of that end is there: in what this attempt itself loaded and
/// changed, in what that event found, and in the newest words; and a lock or a guard that is found taken is another caller's, that has it
/// and is in the midst of an attempt. A segment that an attempt tells is stale was live, with another version than the image's; and where a repair tells that it
/// has finished, the segment has the image's version in the newest words. No attempt finds the power off. To keep account of what each attempt did
/// changes nothing of the core.
pub fn ends_have_causes()
    ensures begins { BeginsUndecided }
    ensures stays { DecidedStays }
    ensures ends { EndsAreDecided }
    ensures watching { WatchingChangesNothing }
    ensures causes { EndsHaveCauses }
    ensures busy { BusyIsOthers }
{
    laws::calls_are_parts();
    laws::attempts_have_causes();
    turns::opened_holds();
    turns::turn_keeps();
}
