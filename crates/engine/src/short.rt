//! How many events one split takes, and one repair, by the shape of its image. The functions do nothing: each stands for the laws that its
//! contract says.

ghost use Rattle.engine.specs.Short.{FallsOrWaits, RepairsFall, BeginsShort, RepairBeginsShort, StaysWithin, RepairStaysWithin};

use crate::laws;

/// One split takes at most 15671 events, one more for each slot of the image, and 7 more for each entry of the deepest area of its directory;
/// so no more than 20000, 8 for each such entry and 2 for each slot; but while it waits for the guard of the directory. From any state each
/// answer of the kind that was asked for leaves fewer, or the guard is waited for, and as many are left.
pub fn splits_are_short()
    ensures falls { FallsOrWaits }
    ensures begins { BeginsShort }
    ensures within { StaysWithin }
{
    enclose_op::enclosings_are_parts();
    split_op::splits_are_parts();
    repairs_are_short();
    laws::calls_are_parts();
}

/// One repair takes at most 2857 events, and 5 more for each entry of the deepest area of its image's directory; so no more than 20000, 8 for each
/// such entry and 2 for each slot. From any state of it each answer of the kind that was asked for leaves fewer: it never waits.
pub fn repairs_are_short()
    ensures falls { RepairsFall }
    ensures begins { RepairBeginsShort }
    ensures within { RepairStaysWithin }
{
    repair_op::repairs_are_parts();
    redirect_op::redirects_are_parts();
    mend_op::mends_are_parts();
    laws::calls_are_parts();
}
