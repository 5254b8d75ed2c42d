//! Seats that are cut in two and joined.

ghost use Rattle.std.specs.Prelude.{◌≡◌, ◌<◌, []};
ghost use Rattle.vlock.specs.Plays.{IsSeatOf};
ghost use Rattle.vlock.specs.Seats.{pass_left, pass_right, note_left, note_right, both};

use crate::knows::Watch;
use crate::table::{Image, ImageSeat};
use atomic_table::{Join, Split};

/// A pass is cut off, for one caller.
pub struct CutsPass;

impl Split<Watch> for CutsPass {
    ghost use Rattle.vlock.specs.Seats.{pass_left, pass_right};

    ghost left = { pass_left };

    ghost right = { pass_right };
}

/// A note is cut off: it has seen what the other has seen, and stands for nobody.
pub struct CutsNote;

impl Split<Watch> for CutsNote {
    ghost use Rattle.vlock.specs.Seats.{note_left, note_right};

    ghost left = { note_left };

    ghost right = { note_right };
}

/// A seat takes in another.
pub struct TakesIn;

impl Join<Watch> for TakesIn {
    ghost use Rattle.vlock.specs.Seats.{both, spent_watch};

    ghost both = { both };

    ghost spent = { spent_watch };
}

/// Cuts a pass off: a seat for one caller, which has seen what the other has seen, and holds nothing. Behind it a seat has
/// to look at the commit counter again before it draws a place.
pub fn split_pass(image: &Image, seat: &mut ImageSeat) -> ImageSeat
    requires table { IsSeatOf image.now.table_id image.now.key seat.old }
    requires callers { 1 < seat.old.me.0.view.callers }
    ensures table { IsSeatOf image.now.table_id image.now.key seat.new }
    ensures pass { IsSeatOf image.now.table_id image.now.key result }
    ensures views { (seat.new.me.0 ≡ pass_left seat.old.me.0) × (result.me.0 ≡ pass_right seat.old.me.0) }
{
    image.split_seat::<CutsPass>(seat)
}

/// Cuts a note off: a seat that has seen what the other has seen, and stands for nobody, so that it takes no event. Who takes
/// it in replies at no earlier place than this one had seen. Behind it a seat has to look at the commit counter again
/// before it draws a place.
pub fn split_note(image: &Image, seat: &mut ImageSeat) -> ImageSeat
    requires table { IsSeatOf image.now.table_id image.now.key seat.old }
    ensures table { IsSeatOf image.now.table_id image.now.key seat.new }
    ensures note { IsSeatOf image.now.table_id image.now.key result }
    ensures views { (seat.new.me.0 ≡ note_left seat.old.me.0) × (result.me.0 ≡ note_right seat.old.me.0) }
{
    image.split_seat::<CutsNote>(seat)
}

/// Takes in a pass or a note: its caller has seen, holds, knows and owes from then on what both did. The replies of the
/// pass stay with it, as a view that the seat took in; what was noted is forgotten, and the other's events are not kept.
pub fn take_in(image: &Image, seat: &mut ImageSeat, other: ImageSeat)
    requires table { IsSeatOf image.now.table_id image.now.key seat.old }
    requires other { IsSeatOf image.now.table_id image.now.key other }
    requires callers { 0 < seat.old.me.0.view.callers }
    ensures table { IsSeatOf image.now.table_id image.now.key seat.new }
    ensures views { seat.new.me.0 ≡ both seat.old.me.0 other.me.0 }
{
    image.join_seat::<TakesIn>(seat, other);
}
