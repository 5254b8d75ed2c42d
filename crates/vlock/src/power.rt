//! The power is turned off.

ghost use Rattle.std.specs.Prelude.{◌≡◌, ◌<◌};
ghost use Rattle.vlock.specs.Ruling.{ground_of};
ghost use Rattle.vlock.specs.Plays.{IsSeatOf};
ghost use Rattle.vlock.specs.Power.{TurnsOff};

use crate::steps::event;
use crate::table::{Image, ImageSeat};
use image_layout::{Geometry, POWER_OFF};
use op_core::Want;
use std::marker::Brand;

/// Turns the power off: one event stores [`POWER_OFF`] in the power word, where it stays by the rule of the table. That another's look finds it
/// no clause says.
pub fn turn_off(image: &Image, geometry: &Geometry, seat: &mut ImageSeat)
    requires table { IsSeatOf image.now.table_id image.now.key seat.old }
    requires geometry { geometry.now ≡ image.now.key.geometry }
    requires callers { 0 < seat.old.me.0.view.callers }
    ensures table { IsSeatOf image.now.table_id image.now.key seat.new }
    ensures off { TurnsOff (ground_of image.now.key) seat.old.me.0 seat.new.me.0 }
{
    let want = Want::Store(geometry.power_word(), POWER_OFF);
    let _ = event::<Brand, u64>(image, geometry, seat, want, &POWER_OFF);
}
