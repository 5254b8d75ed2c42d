//! An attempt that goes on.

ghost use Rattle.std.specs.Prelude.{◌≡◌};
ghost use Rattle.vlock.specs.Ruling.{ground_of};
ghost use Rattle.vlock.specs.Plays.{IsSeatOf};
ghost use Rattle.shared_call.specs.Attempts.{IsUnderWay};
ghost use Rattle.shared_call.specs.Gated.{HasGoneOn};
ghost use Rattle.shared_call.specs.Headway.{HasHeadway};

use crate::headway::Headway;
use crate::laws::attempts_have_laws;
use crate::turns::turn;
use engine::Engine;
use image_layout::Geometry;
use outside::{Gate, Power};
use vlock::{Image, ImageSeat};

/// Where an attempt stands that went on.
#[derive(Clone, Copy, Debug)]
pub enum Stop {
    /// Its engine wants nothing more.
    Over,
    /// Its engine wants an event more, and as many were taken as might be.
    Left,
    /// Its engine wants an event more, and the gate cut the power.
    Cut,
}

/// Goes on with an attempt that is under way, of a call, a split or a repair, by `most` events at the most, before each of which the
/// caller's gate is asked. So an attempt that waits, as a split does for the guard of the directory, is left after so many events, and
/// may go on later. Each event is added to the headway of the call.
pub fn go_on<G: Gate>(
    image: &Image,
    geometry: &Geometry,
    seat: &mut ImageSeat,
    gate: &mut G,
    engine: &mut Engine,
    headway: &mut Headway,
    most: u64,
) -> Stop
    requires table { IsSeatOf image.now.table_id image.now.key seat.old }
    requires geometry { geometry.now ≡ image.now.key.geometry }
    requires going { IsUnderWay (ground_of image.now.key) engine.old seat.old.me.0 }
    ensures table { IsSeatOf image.now.table_id image.now.key seat.new }
    ensures gone { HasGoneOn (ground_of image.now.key) most engine.old seat.old.me.0 (G.left gate.old) result engine.new seat.new.me.0 (G.left gate.new) (G.cuts gate.new) }
    ensures headway { HasHeadway seat.old.me.0 headway.old seat.new.me.0 headway.new }
{
    attempts_have_laws();
    for _ in 0..most {
        if engine.wants_nothing() {
            return Stop::Over;
        }
        match gate.pass() {
            Power::On => turn(image, geometry, seat, engine, headway),
            Power::Off => return Stop::Cut,
        }
    }
    if engine.wants_nothing() {
        Stop::Over
    } else {
        Stop::Left
    }
}
