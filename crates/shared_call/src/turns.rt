//! An event of an engine, as a step of a seat.

ghost use Rattle.std.specs.Prelude.{◌≡◌};
ghost use Rattle.vlock.specs.Ruling.{ground_of};
ghost use Rattle.vlock.specs.Plays.{IsSeatOf};
ghost use Rattle.shared_call.specs.Suited.{IsRunning};
ghost use Rattle.shared_call.specs.Headway.{HasHeadway};
ghost use Rattle.shared_call.specs.Turns.{Turns};

use crate::headway::Headway;
use crate::laws::turns_have_laws;
use engine::Engine;
use image_layout::Geometry;
use std::marker::Brand;
use vlock::{Image, ImageSeat, event};

/// One event of an engine that wants one more, on the shared words: the seat takes it as one step, the engine takes the answer, and it is added to
/// the headway of the call.
pub fn turn(
    image: &Image,
    geometry: &Geometry,
    seat: &mut ImageSeat,
    engine: &mut Engine,
    headway: &mut Headway,
)
    requires table { IsSeatOf image.now.table_id image.now.key seat.old }
    requires geometry { geometry.now ≡ image.now.key.geometry }
    requires suits { IsRunning (ground_of image.now.key) engine.old seat.old.me.0.view }
    ensures table { IsSeatOf image.now.table_id image.now.key seat.new }
    ensures turns { Turns (ground_of image.now.key) engine.old seat.old.me.0 engine.new seat.new.me.0 }
    ensures headway { HasHeadway seat.old.me.0 headway.old seat.new.me.0 headway.new }
{
    turns_have_laws();
    let want = engine.next();
    let ans = event::<Brand, Engine>(image, geometry, seat, want, engine);
    headway.add(ans);
    engine.take(ans);
}
