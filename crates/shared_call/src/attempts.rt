//! An attempt of a call, event by event.

ghost use Rattle.std.specs.Prelude.{◌≡◌, ◌<◌, []};
ghost use Rattle.world.specs.Ground.{version_of};
ghost use Rattle.world.specs.Attempts.{HoldsOnly};
ghost use Rattle.engine.specs.Fits.{IsWordCall};
ghost use Rattle.vlock.specs.Ruling.{ground_of};
ghost use Rattle.vlock.specs.Plays.{IsSeatOf};
ghost use Rattle.shared_call.specs.Attempts.{IsAttempted};

use crate::headway::Headway;
use crate::laws::attempts_have_laws;
use crate::turns::turn;
use engine::{End, Engine};
use image_layout::Geometry;
use map_model::Call;
use vlock::{Image, ImageSeat};
use world::Site;

/// One attempt of a call, by a seat that holds and owes nothing, to its end: the reply of that, with its place, is the next entry of the
/// seat's view; where it has none, the power was found off, or the call is to be tried again. It never waits.
pub fn attempt(
    image: &Image,
    geometry: &Geometry,
    seat: &mut ImageSeat,
    call: Call,
    site: Site,
) -> End
    requires table { IsSeatOf image.now.table_id image.now.key seat.old }
    requires geometry { geometry.now ≡ image.now.key.geometry }
    requires call { IsWordCall call }
    requires site { (site.geometry ≡ image.now.key.geometry) × (site.version ≡ version_of (ground_of image.now.key)) }
    requires view { HoldsOnly [] seat.old.me.0.view × (0 < seat.old.me.0.view.callers) }
    ensures table { IsSeatOf image.now.table_id image.now.key seat.new }
    ensures attempted { IsAttempted (ground_of image.now.key) site call seat.old.me.0 result seat.new.me.0 }
{
    attempts_have_laws();
    let mut engine = Engine::of(call, site);
    let mut headway = Headway::none();
    while !engine.wants_nothing() {
        turn(image, geometry, seat, &mut engine, &mut headway);
    }
    engine.end()
}
