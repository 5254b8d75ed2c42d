//! An attempt of a call behind a gate.

ghost use Rattle.std.specs.Prelude.{◌≡◌, ◌<◌, []};
ghost use Rattle.world.specs.Ground.{version_of};
ghost use Rattle.world.specs.Attempts.{HoldsOnly};
ghost use Rattle.engine.specs.Fits.{IsWordCall};
ghost use Rattle.vlock.specs.Ruling.{ground_of};
ghost use Rattle.vlock.specs.Plays.{IsSeatOf};
ghost use Rattle.shared_call.specs.Gated.{CameTo};

use crate::headway::Headway;
use crate::laws::attempts_have_laws;
use crate::turns::turn;
use engine::{End, Engine};
use image_layout::Geometry;
use map_model::Call;
use outside::{Gate, Power};
use vlock::{Image, ImageSeat};
use world::Site;

/// What came of an attempt behind a gate.
#[derive(Clone, Copy, Debug)]
pub enum Gated {
    /// It ended so.
    Ended(End),
    /// The gate cut the power before it ended: it is left where it stood, with what it holds.
    Cut,
}

/// One attempt of a call, as [`attempt`](crate::attempt) makes it, by a caller whose gate is asked before each event.
pub fn attempt_gated<G: Gate>(
    image: &Image,
    geometry: &Geometry,
    seat: &mut ImageSeat,
    gate: &mut G,
    call: Call,
    site: Site,
) -> Gated
    requires table { IsSeatOf image.now.table_id image.now.key seat.old }
    requires geometry { geometry.now ≡ image.now.key.geometry }
    requires call { IsWordCall call }
    requires site { (site.geometry ≡ image.now.key.geometry) × (site.version ≡ version_of (ground_of image.now.key)) }
    requires view { HoldsOnly [] seat.old.me.0.view × (0 < seat.old.me.0.view.callers) }
    ensures table { IsSeatOf image.now.table_id image.now.key seat.new }
    ensures came { CameTo (ground_of image.now.key) site call seat.old.me.0 (G.left gate.old) result seat.new.me.0 (G.left gate.new) (G.cuts gate.new) }
{
    attempts_have_laws();
    let mut engine = Engine::of(call, site);
    let mut headway = Headway::none();
    while !engine.wants_nothing() {
        match gate.pass() {
            Power::On => turn(image, geometry, seat, &mut engine, &mut headway),
            Power::Off => return Gated::Cut,
        }
    }
    Gated::Ended(engine.end())
}
