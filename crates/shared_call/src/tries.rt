//! What an attempt came to, and the next one.

ghost use Rattle.std.specs.Prelude.{◌≡◌, ◌≢◌, ◌<◌, []};
ghost use Rattle.world.specs.Attempts.{HoldsOnly};
ghost use Rattle.engine.specs.OpPart.{calls};
ghost use Rattle.shared_call.specs.declared.tries.Answer.{Answer};
ghost use Rattle.world.specs.Ground.{version_of};
ghost use Rattle.engine.specs.Engine.{begun, outcome_of_end};
ghost use Rattle.engine.specs.Fits.{IsWordCall};
ghost use Rattle.engine.specs.Left.{most_of_attempt};
ghost use Rattle.vlock.specs.Ruling.{ground_of};
ghost use Rattle.vlock.specs.Plays.{IsSeatOf};
ghost use Rattle.shared_call.specs.Headway.{no_headway, HasHeadway};
ghost use Rattle.shared_call.specs.Tries.{answer_for, IsTrying, HasTried, Tells};

use crate::going::{Stop, go_on};
use crate::headway::Headway;
use crate::laws::{attempts_have_laws, turns_have_laws};
use engine::{
    EncloseEnd, End, Engine, MoveEnd, NotEnclosed, ReadEnd, RedirectEnd, ReleaseEnd, RepairEnd,
    RestEnd, SplitEnd, StashEnd, WriteEnd,
};
use image_layout::Geometry;
use map_model::{Call, Reply};
use op_core::Why;
use outside::Gate;
use vlock::{Image, ImageSeat};
use world::Site;

/// What an attempt came to.
#[derive(Clone, Copy, Debug)]
pub enum Answer {
    /// The call has this reply, at this place: the number of changes before it.
    Replied(Reply, u64),
    /// It is to be made again.
    Again(Why),
    /// The segment in this slot has no room for the call's key, and is to be split.
    NeedSplit(u64),
    /// The segment in this slot has this version byte, which is not the image's, and is to be repaired.
    Stale(u64, u8),
    /// It split a segment or repaired one, or found that there is room by now, and the call is to be made again.
    Worked,
    /// It is not over: as many events were taken as might be.
    Left,
    /// The power is off.
    Off,
}

/// What an attempt tells at its end.
pub fn answer_of(end: End) -> Answer
    ensures { result ≡ answer_for (outcome_of_end end) }
{
    match end {
        End::Read(ReadEnd::Found(value, place)) => Answer::Replied(Reply::Found(value), place),
        End::Read(ReadEnd::Absent(place)) => Answer::Replied(Reply::Absent, place),
        End::Write(WriteEnd::Replied(reply, place))
        | End::Move(MoveEnd::Replied(reply, place))
        | End::Stash(StashEnd::Replied(reply, place))
        | End::Enclose(EncloseEnd::Back(NotEnclosed::Replied(reply, place))) => Answer::Replied(
            reply, place,
        ),
        End::Split(Some(SplitEnd::Full(place))) => Answer::Replied(Reply::Full, place),
        End::Read(ReadEnd::Again(why))
        | End::Write(WriteEnd::Again(why))
        | End::Move(MoveEnd::Again(why))
        | End::Stash(StashEnd::Again(why))
        | End::Enclose(EncloseEnd::Back(NotEnclosed::Again(why)))
        | End::Split(Some(SplitEnd::Again(why)))
        | End::Repair(Some(RepairEnd::Again(why)))
        | End::Redirect(Some(RedirectEnd::Again(why))) => Answer::Again(why),
        End::Read(ReadEnd::Stale(segment, version))
        | End::Write(WriteEnd::Stale(segment, version)) => Answer::Stale(segment, version),
        End::Release(ReleaseEnd::NeedSplit(segment)) => Answer::NeedSplit(segment),
        End::Enclose(EncloseEnd::Back(NotEnclosed::Room)) | End::Rest(RestEnd::Split) => {
            Answer::Worked
        }
        End::Repair(Some(RepairEnd::Current)) | End::Mend(Some(_)) => Answer::Worked,
        End::Read(_) | End::Write(_) | End::Move(_) | End::Stash(_) | End::Release(_) =>
            Answer::Off,
        End::Enclose(_) | End::Split(_) | End::Publish(_) | End::Rest(_) => Answer::Off,
        End::Repair(_) | End::Redirect(_) | End::Mend(_) => Answer::Off,
    }
}

/// Goes on with the attempt of a call that is under way, by `most` events at the most, each of which the caller's gate lets through; and where
/// it is over, has the next one ready: the call anew, or a split or a repair that it needs. So each try goes on from the one before, until
/// there is a reply or the power is off. Each event is added to the headway.
pub fn try_on<G: Gate>(
    image: &Image,
    geometry: &Geometry,
    seat: &mut ImageSeat,
    gate: &mut G,
    engine: &mut Engine,
    headway: &mut Headway,
    call: Call,
    site: &Site,
    most: u64,
) -> Answer
    requires table { IsSeatOf image.now.table_id image.now.key seat.old }
    requires geometry { geometry.now ≡ image.now.key.geometry }
    requires call { IsWordCall call }
    requires site { (site.now.geometry ≡ image.now.key.geometry) × (site.now.version ≡ version_of (ground_of image.now.key)) }
    requires trying { IsTrying (ground_of image.now.key) site.now call engine.old seat.old.me.0 }
    ensures table { IsSeatOf image.now.table_id image.now.key seat.new }
    ensures tried { HasTried (ground_of image.now.key) site.now call most engine.old seat.old.me.0 (G.left gate.old) result engine.new seat.new.me.0 (G.left gate.new) (G.cuts gate.new) }
    ensures headway { HasHeadway seat.old.me.0 headway.old seat.new.me.0 headway.new }
{
    attempts_have_laws();
    match go_on(image, geometry, seat, gate, engine, headway, most) {
        Stop::Left => Answer::Left,
        Stop::Cut => Answer::Off,
        Stop::Over => {
            let end = engine.end();
            engine.renew(call, *site, end);
            answer_of(end)
        }
    }
}

/// How many events an attempt of a call itself takes at most.
const MOST_OF_ATTEMPT: u64 = 700;

/// The first try of a call, by a seat that holds and owes nothing: it is never left in the midst but by a cut of the power. The engine
/// becomes that of the call, and behind it that of the next attempt, with which [`try_on`] goes on. The headway begins with this try.
pub fn try_call<G: Gate>(
    image: &Image,
    geometry: &Geometry,
    seat: &mut ImageSeat,
    gate: &mut G,
    engine: &mut Engine,
    headway: &mut Headway,
    call: Call,
    site: &Site,
) -> Answer
    requires table { IsSeatOf image.now.table_id image.now.key seat.old }
    requires geometry { geometry.now ≡ image.now.key.geometry }
    requires call { IsWordCall call }
    requires site { (site.now.geometry ≡ image.now.key.geometry) × (site.now.version ≡ version_of (ground_of image.now.key)) }
    requires view { HoldsOnly [] seat.old.me.0.view × (0 < seat.old.me.0.view.callers) }
    ensures table { IsSeatOf image.now.table_id image.now.key seat.new }
    ensures tried { HasTried (ground_of image.now.key) site.now call most_of_attempt (begun site.now call) seat.old.me.0 (G.left gate.old) result engine.new seat.new.me.0 (G.left gate.new) (G.cuts gate.new) }
    ensures tells { Tells (ground_of image.now.key) site.now call calls (begun site.now call) seat.old.me.0 result engine.new seat.new.me.0 }
    ensures over { result ≢ Answer.Left }
    ensures headway { HasHeadway seat.old.me.0 no_headway seat.new.me.0 headway.new }
{
    turns_have_laws();
    attempts_have_laws();
    engine.restart(call, *site);
    *headway = Headway::none();
    try_on(
        image,
        geometry,
        seat,
        gate,
        engine,
        headway,
        call,
        site,
        MOST_OF_ATTEMPT,
    )
}
