//! A caller.

ghost use Rattle.std.specs.Prelude.{◌≡◌, ℕ, ◌<◌, [], false, true};
ghost use Rattle.world.specs.Attempts.{HoldsOnly};
ghost use Rattle.map_model.specs.declared.call.Call.TheVariants.{Get, Insert, Update, Remove};
ghost use Rattle.shared_call.specs.Engines.{IsWordCall, repairing};
ghost use Rattle.shared_call.specs.Headway.{no_headway, HasHeadway};
ghost use Rattle.world.specs.Facts.{Lives};
ghost use Rattle.world.specs.Views.{Has};
ghost use Rattle.shared_call.specs.Tries.{IsTrying};
ghost use Rattle.vlock.specs.Power.{TurnsOff};
ghost use Rattle.vlock.specs.Seats.{note_left, note_right, both};
ghost use Rattle.shared_image.specs.Powered.{ground_in, IsOn, IsPassOf};
ghost use Rattle.shared_image.specs.Calling.{IsSiteOf, IsCallerOf, Rests, says_off, HasCalled, HasGoneOnTrying};

use crate::calls::{first_try, next_try, repair_of, try_repair_in};
use crate::image::{Pass, SharedImage};
use map_model::Call;
use outside::Gate;
use shared_call::{Answer, Engine, Headway};
use world::Site;

/// What a thread holds to make calls on a shared image: a pass of the image, and the gate that the events of its calls go through.
#[derive(Drop)]
pub struct Caller<'a, G: Gate> {
    /// The image.
    pub(crate) image: &'a SharedImage,
    /// Its pass.
    pub(crate) pass: Pass,
    /// Its gate.
    pub(crate) gate: G,
    /// Where its machines run.
    pub(crate) site: Site,
    /// The call that it made last.
    pub(crate) call: Call,
    /// The engine of the attempt of that which is under way, or comes next.
    pub(crate) engine: Engine,
    /// How far the call has come that it made last.
    pub(crate) headway: Headway,
    /// Whether its power is off.
    pub(crate) off: bool,
}

/// Where machines run on an image for the caller with this number, which is not 0.
fn site_of(image: &SharedImage, number: u8) -> Site
    requires on { IsOn image.now }
    requires number { 0 < number }
    ensures site { IsSiteOf image.now result }
    ensures number { result.caller ≡ number }
{
    Site {
        geometry: image.geometry,
        version: image.started.version,
        caller: number,
    }
}

impl<'a, G: Gate> Caller<'a, G> {
    /// A caller of this image, with this pass, this gate, and a number that is not 0, by which others see who has a guard.
    pub fn new(image: &'a SharedImage, pass: Pass, gate: G, number: u8) -> Caller<'a, G>
        requires on { IsOn image.now }
        requires pass { IsPassOf image.now pass }
        requires number { 0 < number }
        ensures caller { IsCallerOf result.image.now result.pass result.site result.call }
        ensures image { result.image.now ≡ image.now }
        ensures parts { (result.pass ≡ pass) × (result.gate ≡ gate) × (result.off ≡ false) }
        ensures headway { result.headway ≡ no_headway }
        ensures number { result.site.caller ≡ number }
    {
        let call = Call::Get(0);
        Caller {
            site: site_of(image, number),
            call,
            engine: Engine::of(call, site_of(image, number)),
            image,
            pass,
            gate,
            headway: Headway::none(),
            off: false,
        }
    }

    /// The first try of a call, by a caller that rests. Where its power is off, no event is taken.
    pub fn try_call(&mut self, call: Call) -> Answer
        requires caller { IsCallerOf self.old.image.now self.old.pass self.old.site self.old.call }
        requires call { IsWordCall call }
        requires rests { self.old.off ≡ false → Rests self.old.pass }
        ensures caller { IsCallerOf self.new.image.now self.new.pass self.new.site self.new.call }
        ensures same { (self.new.image ≡ self.old.image) × (self.new.site ≡ self.old.site) × (self.new.call ≡ call) }
        ensures called { HasCalled (ground_in self.old.image.now) self.old.site call self.old.off self.old.pass.me.0 (G.left self.old.gate) (G.cuts self.old.gate) result self.new.engine self.new.pass.me.0 (G.left self.new.gate) (G.cuts self.new.gate) }
        ensures off { self.new.off ≡ says_off result }
        ensures headway { HasHeadway self.old.pass.me.0 no_headway self.new.pass.me.0 self.new.headway }
    {
        self.call = call;
        first_try(
            self.image,
            &mut self.pass,
            &mut self.gate,
            &mut self.engine,
            &mut self.headway,
            &mut self.off,
            call,
            &self.site,
        )
    }

    /// The first try to look a key up.
    pub fn try_get(&mut self, key: u64) -> Answer
        requires caller { IsCallerOf self.old.image.now self.old.pass self.old.site self.old.call }
        requires rests { self.old.off ≡ false → Rests self.old.pass }
        ensures caller { IsCallerOf self.new.image.now self.new.pass self.new.site self.new.call }
        ensures same { (self.new.image ≡ self.old.image) × (self.new.site ≡ self.old.site) × (self.new.call ≡ Get key) }
        ensures called { HasCalled (ground_in self.old.image.now) self.old.site (Get key) self.old.off self.old.pass.me.0 (G.left self.old.gate) (G.cuts self.old.gate) result self.new.engine self.new.pass.me.0 (G.left self.new.gate) (G.cuts self.new.gate) }
        ensures off { self.new.off ≡ says_off result }
        ensures headway { HasHeadway self.old.pass.me.0 no_headway self.new.pass.me.0 self.new.headway }
    {
        self.try_call(Call::Get(key))
    }

    /// The first try to add an absent key with a value.
    pub fn try_insert(&mut self, key: u64, value: u64) -> Answer
        requires caller { IsCallerOf self.old.image.now self.old.pass self.old.site self.old.call }
        requires rests { self.old.off ≡ false → Rests self.old.pass }
        ensures caller { IsCallerOf self.new.image.now self.new.pass self.new.site self.new.call }
        ensures same { (self.new.image ≡ self.old.image) × (self.new.site ≡ self.old.site) × (self.new.call ≡ Insert key value) }
        ensures called { HasCalled (ground_in self.old.image.now) self.old.site (Insert key value) self.old.off self.old.pass.me.0 (G.left self.old.gate) (G.cuts self.old.gate) result self.new.engine self.new.pass.me.0 (G.left self.new.gate) (G.cuts self.new.gate) }
        ensures off { self.new.off ≡ says_off result }
        ensures headway { HasHeadway self.old.pass.me.0 no_headway self.new.pass.me.0 self.new.headway }
    {
        self.try_call(Call::Insert(key, value))
    }

    /// The first try to give a present key another value.
    pub fn try_update(&mut self, key: u64, value: u64) -> Answer
        requires caller { IsCallerOf self.old.image.now self.old.pass self.old.site self.old.call }
        requires rests { self.old.off ≡ false → Rests self.old.pass }
        ensures caller { IsCallerOf self.new.image.now self.new.pass self.new.site self.new.call }
        ensures same { (self.new.image ≡ self.old.image) × (self.new.site ≡ self.old.site) × (self.new.call ≡ Update key value) }
        ensures called { HasCalled (ground_in self.old.image.now) self.old.site (Update key value) self.old.off self.old.pass.me.0 (G.left self.old.gate) (G.cuts self.old.gate) result self.new.engine self.new.pass.me.0 (G.left self.new.gate) (G.cuts self.new.gate) }
        ensures off { self.new.off ≡ says_off result }
        ensures headway { HasHeadway self.old.pass.me.0 no_headway self.new.pass.me.0 self.new.headway }
    {
        self.try_call(Call::Update(key, value))
    }

    /// The first try to take a present key away.
    pub fn try_remove(&mut self, key: u64) -> Answer
        requires caller { IsCallerOf self.old.image.now self.old.pass self.old.site self.old.call }
        requires rests { self.old.off ≡ false → Rests self.old.pass }
        ensures caller { IsCallerOf self.new.image.now self.new.pass self.new.site self.new.call }
        ensures same { (self.new.image ≡ self.old.image) × (self.new.site ≡ self.old.site) × (self.new.call ≡ Remove key) }
        ensures called { HasCalled (ground_in self.old.image.now) self.old.site (Remove key) self.old.off self.old.pass.me.0 (G.left self.old.gate) (G.cuts self.old.gate) result self.new.engine self.new.pass.me.0 (G.left self.new.gate) (G.cuts self.new.gate) }
        ensures off { self.new.off ≡ says_off result }
        ensures headway { HasHeadway self.old.pass.me.0 no_headway self.new.pass.me.0 self.new.headway }
    {
        self.try_call(Call::Remove(key))
    }

    /// A try behind one that had no reply: it goes on with the attempt that is under way, the call anew, a split or a repair that it needs, by
    /// `most` events at the most.
    pub fn try_next(&mut self, most: u64) -> Answer
        requires caller { IsCallerOf self.old.image.now self.old.pass self.old.site self.old.call }
        requires trying { self.old.off ≡ false → IsTrying (ground_in self.old.image.now) self.old.site self.old.call self.old.engine self.old.pass.me.0 }
        ensures caller { IsCallerOf self.new.image.now self.new.pass self.new.site self.new.call }
        ensures same { (self.new.image ≡ self.old.image) × (self.new.site ≡ self.old.site) × (self.new.call ≡ self.old.call) }
        ensures tried { HasGoneOnTrying (ground_in self.old.image.now) self.old.site self.old.call most self.old.off self.old.engine self.old.pass.me.0 (G.left self.old.gate) (G.cuts self.old.gate) result self.new.engine self.new.pass.me.0 (G.left self.new.gate) (G.cuts self.new.gate) }
        ensures off { self.new.off ≡ says_off result }
        ensures headway { HasHeadway self.old.pass.me.0 self.old.headway self.new.pass.me.0 self.new.headway }
    {
        next_try(
            self.image,
            &mut self.pass,
            &mut self.gate,
            &mut self.engine,
            &mut self.headway,
            &mut self.off,
            self.call,
            &self.site,
            most,
        )
    }

    /// A try to repair the segment in slot `segment`, which the pass knows to be live, by a caller that rests, and by `most` events at the most;
    /// [`Caller::try_next`] goes on with it, and behind it with the call that was made last.
    pub fn try_repair(&mut self, segment: u64, most: u64) -> Answer
        requires caller { IsCallerOf self.old.image.now self.old.pass self.old.site self.old.call }
        requires rests { self.old.off ≡ false → Rests self.old.pass }
        requires known { self.old.off ≡ false → Has (Lives segment) self.old.pass.me.0.view.facts }
        ensures caller { IsCallerOf self.new.image.now self.new.pass self.new.site self.new.call }
        ensures same { (self.new.image ≡ self.old.image) × (self.new.site ≡ self.old.site) × (self.new.call ≡ self.old.call) }
        ensures tried { HasGoneOnTrying (ground_in self.old.image.now) self.old.site self.old.call most self.old.off (repairing self.old.site segment) self.old.pass.me.0 (G.left self.old.gate) (G.cuts self.old.gate) result self.new.engine self.new.pass.me.0 (G.left self.new.gate) (G.cuts self.new.gate) }
        ensures off { self.new.off ≡ says_off result }
        ensures headway { HasHeadway self.old.pass.me.0 self.old.headway self.new.pass.me.0 self.new.headway }
    {
        self.engine = repair_of(&self.site, segment);
        try_repair_in(
            self.image,
            &mut self.pass,
            &mut self.gate,
            &mut self.engine,
            &mut self.headway,
            &mut self.off,
            self.call,
            &self.site,
            segment,
            most,
        )
    }

    /// Cuts a note off, by which another caller learns what this one has seen.
    pub fn note(&mut self) -> Pass
        requires caller { IsCallerOf self.old.image.now self.old.pass self.old.site self.old.call }
        ensures caller { IsCallerOf self.new.image.now self.new.pass self.new.site self.new.call }
        ensures note { IsPassOf self.old.image.now result }
        ensures views { (self.new.pass.me.0 ≡ note_left self.old.pass.me.0) × (result.me.0 ≡ note_right self.old.pass.me.0) }
        ensures rests { Rests self.old.pass → Rests self.new.pass }
        ensures same { (self.new.image ≡ self.old.image) × (self.new.site ≡ self.old.site) × (self.new.gate ≡ self.old.gate) × (self.new.call ≡ self.old.call) × (self.new.engine ≡ self.old.engine) × (self.new.headway ≡ self.old.headway) × (self.new.off ≡ self.old.off) }
    {
        self.image.note(&mut self.pass)
    }

    /// Takes in a note, or a pass that is done with: this caller has seen what that had seen.
    pub fn meet(&mut self, other: Pass)
        requires caller { IsCallerOf self.old.image.now self.old.pass self.old.site self.old.call }
        requires other { IsPassOf self.old.image.now other }
        requires callers { 0 < self.old.pass.me.0.view.callers }
        ensures caller { IsCallerOf self.new.image.now self.new.pass self.new.site self.new.call }
        ensures views { self.new.pass.me.0 ≡ both self.old.pass.me.0 other.me.0 }
        ensures rests { Rests self.old.pass → HoldsOnly [] other.me.0.view → Rests self.new.pass }
        ensures same { (self.new.image ≡ self.old.image) × (self.new.site ≡ self.old.site) × (self.new.gate ≡ self.old.gate) × (self.new.call ≡ self.old.call) × (self.new.engine ≡ self.old.engine) × (self.new.headway ≡ self.old.headway) × (self.new.off ≡ self.old.off) }
    {
        self.image.meet(&mut self.pass, other);
    }

    /// How far the call has come that was made last: whether an event was taken since its first try, one of a split or a repair too, and which
    /// place it has drawn. Where the power was cut in its midst, a call that has a place is done, whatever the cut leaves; of one that has none
    /// no change is in the history, and what is left may have the change that it planned, or not.
    pub fn headway(&self) -> Headway
        ensures { result ≡ self.now.headway }
    {
        self.headway
    }

    /// Turns the power of the image off by one event, which stores the power word; the gate is not asked. No call of this caller takes an event
    /// from then on. That another caller's look finds the power off no clause says.
    pub fn turn_off(&mut self)
        requires caller { IsCallerOf self.old.image.now self.old.pass self.old.site self.old.call }
        requires callers { 0 < self.old.pass.me.0.view.callers }
        ensures caller { IsCallerOf self.new.image.now self.new.pass self.new.site self.new.call }
        ensures turned { TurnsOff (ground_in self.old.image.now) self.old.pass.me.0 self.new.pass.me.0 }
        ensures off { self.new.off ≡ true }
        ensures same { (self.new.image ≡ self.old.image) × (self.new.site ≡ self.old.site) × (self.new.gate ≡ self.old.gate) × (self.new.call ≡ self.old.call) × (self.new.engine ≡ self.old.engine) × (self.new.headway ≡ self.old.headway) }
    {
        vlock::turn_off(
            &self.image.table.shared,
            &self.image.geometry,
            &mut self.pass,
        );
        self.off = true;
    }

    /// Gives the pass back.
    pub fn into_pass(self) -> Pass
        ensures { result ≡ self.entry.pass }
    {
        self.pass
    }
}
