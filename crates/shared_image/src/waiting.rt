//! Calls that are tried until they have a reply.

ghost use Rattle.std.specs.Prelude.{◌≡◌, false, None, is_none};
ghost use Rattle.map_model.specs.declared.call.Call.TheVariants.{Get, Insert, Update, Remove};
ghost use Rattle.shared_call.specs.Engines.{IsWordCall};
ghost use Rattle.shared_call.specs.Headway.{no_headway, HasHeadway, PlansCall, HasDrawn};
ghost use Rattle.shared_image.specs.Powered.{ground_in, IsOn, IsPassOf};
ghost use Rattle.shared_image.specs.Calling.{IsSiteOf, IsCallerOf, Rests};
ghost use Rattle.shared_image.specs.Waiting.{HasTaken, CameToReply, GaveUpFor};

use crate::caller::Caller;
use crate::calls::{first_try, next_try};
use crate::image::{Pass, SharedImage};
use crossbeam_utils::Backoff;
use map_model::{Call, Reply};
use outside::Gate;
use shared_call::{Answer, Engine, Headway};
use std::sync::Wait;
use world::Site;

/// How many events a try behind the first one takes at most, before the thread lets others go on.
const EVENTS_OF_TRY: u64 = 1_000;

/// Tries a call until it has a reply, which is given with its place, or the power is off. It splits and repairs what the call needs.
pub(crate) fn call_in<R: Wait, G: Gate>(
    rt: &R,
    image: &SharedImage,
    pass: &mut Pass,
    gate: &mut G,
    engine: &mut Engine,
    headway: &mut Headway,
    off: &mut bool,
    call: Call,
    site: &Site,
) -> Option<(Reply, u64)>
    requires on { IsOn image.now }
    requires pass { IsPassOf image.now pass.old }
    requires call { IsWordCall call }
    requires site { IsSiteOf image.now site.now }
    requires rests { off.old ≡ false → Rests pass.old }
    ensures pass { IsPassOf image.now pass.new }
    ensures came { CameToReply call pass.old.me.0 result pass.new.me.0 }
    ensures taken { HasTaken pass.old.me.0 (G.left gate.old) pass.new.me.0 (G.left gate.new) }
    ensures why { result ≡ None → GaveUpFor off.old pass.old.me.0 (G.left gate.old) pass.new.me.0 (G.left gate.new) (G.cuts gate.new) }
    ensures off { off.new ≡ is_none result }
    ensures headway { HasHeadway pass.old.me.0 no_headway pass.new.me.0 headway.new }
    ensures idle { result ≡ None → headway.new.begun ≡ false → pass.new.me.0 ≡ pass.old.me.0 }
    ensures drawn { result ≡ None → HasDrawn call pass.old.me.0.view headway.new.drew pass.new.me.0.view }
    ensures planned { result ≡ None → off.old ≡ false → PlansCall call pass.old.me.0.view pass.new.me.0.view }
{
    let backoff = Backoff::new();
    let mut answer = first_try(image, pass, gate, engine, headway, off, call, site);
    for _ in rt.forever() {
        answer = match answer {
            Answer::Replied(reply, place) => return Some((reply, place)),
            Answer::Off => return None,
            _ => {
                backoff.snooze();
                next_try(
                    image,
                    pass,
                    gate,
                    engine,
                    headway,
                    off,
                    call,
                    site,
                    EVENTS_OF_TRY,
                )
            }
        };
    }
    unreachable!()
}

impl<'a, G: Gate> Caller<'a, G> {
    /// Makes a call: it is tried until it has a reply, which is given with its place, or none where the power is off. What the call needs is
    /// split and repaired. Where it has no reply [`Caller::headway`] tells whether it has begun, and which place it drew.
    pub fn make<R: Wait>(&mut self, rt: &R, call: Call) -> Option<(Reply, u64)>
        requires caller { IsCallerOf self.old.image.now self.old.pass self.old.site self.old.call }
        requires call { IsWordCall call }
        requires rests { self.old.off ≡ false → Rests self.old.pass }
        ensures caller { IsCallerOf self.new.image.now self.new.pass self.new.site self.new.call }
        ensures same { (self.new.image ≡ self.old.image) × (self.new.site ≡ self.old.site) × (self.new.call ≡ call) }
        ensures came { CameToReply call self.old.pass.me.0 result self.new.pass.me.0 }
        ensures taken { HasTaken self.old.pass.me.0 (G.left self.old.gate) self.new.pass.me.0 (G.left self.new.gate) }
        ensures why { result ≡ None → GaveUpFor self.old.off self.old.pass.me.0 (G.left self.old.gate) self.new.pass.me.0 (G.left self.new.gate) (G.cuts self.new.gate) }
        ensures off { self.new.off ≡ is_none result }
        ensures headway { HasHeadway self.old.pass.me.0 no_headway self.new.pass.me.0 self.new.headway }
        ensures idle { result ≡ None → self.new.headway.begun ≡ false → self.new.pass.me.0 ≡ self.old.pass.me.0 }
        ensures drawn { result ≡ None → HasDrawn call self.old.pass.me.0.view self.new.headway.drew self.new.pass.me.0.view }
        ensures planned { result ≡ None → self.old.off ≡ false → PlansCall call self.old.pass.me.0.view self.new.pass.me.0.view }
    {
        self.call = call;
        call_in(
            rt,
            self.image,
            &mut self.pass,
            &mut self.gate,
            &mut self.engine,
            &mut self.headway,
            &mut self.off,
            call,
            &self.site,
        )
    }

    /// Looks a key up.
    pub fn get<R: Wait>(&mut self, rt: &R, key: u64) -> Option<(Reply, u64)>
        requires caller { IsCallerOf self.old.image.now self.old.pass self.old.site self.old.call }
        requires rests { self.old.off ≡ false → Rests self.old.pass }
        ensures caller { IsCallerOf self.new.image.now self.new.pass self.new.site self.new.call }
        ensures same { (self.new.image ≡ self.old.image) × (self.new.site ≡ self.old.site) × (self.new.call ≡ Get key) }
        ensures came { CameToReply (Get key) self.old.pass.me.0 result self.new.pass.me.0 }
        ensures taken { HasTaken self.old.pass.me.0 (G.left self.old.gate) self.new.pass.me.0 (G.left self.new.gate) }
        ensures why { result ≡ None → GaveUpFor self.old.off self.old.pass.me.0 (G.left self.old.gate) self.new.pass.me.0 (G.left self.new.gate) (G.cuts self.new.gate) }
        ensures off { self.new.off ≡ is_none result }
        ensures headway { HasHeadway self.old.pass.me.0 no_headway self.new.pass.me.0 self.new.headway }
        ensures idle { result ≡ None → self.new.headway.begun ≡ false → self.new.pass.me.0 ≡ self.old.pass.me.0 }
        ensures drawn { result ≡ None → HasDrawn (Get key) self.old.pass.me.0.view self.new.headway.drew self.new.pass.me.0.view }
        ensures planned { result ≡ None → self.old.off ≡ false → PlansCall (Get key) self.old.pass.me.0.view self.new.pass.me.0.view }
    {
        self.make(rt, Call::Get(key))
    }

    /// Adds an absent key with a value.
    pub fn insert<R: Wait>(&mut self, rt: &R, key: u64, value: u64) -> Option<(Reply, u64)>
        requires caller { IsCallerOf self.old.image.now self.old.pass self.old.site self.old.call }
        requires rests { self.old.off ≡ false → Rests self.old.pass }
        ensures caller { IsCallerOf self.new.image.now self.new.pass self.new.site self.new.call }
        ensures same { (self.new.image ≡ self.old.image) × (self.new.site ≡ self.old.site) × (self.new.call ≡ Insert key value) }
        ensures came { CameToReply (Insert key value) self.old.pass.me.0 result self.new.pass.me.0 }
        ensures taken { HasTaken self.old.pass.me.0 (G.left self.old.gate) self.new.pass.me.0 (G.left self.new.gate) }
        ensures why { result ≡ None → GaveUpFor self.old.off self.old.pass.me.0 (G.left self.old.gate) self.new.pass.me.0 (G.left self.new.gate) (G.cuts self.new.gate) }
        ensures off { self.new.off ≡ is_none result }
        ensures headway { HasHeadway self.old.pass.me.0 no_headway self.new.pass.me.0 self.new.headway }
        ensures idle { result ≡ None → self.new.headway.begun ≡ false → self.new.pass.me.0 ≡ self.old.pass.me.0 }
        ensures drawn { result ≡ None → HasDrawn (Insert key value) self.old.pass.me.0.view self.new.headway.drew self.new.pass.me.0.view }
        ensures planned { result ≡ None → self.old.off ≡ false → PlansCall (Insert key value) self.old.pass.me.0.view self.new.pass.me.0.view }
    {
        self.make(rt, Call::Insert(key, value))
    }

    /// Gives a present key another value.
    pub fn update<R: Wait>(&mut self, rt: &R, key: u64, value: u64) -> Option<(Reply, u64)>
        requires caller { IsCallerOf self.old.image.now self.old.pass self.old.site self.old.call }
        requires rests { self.old.off ≡ false → Rests self.old.pass }
        ensures caller { IsCallerOf self.new.image.now self.new.pass self.new.site self.new.call }
        ensures same { (self.new.image ≡ self.old.image) × (self.new.site ≡ self.old.site) × (self.new.call ≡ Update key value) }
        ensures came { CameToReply (Update key value) self.old.pass.me.0 result self.new.pass.me.0 }
        ensures taken { HasTaken self.old.pass.me.0 (G.left self.old.gate) self.new.pass.me.0 (G.left self.new.gate) }
        ensures why { result ≡ None → GaveUpFor self.old.off self.old.pass.me.0 (G.left self.old.gate) self.new.pass.me.0 (G.left self.new.gate) (G.cuts self.new.gate) }
        ensures off { self.new.off ≡ is_none result }
        ensures headway { HasHeadway self.old.pass.me.0 no_headway self.new.pass.me.0 self.new.headway }
        ensures idle { result ≡ None → self.new.headway.begun ≡ false → self.new.pass.me.0 ≡ self.old.pass.me.0 }
        ensures drawn { result ≡ None → HasDrawn (Update key value) self.old.pass.me.0.view self.new.headway.drew self.new.pass.me.0.view }
        ensures planned { result ≡ None → self.old.off ≡ false → PlansCall (Update key value) self.old.pass.me.0.view self.new.pass.me.0.view }
    {
        self.make(rt, Call::Update(key, value))
    }

    /// Takes a present key away.
    pub fn remove<R: Wait>(&mut self, rt: &R, key: u64) -> Option<(Reply, u64)>
        requires caller { IsCallerOf self.old.image.now self.old.pass self.old.site self.old.call }
        requires rests { self.old.off ≡ false → Rests self.old.pass }
        ensures caller { IsCallerOf self.new.image.now self.new.pass self.new.site self.new.call }
        ensures same { (self.new.image ≡ self.old.image) × (self.new.site ≡ self.old.site) × (self.new.call ≡ Remove key) }
        ensures came { CameToReply (Remove key) self.old.pass.me.0 result self.new.pass.me.0 }
        ensures taken { HasTaken self.old.pass.me.0 (G.left self.old.gate) self.new.pass.me.0 (G.left self.new.gate) }
        ensures why { result ≡ None → GaveUpFor self.old.off self.old.pass.me.0 (G.left self.old.gate) self.new.pass.me.0 (G.left self.new.gate) (G.cuts self.new.gate) }
        ensures off { self.new.off ≡ is_none result }
        ensures headway { HasHeadway self.old.pass.me.0 no_headway self.new.pass.me.0 self.new.headway }
        ensures idle { result ≡ None → self.new.headway.begun ≡ false → self.new.pass.me.0 ≡ self.old.pass.me.0 }
        ensures drawn { result ≡ None → HasDrawn (Remove key) self.old.pass.me.0.view self.new.headway.drew self.new.pass.me.0.view }
        ensures planned { result ≡ None → self.old.off ≡ false → PlansCall (Remove key) self.old.pass.me.0.view self.new.pass.me.0.view }
    {
        self.make(rt, Call::Remove(key))
    }
}
