//! Tries of calls over the parts of a caller.

ghost use Rattle.std.specs.Prelude.{◌≡◌, false, true};
ghost use Rattle.shared_call.specs.Engines.{IsWordCall, repairing};
ghost use Rattle.shared_call.specs.Headway.{no_headway, HasHeadway};
ghost use Rattle.world.specs.Facts.{Lives};
ghost use Rattle.world.specs.Views.{Has};
ghost use Rattle.shared_call.specs.Tries.{IsTrying};
ghost use Rattle.shared_image.specs.Powered.{ground_in, IsOn, IsPassOf};
ghost use Rattle.shared_image.specs.Calling.{IsSiteOf, Rests, says_off, HasCalled, HasGoneOnTrying};

use crate::image::{Pass, SharedImage};
use map_model::Call;
use outside::Gate;
use shared_call::{Answer, Engine, Headway, Op, RepairOp, try_call, try_on};
use world::Site;

/// Notes an answer: the gate is told of a reply.
fn note_answer<G: Gate>(gate: &mut G, answer: Answer) -> bool
    ensures off { result ≡ says_off answer }
    ensures left { G.left gate.new ≡ G.left gate.old }
    ensures cuts { G.cuts gate.new ≡ G.cuts gate.old }
{
    match answer {
        Answer::Replied(..) => {
            gate.told();
            false
        }
        Answer::Off => true,
        Answer::Again(_) | Answer::NeedSplit(_) | Answer::Stale(..) => false,
        Answer::Worked | Answer::Left => false,
    }
}

/// The first try of a call, by a caller that rests; where its power was off before, nothing is done. The headway begins with it.
pub(crate) fn first_try<G: Gate>(
    image: &SharedImage,
    pass: &mut Pass,
    gate: &mut G,
    engine: &mut Engine,
    headway: &mut Headway,
    off: &mut bool,
    call: Call,
    site: &Site,
) -> Answer
    requires on { IsOn image.now }
    requires pass { IsPassOf image.now pass.old }
    requires call { IsWordCall call }
    requires site { IsSiteOf image.now site.now }
    requires rests { off.old ≡ false → Rests pass.old }
    ensures pass { IsPassOf image.now pass.new }
    ensures called { HasCalled (ground_in image.now) site.now call off.old pass.old.me.0 (G.left gate.old) (G.cuts gate.old) result engine.new pass.new.me.0 (G.left gate.new) (G.cuts gate.new) }
    ensures off { off.new ≡ says_off result }
    ensures headway { HasHeadway pass.old.me.0 no_headway pass.new.me.0 headway.new }
{
    if *off {
        *headway = Headway::none();
        return Answer::Off;
    }
    let answer = try_call(
        &image.table.shared,
        &image.geometry,
        pass,
        gate,
        engine,
        headway,
        call,
        site,
    );
    *off = note_answer(gate, answer);
    answer
}

/// A try behind it, of the attempt that is under way, by `most` events at the most, each of which is added to the headway.
pub(crate) fn next_try<G: Gate>(
    image: &SharedImage,
    pass: &mut Pass,
    gate: &mut G,
    engine: &mut Engine,
    headway: &mut Headway,
    off: &mut bool,
    call: Call,
    site: &Site,
    most: u64,
) -> Answer
    requires on { IsOn image.now }
    requires pass { IsPassOf image.now pass.old }
    requires call { IsWordCall call }
    requires site { IsSiteOf image.now site.now }
    requires trying { off.old ≡ false → IsTrying (ground_in image.now) site.now call engine.old pass.old.me.0 }
    ensures pass { IsPassOf image.now pass.new }
    ensures tried { HasGoneOnTrying (ground_in image.now) site.now call most off.old engine.old pass.old.me.0 (G.left gate.old) (G.cuts gate.old) result engine.new pass.new.me.0 (G.left gate.new) (G.cuts gate.new) }
    ensures off { off.new ≡ says_off result }
    ensures headway { HasHeadway pass.old.me.0 headway.old pass.new.me.0 headway.new }
{
    if *off {
        return Answer::Off;
    }
    let answer = try_on(
        &image.table.shared,
        &image.geometry,
        pass,
        gate,
        engine,
        headway,
        call,
        site,
        most,
    );
    *off = note_answer(gate, answer);
    answer
}

/// The engine that repairs a segment, and has done nothing yet.
pub(crate) fn repair_of(site: &Site, segment: u64) -> Engine
    ensures { result ≡ repairing site.now segment }
{
    Engine::new(Op::Repair(RepairOp::new(*site, segment)))
}

/// A try to repair a segment that the pass knows to be live, with the engine that has done nothing yet.
pub(crate) fn try_repair_in<G: Gate>(
    image: &SharedImage,
    pass: &mut Pass,
    gate: &mut G,
    engine: &mut Engine,
    headway: &mut Headway,
    off: &mut bool,
    call: Call,
    site: &Site,
    segment: u64,
    most: u64,
) -> Answer
    requires on { IsOn image.now }
    requires pass { IsPassOf image.now pass.old }
    requires call { IsWordCall call }
    requires site { IsSiteOf image.now site.now }
    requires engine { engine.old ≡ repairing site.now segment }
    requires rests { off.old ≡ false → Rests pass.old }
    requires known { off.old ≡ false → Has (Lives segment) pass.old.me.0.view.facts }
    ensures pass { IsPassOf image.now pass.new }
    ensures tried { HasGoneOnTrying (ground_in image.now) site.now call most off.old (repairing site.now segment) pass.old.me.0 (G.left gate.old) (G.cuts gate.old) result engine.new pass.new.me.0 (G.left gate.new) (G.cuts gate.new) }
    ensures off { off.new ≡ says_off result }
    ensures headway { HasHeadway pass.old.me.0 headway.old pass.new.me.0 headway.new }
{
    shared_call::attempts_begin_and_end();
    let _ = segment;
    next_try(image, pass, gate, engine, headway, off, call, site, most)
}
