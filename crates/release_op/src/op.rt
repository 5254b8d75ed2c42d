//! The machine, its steps, and how it ends.

ghost use Rattle.std.specs.Prelude.{◌≡◌, ◌↔◌, IsTrue};
ghost use Rattle.op_core.specs.declared.want.Want.TheVariants as want;
ghost use Rattle.release_op.specs.Steps.{held_in, giving, begun, wanted, taken, end_of, next_in};

use op_core::{Ans, Machine, Want};
use phase::{Held, Kept, give_next, give_want, given};

/// How a release ends.
#[derive(Clone, Copy, Debug)]
pub enum ReleaseEnd {
    /// The segment in this slot has no room for the key: it is to be split, and the insert made again.
    NeedSplit(u64),
    /// It was cut off before it had given a lock back: nothing is decided.
    Off,
}

/// Which event a release does next.
#[derive(Clone, Copy)]
pub enum ReleaseStep {
    /// The first of the locks that were kept is to be given back.
    Begin,
    /// The first of these locks is to be given back.
    Give(Held),
    /// Nothing more is to be done.
    Ended,
}

/// An insert that found no slot, nothing to move and a full stash gives all its locks back, and its segment is to be split.
#[derive(Clone, Copy)]
pub struct ReleaseOp {
    /// What was kept.
    pub kept: Kept,
    /// Where it stands.
    pub step: ReleaseStep,
}

/// The locks that are still held.
fn held_in(kept: &Kept, step: &ReleaseStep) -> Held
    ensures { result ≡ held_in kept.now step.now }
{
    match step {
        ReleaseStep::Begin => kept.held,
        ReleaseStep::Give(held) => *held,
        ReleaseStep::Ended => Held::none(),
    }
}

/// The step in which these locks are given back; where there is none, the end.
fn giving(held: Held) -> ReleaseStep
    ensures { result ≡ giving held }
{
    match give_next(&held) {
        Some(_) => ReleaseStep::Give(held),
        None => ReleaseStep::Ended,
    }
}

impl ReleaseOp {
    /// Goes on from what an insert kept that found no room.
    pub fn new(kept: Kept) -> ReleaseOp
        ensures { result ≡ begun kept }
    {
        ReleaseOp {
            kept,
            step: ReleaseStep::Begin,
        }
    }

    /// Whether it wants nothing more.
    pub fn wants_nothing(&self) -> bool
        ensures { IsTrue result ↔ (wanted self.now ≡ want.Done) }
    {
        want_of(self) == Want::Done
    }

    /// How it ended. It has to want nothing more.
    pub fn end(self) -> ReleaseEnd
        requires { wanted self ≡ want.Done }
        ensures { result ≡ end_of self }
    {
        match self.step {
            ReleaseStep::Give(_) | ReleaseStep::Ended => ReleaseEnd::NeedSplit(self.kept.segment),
            ReleaseStep::Begin => ReleaseEnd::Off,
        }
    }

    /// Goes on by an answer. A call of its own, since what it needs to make a step would else be got ready at each word of a bucket
    /// that the machines before it load, and these are most events of a call.
    #[inline(never)]
    fn go_on(&mut self, ans: Ans)
        ensures { self.new ≡ taken self.old ans }
    {
        self.step = step_after(&self.kept, self.step, ans);
    }
}

/// What a release wants.
fn want_of(op: &ReleaseOp) -> Want
    ensures { result ≡ wanted op.now }
{
    let held = held_in(&op.kept, &op.step);
    give_want(&op.kept.site, op.kept.hash, op.kept.segment, &held)
}

/// What an answer makes of it; one that is none of a store leaves it as it is.
fn step_after(kept: &Kept, step: ReleaseStep, ans: Ans) -> ReleaseStep
    ensures { result ≡ next_in kept.now step ans }
{
    match ans {
        Ans::Passed => {
            let held = held_in(kept, &step);
            giving(given(&held))
        }
        _ => step,
    }
}

impl Machine for ReleaseOp {
    ghost wanted = { wanted };

    ghost taken = { taken };

    fn want(&self) -> Want {
        want_of(self)
    }

    fn take(&mut self, ans: Ans) {
        self.go_on(ans);
    }
}
