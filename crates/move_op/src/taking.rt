//! What an answer makes of a displacement.

ghost use Rattle.std.specs.Prelude.{◌≡◌};
ghost use Rattle.move_op.specs.Steps.{go, end_of, giving, give, locked_to, without, chosen, filled, filled_with, settled, made_to, next_in, IsElsewhere};

use crate::op::MoveOp;
use crate::shift::{record_of, shift_in, target_of};
use crate::step::{Direction, Leg, MoveEnd, MoveStep, Shift};
use bucket_meta::words::BUCKET_WORDS;
use map_model::Reply;
use op_core::{Ans, Why};
use phase::{
    Ending, Held, Load, Made, Make, Take, Taken, give_next, given, load_put, make_next, take_next,
};

// ---- ends

/// The end that comes once all locks are given back.
pub fn end_of(ending: Ending) -> MoveEnd
    ensures { result ≡ end_of ending }
{
    match ending {
        Ending::Replied(reply, place) => MoveEnd::Replied(reply, place),
        Ending::Again(why) => MoveEnd::Again(why),
    }
}

/// The step in which these locks are given back, one after another; where there is none, the end.
fn giving(held: Held, ending: Ending) -> MoveStep
    ensures { result ≡ giving held ending }
{
    match give_next(&held) {
        Some(_) => MoveStep::Give(held, ending),
        None => MoveStep::Ended(end_of(ending)),
    }
}

/// The locks that are held are to be given back, and then it ends so.
fn give(op: &mut MoveOp, ending: Ending)
    ensures { op.new ≡ give op.old.kept ending }
{
    op.step = giving(op.kept.held, ending);
}

// ---- a lock

/// After a look at the lock word of a third bucket, or an exchange of it.
fn locked_to(op: &mut MoveOp, direction: Direction, lock: u64, taken: Taken)
    ensures { op.new ≡ locked_to op.old.kept direction lock taken }
{
    match taken {
        Taken::On(take) => op.step = MoveStep::Lock(direction, take),
        Taken::Held { free } => {
            op.kept.held = op.kept.held.with(target_of(direction), free);
            op.step = MoveStep::Fill(direction, Load::begin());
        }
        Taken::Busy { seen } => give(op, Ending::Again(Why::Busy { word: lock, seen })),
        Taken::Moved { before, after } => give(
            op,
            Ending::Again(Why::Moved {
                word: lock,
                before,
                after,
            }),
        ),
        Taken::Spent => op.step = MoveStep::CountSpent,
    }
}

// ---- a bucket

/// Where no record moves in this direction: the other one is tried, and then no more.
fn without(direction: Direction) -> MoveStep
    ensures { result ≡ without direction }
{
    match direction {
        Direction::Forward => MoveStep::Lock(Direction::Backward, Take::Look),
        Direction::Backward => MoveStep::Ended(MoveEnd::NoMove),
    }
}

/// The step in which a shift begins, if there is one.
fn chosen(direction: Direction, shift: Option<Shift>) -> MoveStep
    ensures { result ≡ chosen direction shift }
{
    match shift {
        Some(shift) => MoveStep::Make(shift, Leg::Copy, Make::Key),
        None => without(direction),
    }
}

/// After the last word of a third bucket, whose words were put in.
fn filled(op: &mut MoveOp, direction: Direction)
    ensures { op.new ≡ filled op.old.kept direction }
{
    op.step = chosen(direction, shift_in(&op.kept, direction));
}

/// After the last word of a third bucket.
fn filled_with(op: &mut MoveOp, direction: Direction, words: [u64; BUCKET_WORDS])
    ensures { op.new ≡ filled_with op.old.kept direction words }
{
    op.kept.buckets.put(target_of(direction), words);
    filled(op, direction);
}

// ---- stores

/// After the last event of what is stored: the next comes, and after the new record the draw.
fn settled(shift: Shift, leg: Leg) -> MoveStep
    ensures { result ≡ settled shift leg }
{
    match leg {
        Leg::Copy => MoveStep::Make(shift, Leg::Clear, Make::Publish),
        Leg::Clear => MoveStep::Make(shift, Leg::Insert, Make::Key),
        Leg::Insert => MoveStep::Draw(shift),
    }
}

/// After a store, a flush or a fence.
fn made_to(shift: Shift, leg: Leg, made: Made) -> MoveStep
    ensures { result ≡ made_to shift leg made }
{
    match made {
        Made::On(make) => MoveStep::Make(shift, leg, make),
        Made::Settled => settled(shift, leg),
    }
}

// The next is a call of its own, since what it needs to make a step would else be got ready at each word of a bucket too, and
// these are most events.

/// After an answer to any step but the load of a bucket's words.
#[inline(never)]
fn take_at(op: &mut MoveOp, ans: Ans)
    requires { IsElsewhere op.old.step }
    ensures { op.new ≡ next_in op.old.kept op.old.step ans }
{
    match (op.step, ans) {
        (MoveStep::Lock(direction, take), ans) => {
            let lock = op.kept.lock_of(target_of(direction));
            locked_to(op, direction, lock, take_next(&take, ans));
        }
        (MoveStep::CountSpent, Ans::Value(count)) => {
            give(op, Ending::Replied(Reply::Spent, count));
        }
        (MoveStep::Make(shift, leg, make), Ans::Passed) => {
            let made = make_next(record_of(&shift, leg).slot, make);
            op.step = made_to(shift, leg, made);
        }
        (MoveStep::Draw(_), Ans::Drawn(place)) => give(op, Ending::Replied(Reply::Done, place)),
        (MoveStep::Give(held, ending), Ans::Passed) => op.step = giving(given(&held), ending),
        _ => {}
    }
}

/// After an answer. One of another kind than was asked for leaves the displacement where it is.
pub fn take_in(op: &mut MoveOp, ans: Ans)
    ensures { op.new ≡ next_in op.old.kept op.old.step ans }
{
    if let MoveStep::Fill(direction, load) = &mut op.step {
        if let Ans::Value(value) = ans {
            if !load_put(load, value) {
                let (direction, words) = (*direction, load.words);
                filled_with(op, direction, words);
            }
        }
    } else {
        take_at(op, ans);
    }
}
