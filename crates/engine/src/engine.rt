//! The engine.

ghost use Rattle.std.specs.Prelude.{◌≡◌, ◌≢◌, ◌↔◌, IsTrue};
ghost use Rattle.op_core.specs.declared.want.Want.TheVariants as want;
ghost use Rattle.engine.specs.declared.engine.Op.TheVariants.{Move, Release};
ghost use Rattle.engine.specs.OpPart.{move_of, release_of, op_after_move, op_after_guard, answered, hands_on, handed_on, calls, work_of, op_part};
ghost use Rattle.engine.specs.Engine.{running, begun, splitting, repairing, anew, wanted, taken, end_of, reply_of_end, is_again};

use directory_op::{DirectoryEnd, DirectoryOp, DirectoryStep};
use enclose_op::{EncloseEnd, EncloseOp, NotEnclosed};
use map_model::{Call, Change, Reply};
use mend_op::{MendEnd, MendOp};
use move_op::{MoveEnd, MoveOp};
use op_core::{Ans, Machine, Want};
use read_op::{ReadEnd, ReadOp};
use redirect_op::{RedirectEnd, RedirectOp};
use release_op::{ReleaseEnd, ReleaseOp};
use repair_op::{RepairEnd, RepairOp};
use rest_op::{RestEnd, RestOp};
use split_op::{SplitEnd, SplitOp};
use stash_op::{StashEnd, StashOp};
use world::Site;
use write_op::{WriteEnd, WriteOp};

/// The machines that an engine runs.
#[derive(Clone, Copy)]
pub enum Op {
    /// A get.
    Read(ReadOp),
    /// An insert, an update or a remove.
    Write(WriteOp),
    /// An insert that found no slot.
    Move(MoveOp),
    /// An insert that found nothing to move.
    Stash(StashOp),
    /// An insert that found the stash full too, and gives all back.
    Release(ReleaseOp),
    /// A segment that is to be split is enclosed.
    Enclose(EncloseOp),
    /// Its new side is made.
    Split(SplitOp),
    /// That is published.
    Publish(DirectoryOp),
    /// The rest is done.
    Rest(RestOp),
    /// A stale segment is guarded, and a split that has no ready side taken back.
    Repair(RepairOp),
    /// Entries are redirected to its ready side.
    Redirect(RedirectOp),
    /// The rest is mended.
    Mend(MendOp),
}

/// How an attempt ended: the end of its last machine.
#[derive(Clone, Copy, Debug)]
pub enum End {
    /// Of a get.
    Read(ReadEnd),
    /// Of a change.
    Write(WriteEnd),
    /// Of an insert for which a record was to move.
    Move(MoveEnd),
    /// Of an insert whose record was to come to the stash.
    Stash(StashEnd),
    /// Of an insert that gave all back.
    Release(ReleaseEnd),
    /// Of an enclosing.
    Enclose(EncloseEnd),
    /// Of the making of a side, where that has ended.
    Split(Option<SplitEnd>),
    /// Of its publishing.
    Publish(DirectoryEnd),
    /// Of the rest.
    Rest(RestEnd),
    /// Of the beginning of a repair, where that has ended.
    Repair(Option<RepairEnd>),
    /// Of the redirecting of entries, where that has ended.
    Redirect(Option<RedirectEnd>),
    /// Of the mending, where that has ended.
    Mend(Option<MendEnd>),
}

impl End {
    /// The reply, with its place: the number of changes before it. An attempt that is to be made again has none, nor one that
    /// split or repaired a segment, or is to be followed by one that does.
    pub fn reply(self) -> Option<(Reply, u64)>
        ensures { result ≡ reply_of_end self }
    {
        match self {
            End::Read(ReadEnd::Found(value, place)) => Some((Reply::Found(value), place)),
            End::Read(ReadEnd::Absent(place)) => Some((Reply::Absent, place)),
            End::Write(WriteEnd::Replied(reply, place))
            | End::Move(MoveEnd::Replied(reply, place))
            | End::Stash(StashEnd::Replied(reply, place))
            | End::Enclose(EncloseEnd::Back(NotEnclosed::Replied(reply, place))) => Some((
                reply, place,
            )),
            End::Split(Some(SplitEnd::Full(place))) => Some((Reply::Full, place)),
            End::Read(_) | End::Write(_) | End::Move(_) | End::Stash(_) | End::Release(_) => None,
            End::Enclose(_) | End::Split(_) | End::Publish(_) | End::Rest(_) => None,
            End::Repair(_) | End::Redirect(_) | End::Mend(_) => None,
        }
    }

    /// Whether the attempt is to be made again.
    pub fn is_again(self) -> bool
        ensures { result ≡ is_again self }
    {
        match self {
            End::Read(end) => matches!(end, ReadEnd::Again(_)),
            End::Write(end) => matches!(end, WriteEnd::Again(_)),
            End::Move(end) => matches!(end, MoveEnd::Again(_)),
            End::Stash(end) => matches!(end, StashEnd::Again(_)),
            End::Enclose(end) => matches!(end, EncloseEnd::Back(NotEnclosed::Again(_))),
            End::Split(end) => matches!(end, Some(SplitEnd::Again(_))),
            End::Repair(end) => matches!(end, Some(RepairEnd::Again(_))),
            End::Redirect(end) => matches!(end, Some(RedirectEnd::Again(_))),
            End::Release(_) | End::Publish(_) | End::Rest(_) | End::Mend(_) => false,
        }
    }
}

// The machines of a split and of a repair are run by calls of their own, since the room that they need for a step would else be got ready at
// each event of each call.

/// The event that a machine of a split or of a repair wants next.
#[inline(never)]
fn outer_want<M: Machine>(op: &M) -> Want
    ensures { result ≡ M.wanted op.now }
{
    op.want()
}

/// Whether a machine of a split or of a repair wants nothing more.
#[inline(never)]
fn outer_wants_nothing<M: Machine>(op: &M) -> bool
    ensures { IsTrue result ↔ (M.wanted op.now ≡ want.Done) }
{
    op.want() == Want::Done
}

/// A machine of a split or of a repair takes the answer to that event.
#[inline(never)]
fn outer_take<M: Machine>(op: &mut M, ans: Ans)
    ensures { op.new ≡ M.taken op.old ans }
{
    op.take(ans);
}

/// An attempt of a call: it asks for one event of the memory at a time, and puts the parts of the call one after another.
#[derive(Clone, Copy)]
pub struct Engine {
    op: Op,
}

impl Engine {
    /// The engine of a machine.
    pub fn new(op: Op) -> Engine
        ensures { result ≡ running op }
    {
        Engine { op }
    }

    /// The engine of a call that has done nothing yet.
    pub fn of(call: Call, site: Site) -> Engine
        ensures { result ≡ begun site call }
    {
        Engine::new(match call.change() {
            Some(change) => Op::Write(WriteOp::new(change, site)),
            None => Op::Read(ReadOp::new(call.key(), site)),
        })
    }

    /// Becomes the engine of a call that has done nothing yet. Where a machine of its kind stands here, that is begun anew in its place, since
    /// to make the room ready that a machine of a split takes would cost more than most calls.
    pub fn restart(&mut self, call: Call, site: Site)
        ensures { self.new ≡ begun site call }
    {
        match call.change() {
            Some(change) => match &mut self.op {
                Op::Write(op) => *op = WriteOp::new(change, site),
                _ => self.op = Op::Write(WriteOp::new(change, site)),
            },
            None => match &mut self.op {
                Op::Read(op) => *op = ReadOp::new(call.key(), site),
                _ => self.op = Op::Read(ReadOp::new(call.key(), site)),
            },
        }
    }

    /// Becomes the engine that splits a segment for a change, and has done nothing yet.
    #[inline(never)]
    fn split(&mut self, site: Site, change: Change, segment: u64)
        ensures { self.new ≡ splitting site change segment }
    {
        self.op = Op::Enclose(EncloseOp::new(site, change, segment));
    }

    /// Becomes the engine that repairs a stale segment, and has done nothing yet.
    #[inline(never)]
    fn repair(&mut self, site: Site, segment: u64)
        ensures { self.new ≡ repairing site segment }
    {
        self.op = Op::Repair(RepairOp::new(site, segment));
    }

    /// Becomes the engine of the next attempt of a call whose attempt ended so, without a reply: where a segment is to be split, it splits
    /// that, where one is stale, it repairs that, and else the call is begun anew.
    pub fn renew(&mut self, call: Call, site: Site, end: End)
        ensures { self.new ≡ anew site call end }
    {
        match (call.change(), end) {
            (Some(change), End::Release(ReleaseEnd::NeedSplit(segment))) => {
                self.split(site, change, segment);
            }
            (_, End::Read(ReadEnd::Stale(segment, _))) => self.repair(site, segment),
            (_, End::Write(WriteEnd::Stale(segment, _))) => self.repair(site, segment),
            _ => self.restart(call, site),
        }
    }

    // A get is asked and answered before any other machine and by itself (`next`, `take`, `wants_nothing`): what the others need is then got ready in
    // calls of their own.

    /// The event that it wants next.
    #[inline]
    pub fn next(&self) -> Want
        ensures { result ≡ wanted self.now }
    {
        match &self.op {
            Op::Read(op) => op.want(),
            _ => self.next_of_any(),
        }
    }

    /// The event that it wants next, whichever its machine is.
    #[inline(never)]
    fn next_of_any(&self) -> Want
        ensures { result ≡ wanted self.now }
    {
        match &self.op {
            Op::Read(op) => op.want(),
            Op::Write(op) => op.want(),
            Op::Move(op) => op.want(),
            Op::Stash(op) => op.want(),
            Op::Release(op) => op.want(),
            Op::Enclose(op) => outer_want(op),
            Op::Split(op) => outer_want(op),
            Op::Publish(op) => outer_want(op),
            Op::Rest(op) => outer_want(op),
            Op::Repair(op) => outer_want(op),
            Op::Redirect(op) => outer_want(op),
            Op::Mend(op) => outer_want(op),
        }
    }

    // The next are calls of their own too. Each puts a machine in the place of the one before, and does not return it: what is returned is
    // copied once more, with all the room that the largest machine takes.

    /// The move of a record goes on, where an insert found no slot.
    #[inline(never)]
    fn go_to_move(&mut self, op: WriteOp)
        ensures { self.new ≡ running (Move (move_of op)) }
    {
        self.op = Op::Move(MoveOp::new(op.kept()));
    }

    /// All is given back, where the stash is full too.
    #[inline(never)]
    fn go_to_release(&mut self, op: StashOp)
        ensures { self.new ≡ running (Release (release_of op)) }
    {
        self.op = Op::Release(ReleaseOp::new(op.kept()));
    }

    /// The stash goes on, where no record can move; and all is given back at once, where both stash buckets are held already, and full.
    #[inline(never)]
    fn go_to_stash(&mut self, op: MoveOp)
        ensures { self.new ≡ running (op_after_move op) }
    {
        let stash = StashOp::new(op.kept());
        if stash.hands_on() {
            self.go_to_release(stash);
        } else {
            self.op = Op::Stash(stash);
        }
    }

    /// A segment is guarded that is to be repaired: entries are redirected to its ready side, and where it has none the rest is mended at once.
    #[inline(never)]
    fn go_to_redirect(&mut self, op: RepairOp)
        ensures { self.new ≡ running (op_after_guard op) }
    {
        let redirect = RedirectOp::new(op.guarded);
        self.op = if redirect.hands_on() {
            Op::Mend(MendOp::new(redirect.guarded))
        } else {
            Op::Redirect(redirect)
        };
    }

    /// The next machine of a split or of a repair goes on: the side is made of a segment that is enclosed, that is published, and the rest is
    /// done; or entries are redirected, and the rest is mended.
    #[inline(never)]
    fn hand_on_outer(&mut self)
        requires { work_of self.old.op ≢ calls }
        ensures { self.new ≡ running (handed_on self.old.op) }
    {
        match &self.op {
            Op::Enclose(op) => self.op = Op::Split(SplitOp::new(op.enclosed)),
            Op::Split(op) => self.op = Op::Publish(DirectoryOp::new(op.copied)),
            Op::Publish(op) => self.op = Op::Rest(RestOp::new(op.copied.whole)),
            Op::Repair(op) => {
                let repair = *op;
                self.go_to_redirect(repair);
            }
            Op::Redirect(op) => self.op = Op::Mend(MendOp::new(op.guarded)),
            Op::Rest(_) | Op::Mend(_) => {}
            Op::Read(_) | Op::Write(_) | Op::Move(_) | Op::Stash(_) | Op::Release(_) => {
                unreachable!()
            }
        }
    }

    /// The machine that goes on from what this one kept takes its place.
    #[inline(never)]
    fn hand_on(&mut self)
        ensures { self.new ≡ running (handed_on self.old.op) }
    {
        match self.op {
            Op::Write(op) => self.go_to_move(op),
            Op::Move(op) => self.go_to_stash(op),
            Op::Stash(op) => self.go_to_release(op),
            Op::Enclose(_) | Op::Split(_) | Op::Publish(_) => self.hand_on_outer(),
            Op::Repair(_) | Op::Redirect(_) => self.hand_on_outer(),
            Op::Read(_) | Op::Release(_) | Op::Rest(_) | Op::Mend(_) => {}
        }
    }

    /// Takes the answer to that event; true where the machine hands on.
    fn answer(&mut self, ans: Ans) -> bool
        ensures machine { self.new ≡ running (answered self.old.op ans) }
        ensures on { result ≡ hands_on (answered self.old.op ans) }
    {
        match &mut self.op {
            Op::Read(op) => {
                op.take(ans);
                false
            }
            Op::Write(op) => {
                op.take(ans);
                op.hands_on()
            }
            Op::Move(op) => {
                op.take(ans);
                op.hands_on()
            }
            Op::Stash(op) => {
                op.take(ans);
                op.hands_on()
            }
            Op::Release(op) => {
                op.take(ans);
                false
            }
            Op::Enclose(op) => {
                outer_take(op, ans);
                op.hands_on()
            }
            Op::Split(op) => {
                outer_take(op, ans);
                op.hands_on()
            }
            Op::Publish(op) => {
                outer_take(op, ans);
                op.hands_on()
            }
            Op::Rest(op) => {
                outer_take(op, ans);
                false
            }
            Op::Repair(op) => {
                outer_take(op, ans);
                op.hands_on()
            }
            Op::Redirect(op) => {
                outer_take(op, ans);
                op.hands_on()
            }
            Op::Mend(op) => {
                outer_take(op, ans);
                false
            }
        }
    }

    /// Takes the answer to that event, and goes on to the next part of the call where one has ended.
    #[inline]
    pub fn take(&mut self, ans: Ans)
        ensures { self.new ≡ taken self.old ans }
    {
        match &mut self.op {
            Op::Read(op) => op.take(ans),
            _ => self.take_in_any(ans),
        }
    }

    /// Takes the answer to that event, whichever its machine is, and goes on to the next part of the call.
    #[inline(never)]
    fn take_in_any(&mut self, ans: Ans)
        ensures { self.new ≡ taken self.old ans }
    {
        if self.answer(ans) {
            self.hand_on();
        }
    }

    /// Whether it wants nothing more.
    #[inline]
    pub fn wants_nothing(&self) -> bool
        ensures { IsTrue result ↔ (wanted self.now ≡ want.Done) }
    {
        match &self.op {
            Op::Read(op) => op.wants_nothing(),
            _ => self.any_wants_nothing(),
        }
    }

    /// Whether it wants nothing more, whichever its machine is.
    #[inline(never)]
    fn any_wants_nothing(&self) -> bool
        ensures { IsTrue result ↔ (wanted self.now ≡ want.Done) }
    {
        match &self.op {
            Op::Read(op) => op.wants_nothing(),
            Op::Write(op) => op.wants_nothing(),
            Op::Move(op) => op.wants_nothing(),
            Op::Stash(op) => op.wants_nothing(),
            Op::Release(op) => op.wants_nothing(),
            Op::Enclose(op) => outer_wants_nothing(op),
            Op::Split(op) => outer_wants_nothing(op),
            Op::Publish(op) => outer_wants_nothing(op),
            Op::Rest(op) => outer_wants_nothing(op),
            Op::Repair(op) => outer_wants_nothing(op),
            Op::Redirect(op) => outer_wants_nothing(op),
            Op::Mend(op) => outer_wants_nothing(op),
        }
    }

    /// Whether it waits for the guard of the directory.
    #[inline(never)]
    pub fn waits(&self) -> bool
        ensures { result ≡ op_part.is_waiting self.now.op }
    {
        match &self.op {
            Op::Publish(op) => {
                matches!(op.step, DirectoryStep::TakeGuard | DirectoryStep::AskPower)
            }
            Op::Read(_) | Op::Write(_) | Op::Move(_) | Op::Stash(_) | Op::Release(_) => false,
            Op::Enclose(_) | Op::Split(_) | Op::Rest(_) => false,
            Op::Repair(_) | Op::Redirect(_) | Op::Mend(_) => false,
        }
    }

    /// How the attempt ended. It has to want nothing more.
    pub fn end(self) -> End
        requires { wanted self ≡ want.Done }
        ensures { result ≡ end_of self }
    {
        match self.op {
            Op::Read(op) => End::Read(op.end()),
            Op::Write(op) => End::Write(op.end()),
            Op::Move(op) => End::Move(op.end()),
            Op::Stash(op) => End::Stash(op.end()),
            Op::Release(op) => End::Release(op.end()),
            Op::Enclose(op) => End::Enclose(op.end()),
            Op::Split(op) => End::Split(op.end()),
            Op::Publish(op) => End::Publish(op.end()),
            Op::Rest(op) => End::Rest(op.end()),
            Op::Repair(op) => End::Repair(op.end()),
            Op::Redirect(op) => End::Redirect(op.end()),
            Op::Mend(op) => End::Mend(op.end()),
        }
    }
}
