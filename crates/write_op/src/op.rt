//! The machine.

ghost use Rattle.std.specs.Prelude.{◌≡◌, ◌↔◌, IsTrue, true};
ghost use Rattle.op_core.specs.declared.want.Want.TheVariants as want;
ghost use Rattle.write_op.specs.declared.step.WriteEnd.TheVariants.{NoSlot};
ghost use Rattle.write_op.specs.declared.step.WriteStep.TheVariants.{Ended};
ghost use Rattle.write_op.specs.Steps.{nothing, begun, wanted, end_at, is_over, is_without_slot, kept_of};

use crate::asking::want_of;
use crate::step::{Seen, Stage, Task, WriteEnd, WriteStep};
use crate::taking::{end_of, take_in};
use bucket_meta::words::MARK_PLACE;
use map_model::Change;
use op_core::{Ans, Machine, Want};
use phase::{Buckets, Held, Kept, Path, Record, Role, Walk, give_next};
use way::key_hash;
use world::Site;

/// A change of what one key has, one attempt: an insert, an update or a remove.
#[derive(Clone, Copy)]
pub struct WriteOp {
    /// What stays the same.
    pub task: Task,
    /// Where it stands.
    pub stage: Stage,
}

/// Nothing was seen yet.
fn nothing() -> Seen
    ensures { result ≡ nothing }
{
    Seen {
        path: Path {
            root: 0,
            segment: 0,
            head: 0,
        },
        first: false,
        second: false,
        held: Held::none(),
        buckets: Buckets::none(),
        place: Role::Home,
        written: Record {
            slot: 0,
            key: 0,
            value: 0,
            fingers: 0,
            published: MARK_PLACE as u8,
            mark: 0,
        },
    }
}

/// Whether nothing more is to be done.
fn is_over(step: &WriteStep) -> bool
    ensures { result ≡ is_over step.now }
{
    match step {
        WriteStep::Ended(_) => true,
        WriteStep::Give(held, _) => give_next(held).is_none(),
        _ => false,
    }
}

impl WriteOp {
    /// A change that has done nothing yet, to be run there.
    pub fn new(change: Change, version_v: Site) -> WriteOp
        ensures { result ≡ begun change version_v }
    {
        let hash = key_hash(&version_v.geometry, change.key);
        WriteOp {
            task: Task {
                site: version_v,
                change,
                hash,
            },
            stage: Stage {
                seen: nothing(),
                step: WriteStep::Way(Walk::Power),
            },
        }
    }

    /// Whether it wants nothing more.
    pub fn wants_nothing(&self) -> bool
        ensures { IsTrue result ↔ (wanted self.now ≡ want.Done) }
    {
        is_over(&self.stage.step)
    }

    /// How it ended. It has to want nothing more.
    pub fn end(self) -> WriteEnd
        requires { wanted self ≡ want.Done }
        ensures { result ≡ end_at self.stage.step }
    {
        match self.stage.step {
            WriteStep::Ended(end) => end,
            WriteStep::Give(_, ending) => end_of(ending),
            _ => WriteEnd::Off,
        }
    }

    /// Whether an insert found no slot and keeps its locks: another machine goes on with what is [`kept`](WriteOp::kept).
    pub fn hands_on(&self) -> bool
        ensures is { result ≡ is_without_slot self.now.stage.step }
        ensures no_more { result ≡ true → wanted self.now ≡ want.Done }
        ensures no_slot { result ≡ true → end_at self.now.stage.step ≡ NoSlot }
    {
        matches!(self.stage.step, WriteStep::Ended(WriteEnd::NoSlot))
    }

    /// What an insert keeps that found no slot.
    pub fn kept(&self) -> Kept
        ensures { result ≡ kept_of self.now }
    {
        let (task, seen) = (&self.task, &self.stage.seen);
        Kept {
            site: task.site,
            change: task.change,
            hash: task.hash,
            segment: seen.path.segment,
            head: seen.path.head,
            held: seen.held,
            buckets: seen.buckets,
        }
    }
}

impl Machine for WriteOp {
    ghost use Rattle.write_op.specs.Steps.{taken};

    ghost wanted = { wanted };

    ghost taken = { taken };

    fn want(&self) -> Want {
        want_of(&self.task, &self.stage.seen, &self.stage.step)
    }

    fn take(&mut self, ans: Ans) {
        take_in(&self.task, &mut self.stage, ans)
    }
}
