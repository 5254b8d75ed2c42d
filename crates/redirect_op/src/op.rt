//! The machine, and its steps.

ghost use Rattle.std.specs.Prelude.{◌≡◌, ◌↔◌, IsTrue, true};
ghost use Rattle.op_core.specs.declared.want.Want.TheVariants as want;
ghost use Rattle.redirect_op.specs.Steps.{begun, side_region_head, store_to, behind, rooted, met_head, stored, settled, busy, wanted, taken, end_of, is_redirected};

use crate::step::{RedirectEnd, RedirectStep};
use directory_op::places::{entry_word_at, side_first, side_last};
use image_layout::state::NO_VERSION;
use image_layout::{FREE_GUARD, ROOT_WORD};
use op_core::{Ans, Machine, Want, Why};
use repair_op::Guarded;
use rounds::Rounds;
use segment_head::split::one_side_head;
use segment_head::word::{FREE, depth_of};
use way::head_word;

/// The redirecting of the entries of a stale segment's 1-side.
#[derive(Clone, Copy)]
pub struct RedirectOp {
    /// The segment that is repaired.
    pub guarded: Guarded,
    /// The root depth.
    pub root: u64,
    /// The rounds in which entries are stored.
    pub rounds: Rounds,
    /// Where it stands.
    pub step: RedirectStep,
}

/// A header with the depth and the pattern of the 1-side. Entries are found by these two alone, so its version and its state do not matter: it
/// has the version that no image has, and is that of a free slot.
fn side_region_head(head: u64) -> u64
    ensures { result ≡ side_region_head head }
{
    one_side_head(NO_VERSION, FREE, head)
}

/// The end of an attempt that found this word of a guard taken, by this number.
fn busy(word: u64, seen: u64) -> RedirectEnd
    ensures { result ≡ busy word seen }
{
    RedirectEnd::Again(Why::Busy { word, seen })
}

impl RedirectOp {
    /// Goes on from a segment that is guarded; without a ready side there is nothing to do.
    pub fn new(guarded: Guarded) -> RedirectOp
        ensures { result ≡ begun guarded }
    {
        RedirectOp {
            guarded,
            root: 0,
            rounds: Rounds::begun(),
            step: match guarded.side {
                Some(_) => RedirectStep::Guard,
                None => RedirectStep::Ended(RedirectEnd::Guarded),
            },
        }
    }

    /// The store to an entry: its word and its value.
    fn store_to(&self, index: u64) -> (u64, u64)
        ensures { result ≡ store_to self.now index }
    {
        let word = entry_word_at(&self.guarded.site.geometry, self.root, index);
        (word, self.guarded.side.unwrap_or(0))
    }

    /// Behind an entry comes the next one; behind the last one all is settled that was stored.
    fn pass_entry(&mut self, index: u64)
        ensures { self.new ≡ behind self.old index }
    {
        self.step = if index < side_last(self.root, side_region_head(self.guarded.head)) {
            RedirectStep::Entry(index + 1)
        } else if self.rounds.want(None).is_some() {
            RedirectStep::Settle
        } else {
            RedirectStep::Fence
        };
    }

    /// After the load of the root; one that is deeper than the image may have counts as the deepest.
    fn meet_root(&mut self, root: u64)
        ensures { self.new ≡ rooted self.old root }
    {
        let root = root.min(self.guarded.site.geometry.depth());
        self.root = root;
        self.rounds = Rounds::begun();
        self.step = RedirectStep::Entry(side_first(root, side_region_head(self.guarded.head)));
    }

    /// After the load of the header of the segment that an entry names.
    fn meet_head(&mut self, index: u64, head: u64)
        ensures { self.new ≡ met_head self.old index head }
    {
        if depth_of(head) <= depth_of(self.guarded.head) {
            self.step = RedirectStep::Store(index);
        } else {
            self.pass_entry(index);
        }
    }

    /// After an event of the rounds, before or by which an entry is stored.
    fn pass_store(&mut self, index: u64)
        ensures { self.new ≡ stored self.old index }
    {
        let next = Some(self.store_to(index));
        let stores = self.rounds.stores(next);
        self.rounds.take(next);
        if stores {
            self.pass_entry(index);
        }
    }

    /// After one by which all is settled.
    fn pass_settling(&mut self)
        ensures { self.new ≡ settled self.old }
    {
        self.rounds.take(None);
        self.step = if self.rounds.want(None).is_some() {
            RedirectStep::Settle
        } else {
            RedirectStep::GiveDirectory
        };
    }

    /// Whether it wants nothing more.
    pub fn wants_nothing(&self) -> bool
        ensures { IsTrue result ↔ (wanted self.now ≡ want.Done) }
    {
        self.want() == Want::Done
    }

    /// How it ended, once it has.
    pub fn end(&self) -> Option<RedirectEnd>
        ensures { result ≡ end_of self.now }
    {
        match self.step {
            RedirectStep::Ended(end) => Some(end),
            _ => None,
        }
    }

    /// Whether another machine goes on with what is [`guarded`](RedirectOp::guarded).
    pub fn hands_on(&self) -> bool
        ensures is { result ≡ is_redirected self.now.step }
        ensures no_more { result ≡ true → wanted self.now ≡ want.Done }
    {
        matches!(self.step, RedirectStep::Ended(RedirectEnd::Guarded))
    }
}

/// The event that it wants.
fn want_of(op: &RedirectOp) -> Want
    ensures { result ≡ wanted op.now }
{
    let guarded = &op.guarded;
    let geometry = &guarded.site.geometry;
    match op.step {
        RedirectStep::Guard => {
            Want::Exchange(
                geometry.directory_guard(),
                FREE_GUARD,
                u64::from(guarded.site.caller),
            )
        }
        RedirectStep::Root => Want::Load(ROOT_WORD),
        RedirectStep::Entry(index) => Want::Load(entry_word_at(geometry, op.root, index)),
        RedirectStep::Head(_, slot) => Want::Load(head_word(geometry, slot)),
        RedirectStep::Store(index) => op.rounds.event(Some(op.store_to(index))),
        RedirectStep::Settle => op.rounds.event(None),
        RedirectStep::Fence => Want::Fence,
        RedirectStep::GiveDirectory => Want::Store(geometry.directory_guard(), FREE_GUARD),
        RedirectStep::Give(_) => Want::Store(guarded.guard(), FREE_GUARD),
        RedirectStep::Ended(_) => Want::Done,
    }
}

/// What an answer makes of it; one of another kind than was asked for leaves it as it is.
fn take_in(op: &mut RedirectOp, ans: Ans)
    ensures { op.new ≡ taken op.old ans }
{
    match (op.step, ans) {
        (RedirectStep::Guard, Ans::Won) => op.step = RedirectStep::Root,
        (RedirectStep::Guard, Ans::Lost(seen)) => {
            let word = op.guarded.site.geometry.directory_guard();
            op.step = RedirectStep::Give(busy(word, seen));
        }
        (RedirectStep::Root, Ans::Value(root)) => op.meet_root(root),
        (RedirectStep::Entry(index), Ans::Value(slot)) => {
            op.step = RedirectStep::Head(index, slot);
        }
        (RedirectStep::Head(index, _), Ans::Value(head)) => op.meet_head(index, head),
        (RedirectStep::Store(index), Ans::Passed) => op.pass_store(index),
        (RedirectStep::Settle, Ans::Passed) => op.pass_settling(),
        (RedirectStep::Fence, Ans::Passed) => op.step = RedirectStep::GiveDirectory,
        (RedirectStep::GiveDirectory, Ans::Passed) => {
            op.step = RedirectStep::Ended(RedirectEnd::Guarded);
        }
        (RedirectStep::Give(end), Ans::Passed) => op.step = RedirectStep::Ended(end),
        _ => {}
    }
}

impl Machine for RedirectOp {
    ghost wanted = { wanted };

    ghost taken = { taken };

    fn want(&self) -> Want {
        want_of(self)
    }

    fn take(&mut self, ans: Ans) {
        take_in(self, ans);
    }
}
