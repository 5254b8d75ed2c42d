//! The machine, its steps, and how it ends.

ghost use Rattle.std.specs.Prelude.{◌≡◌};
ghost use Rattle.directory_op.specs.Steps.{directed, next_store, stage_after, settled_to, wanted, taken, power_step, with_root, passed, end_of};
ghost use Rattle.directory_op.specs.DirectoryPart.{goes_on};

use crate::places::{entries_there, entry_word_at, live_head, side_first, side_last};
use image_layout::{
    FREE_GUARD, POWER_ON, ROOT_WORD, depth_above, depth_below, entry_above, half_of_entry,
};
use op_core::{Ans, Machine, Want};
use rounds::Rounds;
use segment_head::word::depth_of;
use split_op::Copied;
use way::head_word;

/// How it ends.
#[derive(Clone, Copy, Debug)]
pub enum DirectoryEnd {
    /// The side is live, and all its entries name it.
    Published,
    /// The power is off, or the root is none of the image.
    Off,
}

/// Which store comes next, or what is to be settled before more is stored.
#[derive(Clone, Copy, Debug)]
pub enum Stage {
    /// The entry of this number, in the area that is one deeper, gets this value.
    Fill(u64, u64),
    /// All of them are stored.
    Filled,
    /// The root is stored.
    Deepen,
    /// It is one deeper.
    Deepened,
    /// The header of the side is stored.
    GoLive,
    /// It is that of a normal segment.
    Live,
    /// The entry of this number is to name the side.
    Enter(u64),
    /// All entries of the side name it.
    Entered,
}

/// Which event comes next.
#[derive(Clone, Copy, Debug)]
pub enum DirectoryStep {
    /// The header of the segment is to be loaded.
    LoadHead,
    /// That of its side.
    LoadSideHead,
    /// The guard of the directory is tried.
    TakeGuard,
    /// Another caller has it: the power word is to be loaded, before the guard is tried again.
    AskPower,
    /// The root is to be loaded.
    LoadRoot,
    /// The entry of the root's area is to be loaded that the entry of this number, in the area that is one deeper, and the one behind
    /// that are to have.
    LoadEntry(u64),
    /// Words are stored, in rounds.
    Store(Stage),
    /// The guard is to be given back.
    GiveGuard,
    /// Nothing more.
    Ended(DirectoryEnd),
}

/// The doubling of the directory, where that is needed, and the publishing of a side.
#[derive(Clone, Copy)]
pub struct DirectoryOp {
    /// What was copied.
    pub copied: Copied,
    /// The header of the segment that is split.
    pub head: u64,
    /// That of its side.
    pub side_head: u64,
    /// The root depth, as it is to be.
    pub root: u64,
    /// The rounds in which words are stored.
    pub rounds: Rounds,
    /// Where it stands.
    pub step: DirectoryStep,
}

impl DirectoryOp {
    /// Goes on from what was copied.
    pub fn new(copied: Copied) -> DirectoryOp
        ensures { result ≡ directed copied }
    {
        DirectoryOp {
            copied,
            head: 0,
            side_head: 0,
            root: 0,
            rounds: Rounds::begun(),
            step: DirectoryStep::LoadHead,
        }
    }

    /// The store that comes next in a stage: its word and its value.
    fn next_store(&self, stage: Stage) -> Option<(u64, u64)>
        ensures { result ≡ next_store self.now stage }
    {
        let geometry = &self.copied.whole.site.geometry;
        match stage {
            Stage::Fill(place, value) => Some((entry_word_at(geometry, self.root, place), value)),
            Stage::Deepen => Some((ROOT_WORD, self.root)),
            Stage::GoLive => Some((
                head_word(geometry, self.copied.side),
                live_head(self.side_head),
            )),
            Stage::Enter(index) => Some((
                entry_word_at(geometry, self.root, index),
                self.copied.side,
            )),
            Stage::Filled | Stage::Deepened | Stage::Live | Stage::Entered => None,
        }
    }

    /// The step behind that store.
    fn stage_after(&self, stage: Stage) -> DirectoryStep
        ensures { result ≡ stage_after self.now stage }
    {
        match stage {
            Stage::Fill(place, value) if place < entries_there(self.root).saturating_sub(1) => {
                if half_of_entry(place) == 0 {
                    DirectoryStep::Store(Stage::Fill(place + 1, value))
                } else {
                    DirectoryStep::LoadEntry(place + 1)
                }
            }
            Stage::Fill(_, _) => DirectoryStep::Store(Stage::Filled),
            Stage::Deepen => DirectoryStep::Store(Stage::Deepened),
            Stage::GoLive => DirectoryStep::Store(Stage::Live),
            Stage::Enter(index) if index < side_last(self.root, self.side_head) => {
                DirectoryStep::Store(Stage::Enter(index + 1))
            }
            Stage::Enter(_) => DirectoryStep::Store(Stage::Entered),
            same => DirectoryStep::Store(same),
        }
    }

    /// The step once all that a stage stored is settled.
    fn settled_to(&self, stage: Stage) -> DirectoryStep
        ensures { result ≡ settled_to self.now stage }
    {
        match stage {
            Stage::Filled => DirectoryStep::Store(Stage::Deepen),
            Stage::Deepened => DirectoryStep::Store(Stage::GoLive),
            Stage::Live => {
                DirectoryStep::Store(Stage::Enter(side_first(self.root, self.side_head)))
            }
            Stage::Entered => DirectoryStep::GiveGuard,
            same => DirectoryStep::Store(same),
        }
    }

    /// An event of a stage was done.
    fn pass(&mut self, stage: Stage)
        ensures { self.new ≡ passed self.old stage }
    {
        let next = self.next_store(stage);
        let stores = self.rounds.stores(next);
        self.rounds.take(next);
        self.step = if stores {
            self.stage_after(stage)
        } else if self.rounds.want(next).is_none() {
            self.settled_to(stage)
        } else {
            DirectoryStep::Store(stage)
        };
    }

    /// The root was loaded: the directory is doubled where the segment is as deep. Where the image has no area so deep, it ends.
    fn meet_root(&mut self, root: u64)
        ensures { self.new ≡ with_root self.old root }
    {
        let depth = self.copied.whole.site.geometry.depth();
        if root == u64::from(depth_of(self.head)) {
            if root >= depth {
                self.step = DirectoryStep::Ended(DirectoryEnd::Off);
            } else {
                self.rounds = Rounds::begun();
                self.root = depth_below(root);
                self.step = DirectoryStep::LoadEntry(0);
            }
        } else if root > depth {
            self.step = DirectoryStep::Ended(DirectoryEnd::Off);
        } else {
            self.rounds = Rounds::begun();
            self.root = root;
            self.step = DirectoryStep::Store(Stage::GoLive);
        }
    }

    /// How it ended; one that is not at its end counts as one that found the power off.
    pub fn end(&self) -> DirectoryEnd
        ensures { result ≡ end_of self.now }
    {
        match self.step {
            DirectoryStep::Ended(end) => end,
            _ => DirectoryEnd::Off,
        }
    }

    /// Whether the side is published: another machine does the rest of the split of what was [`copied`](DirectoryOp::copied).
    pub fn hands_on(&self) -> bool
        ensures { result ≡ goes_on self.now.step }
    {
        matches!(self.step, DirectoryStep::Ended(DirectoryEnd::Published))
    }
}

/// The step after the power word was loaded.
fn power_step(value: u64) -> DirectoryStep
    ensures { result ≡ power_step value }
{
    if value == POWER_ON {
        DirectoryStep::TakeGuard
    } else {
        DirectoryStep::Ended(DirectoryEnd::Off)
    }
}

impl Machine for DirectoryOp {
    ghost wanted = { wanted };

    ghost taken = { taken };

    fn want(&self) -> Want {
        let site = &self.copied.whole.site;
        let geometry = &site.geometry;
        match self.step {
            DirectoryStep::LoadHead => Want::Load(head_word(geometry, self.copied.whole.segment)),
            DirectoryStep::LoadSideHead => Want::Load(head_word(geometry, self.copied.side)),
            DirectoryStep::TakeGuard => {
                Want::Exchange(
                    geometry.directory_guard(),
                    FREE_GUARD,
                    u64::from(site.caller),
                )
            }
            DirectoryStep::AskPower => Want::Power,
            DirectoryStep::LoadRoot => Want::Load(ROOT_WORD),
            DirectoryStep::LoadEntry(place) => {
                Want::Load(entry_word_at(geometry, depth_above(self.root), entry_above(place)))
            }
            DirectoryStep::Store(stage) => self.rounds.event(self.next_store(stage)),
            DirectoryStep::GiveGuard => Want::Store(geometry.directory_guard(), FREE_GUARD),
            DirectoryStep::Ended(_) => Want::Done,
        }
    }

    fn take(&mut self, ans: Ans) {
        match (self.step, ans) {
            (DirectoryStep::LoadHead, Ans::Value(head)) => {
                self.head = head;
                self.step = DirectoryStep::LoadSideHead;
            }
            (DirectoryStep::LoadSideHead, Ans::Value(head)) => {
                self.side_head = head;
                self.step = DirectoryStep::TakeGuard;
            }
            (DirectoryStep::TakeGuard, Ans::Won) => self.step = DirectoryStep::LoadRoot,
            (DirectoryStep::TakeGuard, Ans::Lost(_)) => self.step = DirectoryStep::AskPower,
            (DirectoryStep::AskPower, Ans::Value(value)) => self.step = power_step(value),
            (DirectoryStep::LoadRoot, Ans::Value(root)) => self.meet_root(root),
            (DirectoryStep::LoadEntry(place), Ans::Value(value)) => {
                self.step = DirectoryStep::Store(Stage::Fill(place, value));
            }
            (DirectoryStep::Store(stage), Ans::Passed) => self.pass(stage),
            (DirectoryStep::GiveGuard, Ans::Passed) => {
                self.step = DirectoryStep::Ended(DirectoryEnd::Published);
            }
            _ => {}
        }
    }
}
