//! The restart.

ghost use Rattle.std.specs.Prelude.{◌≡◌, ◌≤◌, ◌<◌, ◌-◌};
ghost use Rattle.image_layout.specs.Places.{most_words};
ghost use Rattle.op_core.specs.declared.want.Want.TheVariants as want;
ghost use Rattle.restart_op.specs.declared.restart.RestartStep.TheVariants.{Ended};
ghost use Rattle.restart_op.specs.Restart.{started_for, swept_through, head_or_state, begun, state_seen, head_stored, head_flushed, heads_fenced, wanted, taken, next_of};

use image_layout::state::{FIRST_VERSION, LAST_VERSION, is_marked, version_of};
use image_layout::{Geometry, STATE_WORD};
use op_core::{Ans, Machine, Want};
use segment_head::version::unversioned;
use trace::{MOST_UNFENCED, line_of};

/// How many headers a round of a sweep has at most: the lines of as many may wait for a fence.
const MOST_HEADERS: u64 = MOST_UNFENCED as u64;

/// What a restart leaves to those who run on the image.
#[derive(Clone, Copy, Debug)]
pub struct Started {
    /// The version of the image from now on, 1 to 255: a segment is current if its header has it.
    pub version: u8,
    /// Whether the restart swept all headers, since there was no version above that of the image.
    pub swept: bool,
}

/// Which event a restart does next, and what it knows by then.
#[derive(Clone, Copy)]
pub enum RestartStep {
    /// The state word is to be loaded.
    Load,
    /// In a sweep, a header is to be loaded.
    LoadHead {
        /// The first slot of its round.
        first: u64,
        /// The slot of the header.
        slot: u64,
    },
    /// That header is to be stored.
    StoreHead {
        /// The first slot of its round.
        first: u64,
        /// The slot of the header.
        slot: u64,
        /// The header without its version.
        head: u64,
    },
    /// The lines of the headers of a round are to be written back.
    FlushHead {
        /// The slot of the next one.
        slot: u64,
        /// The slot behind the last one.
        end: u64,
    },
    /// It is to be waited for these lines.
    FenceHeads {
        /// The slot behind the last one.
        end: u64,
    },
    /// The state word is to be stored: the version, with the marker clear.
    Store(Started),
    /// The line of the state word is to be written back.
    Flush(Started),
    /// It is to be waited for that line.
    Fence(Started),
    /// The restart has ended.
    Ended(Started),
}

/// A restart: it clears the marker, and waits until that is settled. An image that was not closed gets the next version, and where there is
/// none above its own, all headers lose theirs before.
#[derive(Clone, Copy)]
pub struct RestartOp {
    /// How the image is laid out.
    pub geometry: Geometry,
    /// Where the restart stands.
    pub step: RestartStep,
}

/// What is behind a sweep: version 1, which no header has.
fn swept_through() -> Started
    ensures { result ≡ swept_through }
{
    Started {
        version: FIRST_VERSION,
        swept: true,
    }
}

/// What a restart leaves, by the state word that it finds.
fn started_for(state: u64) -> Started
    ensures { result ≡ started_for state }
{
    let version = version_of(state);
    if is_marked(state) {
        Started {
            version,
            swept: false,
        }
    } else if version == LAST_VERSION {
        swept_through()
    } else {
        Started {
            version: version + 1,
            swept: false,
        }
    }
}

impl RestartOp {
    /// A restart that has done nothing yet.
    pub fn new(geometry: Geometry) -> RestartOp
        ensures { result ≡ begun geometry }
    {
        RestartOp {
            geometry,
            step: RestartStep::Load,
        }
    }

    /// How it ended, once it wants nothing more.
    pub fn end(self) -> Started
        requires { wanted self ≡ want.Done }
        ensures { self.step ≡ Ended result }
    {
        match self.step {
            RestartStep::Ended(started) => started,
            _ => unreachable!(),
        }
    }

    /// The header of a slot; a slot that the image has not gives the state word.
    fn head_or_state(&self, slot: u64) -> u64
        ensures is { result ≡ head_or_state self.now.geometry slot }
        ensures most { result < most_words }
    {
        if slot < self.geometry.segments() {
            self.geometry.header_word(slot)
        } else {
            STATE_WORD
        }
    }

    /// The step after the load of the state word.
    fn state_seen(state: u64) -> RestartStep
        ensures { result ≡ state_seen state }
    {
        let started = started_for(state);
        if started.swept {
            RestartStep::LoadHead { first: 0, slot: 0 }
        } else {
            RestartStep::Store(started)
        }
    }

    /// The step after the store of a header: a round has eight of them at most.
    fn head_stored(&self, first: u64, slot: u64) -> RestartStep
        ensures { result ≡ head_stored self.now.geometry first slot }
    {
        let slots = self.geometry.segments();
        if slot < slots - 1 {
            if slot.saturating_sub(first) < MOST_HEADERS - 1 {
                RestartStep::LoadHead {
                    first,
                    slot: slot + 1,
                }
            } else {
                RestartStep::FlushHead {
                    slot: first,
                    end: slot + 1,
                }
            }
        } else {
            RestartStep::FlushHead {
                slot: first,
                end: slots,
            }
        }
    }

    /// The step after the flush of a header's line.
    fn head_flushed(slot: u64, end: u64) -> RestartStep
        ensures { result ≡ head_flushed slot end }
    {
        if slot < end.saturating_sub(1) {
            RestartStep::FlushHead {
                slot: slot + 1,
                end,
            }
        } else {
            RestartStep::FenceHeads { end }
        }
    }

    /// The step after the fence of a round.
    fn heads_fenced(&self, end: u64) -> RestartStep
        ensures { result ≡ heads_fenced self.now.geometry end }
    {
        if end < self.geometry.segments() {
            RestartStep::LoadHead {
                first: end,
                slot: end,
            }
        } else {
            RestartStep::Store(swept_through())
        }
    }

    /// The step after an answer; one of another kind than was asked leaves the step as it is.
    fn after(&self, ans: Ans) -> RestartStep
        ensures { result ≡ next_of self.now ans }
    {
        match (self.step, ans) {
            (RestartStep::Load, Ans::Value(state)) => RestartOp::state_seen(state),
            (RestartStep::LoadHead { first, slot }, Ans::Value(head)) => RestartStep::StoreHead {
                first,
                slot,
                head: unversioned(head),
            },
            (RestartStep::StoreHead { first, slot, .. }, Ans::Passed) => {
                self.head_stored(first, slot)
            }
            (RestartStep::FlushHead { slot, end }, Ans::Passed) => {
                RestartOp::head_flushed(slot, end)
            }
            (RestartStep::FenceHeads { end }, Ans::Passed) => self.heads_fenced(end),
            (RestartStep::Store(started), Ans::Passed) => RestartStep::Flush(started),
            (RestartStep::Flush(started), Ans::Passed) => RestartStep::Fence(started),
            (RestartStep::Fence(started), Ans::Passed) => RestartStep::Ended(started),
            _ => self.step,
        }
    }
}

impl Machine for RestartOp {
    ghost wanted = { wanted };

    ghost taken = { taken };

    fn want(&self) -> Want {
        match self.step {
            RestartStep::Load => Want::Load(STATE_WORD),
            RestartStep::LoadHead { slot, .. } => Want::Load(self.head_or_state(slot)),
            RestartStep::StoreHead { slot, head, .. } => {
                Want::Store(self.head_or_state(slot), head)
            }
            RestartStep::FlushHead { slot, .. } => Want::Flush(line_of(self.head_or_state(slot))),
            RestartStep::FenceHeads { .. } => Want::Fence,
            RestartStep::Store(started) => Want::Store(STATE_WORD, u64::from(started.version)),
            RestartStep::Flush(_) => Want::Flush(line_of(STATE_WORD)),
            RestartStep::Fence(_) => Want::Fence,
            RestartStep::Ended(_) => Want::Done,
        }
    }

    fn take(&mut self, ans: Ans) {
        self.step = self.after(ans);
    }
}
