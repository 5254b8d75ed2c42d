//! The close, as a machine.

ghost use Rattle.std.specs.Prelude.{◌≡◌, ◌<◌, ◌≤◌, ◌+◌};
ghost use Rattle.trace.specs.Events.{line_of};
ghost use Rattle.image_layout.specs.Places.{most_words};
ghost use Rattle.op_core.specs.declared.want.Want.TheVariants as want;
ghost use Rattle.restart_op.specs.declared.close.CloseStep.TheVariants.{Ended};
ghost use Rattle.restart_op.specs.Close.{lines_of, begun, wanted, taken, flushed, fenced, next_of};

use image_layout::state::with_marker;
use image_layout::{Geometry, STATE_WORD};
use op_core::{Ans, Machine, Want};
use trace::{MOST_UNFENCED, line_of};

/// What a close leaves: a clean image.
#[derive(Clone, Copy, Debug)]
pub struct Closed;

/// Which event a close does next, and what it knows by then.
#[derive(Clone, Copy)]
pub enum CloseStep {
    /// A line is to be flushed.
    Flush {
        /// The number of the line.
        line: u64,
        /// How many lines wait for the next fence, 0 to 7.
        waiting: u8,
    },
    /// The lines that wait are to be fenced.
    Fence {
        /// The number of the next line, or of lines if there is none.
        line: u64,
    },
    /// The state word is to be loaded.
    Load,
    /// The state word is to be stored.
    Store {
        /// Its new value, with the marker.
        state: u64,
    },
    /// The line of the state word is to be flushed.
    FlushState,
    /// That line is to be fenced.
    FenceState,
    /// Nothing more is to be done.
    Ended,
}

/// A close: all lines are written back, eight at a time, and then the clean marker.
#[derive(Clone, Copy)]
pub struct CloseOp {
    /// How the image is laid out.
    pub geometry: Geometry,
    /// Where the close stands.
    pub step: CloseStep,
}

impl CloseOp {
    /// A close that has done nothing yet.
    pub fn new(geometry: Geometry) -> CloseOp
        ensures { result ≡ begun geometry }
    {
        CloseOp {
            geometry,
            step: CloseStep::Flush {
                line: 0,
                waiting: 0,
            },
        }
    }

    /// What it leaves, once it wants nothing more.
    pub fn end(self) -> Closed
        requires { wanted self ≡ want.Done }
        ensures { self.step ≡ Ended }
    {
        Closed
    }

    /// How many lines the image has.
    fn lines(&self) -> u64
        ensures is { result ≡ lines_of self.now.geometry }
        ensures most { result ≤ line_of most_words }
    {
        line_of(self.geometry.words())
    }

    /// The step after a flush.
    fn after_flush(&self, line: u64, waiting: u8) -> CloseStep
        ensures { result ≡ flushed self.now.geometry line waiting }
    {
        let lines = self.lines();
        if line >= lines - 1 {
            CloseStep::Fence { line: lines }
        } else if waiting < MOST_UNFENCED - 1 {
            CloseStep::Flush {
                line: line + 1,
                waiting: waiting + 1,
            }
        } else {
            CloseStep::Fence { line: line + 1 }
        }
    }

    /// The step after a fence.
    fn after_fence(&self, line: u64) -> CloseStep
        ensures { result ≡ fenced self.now.geometry line }
    {
        if line < self.lines() {
            CloseStep::Flush { line, waiting: 0 }
        } else {
            CloseStep::Load
        }
    }

    /// The step after an event that tells nothing.
    fn after(&self) -> CloseStep
        ensures { result ≡ next_of self.now }
    {
        match self.step {
            CloseStep::Flush { line, waiting } => self.after_flush(line, waiting),
            CloseStep::Fence { line } => self.after_fence(line),
            CloseStep::Store { .. } => CloseStep::FlushState,
            CloseStep::FlushState => CloseStep::FenceState,
            CloseStep::FenceState => CloseStep::Ended,
            CloseStep::Load | CloseStep::Ended => self.step,
        }
    }
}

impl Machine for CloseOp {
    ghost wanted = { wanted };

    ghost taken = { taken };

    fn want(&self) -> Want {
        match self.step {
            CloseStep::Flush { line, .. } => Want::Flush(line),
            CloseStep::Fence { .. } => Want::Fence,
            CloseStep::Load => Want::Load(STATE_WORD),
            CloseStep::Store { state } => Want::Store(STATE_WORD, state),
            CloseStep::FlushState => Want::Flush(line_of(STATE_WORD)),
            CloseStep::FenceState => Want::Fence,
            CloseStep::Ended => Want::Done,
        }
    }

    fn take(&mut self, ans: Ans) {
        match ans {
            Ans::Value(state) if matches!(self.step, CloseStep::Load) => {
                self.step = CloseStep::Store {
                    state: with_marker(state),
                }
            }
            Ans::Passed => self.step = self.after(),
            _ => {}
        }
    }
}
