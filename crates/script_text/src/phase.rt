// How far a script has come, which decides what may follow.
ghost use Rattle.std.specs.Prelude.{◌≡◌};
ghost use Rattle.script_text.specs.Order.{may_follow, may_run, phase_after};

use crate::line::{Line, Mode};
use map_model::KEEPER_NUMBER;

/// How far a script has come.
#[derive(Clone, Copy, Debug, PartialEq, Eq)]
pub enum Phase {
    /// Callers are given their calls.
    Calling,
    /// Callers run, and no calls come any more.
    Running,
    /// The image is closed, and only caller 0 runs.
    Closing,
    /// The power is cut, and nothing comes any more.
    CutOff,
}

impl Phase {
    // Whether a line that lets this caller run may follow.
    fn may_run(self, mode: Mode, caller: u8) -> bool
        ensures { result ≡ may_run mode self caller }
    {
        match (mode, self) {
            (Mode::Serve, _) => false,
            (Mode::Play, Phase::Calling | Phase::Running) => true,
            (Mode::Play, Phase::Closing) => caller == KEEPER_NUMBER,
            (Mode::Play, Phase::CutOff) => false,
        }
    }

    /// Whether the line may follow.
    pub fn may_follow(self, mode: Mode, line: Line) -> bool
        ensures { result ≡ may_follow mode self line }
    {
        match line {
            Line::Call(_, _) => self == Phase::Calling,
            Line::Fuse(_, _) => false,
            Line::Step(caller, _) => self.may_run(mode, caller),
            Line::Until(caller, _, _) => self.may_run(mode, caller),
            Line::At(caller, _) => self.may_run(mode, caller),
            Line::Close => {
                mode == Mode::Play && (self == Phase::Calling || self == Phase::Running)
            }
            Line::Cut(_) => self != Phase::CutOff,
        }
    }

    /// How far the script has come behind the line.
    pub fn after(self, line: Line) -> Phase
        ensures { result ≡ phase_after self line }
    {
        match line {
            Line::Call(_, _) | Line::Fuse(_, _) => self,
            Line::Step(_, _) | Line::Until(_, _, _) | Line::At(_, _) => match self {
                Phase::Calling => Phase::Running,
                _ => self,
            },
            Line::Close => Phase::Closing,
            Line::Cut(_) => Phase::CutOff,
        }
    }
}
