// Gates: one for each caller, asked before each event whether the power is still on.
ghost use Rattle.std.specs.Prelude.{◌≡◌, ℕ, Option, nat_lt};
ghost use Rattle.outside.specs.Gating.{Cuts, Passes, TellsLeft, Moves, IsMade, fuse_of};
ghost use Rattle.outside.specs.declared.gates.GateState.{GateState};

use std::marker::Send;

/// What a gate answers.
#[derive(Clone, Copy, Debug, PartialEq, Eq)]
pub enum Power {
    /// The event may happen.
    On,
    /// The power is cut: neither this event nor a later one of this caller's calls happens.
    Off,
}

/// The state of a caller's gate.
#[derive(Clone, Copy, Debug, PartialEq, Eq)]
pub enum GateState {
    /// Not made yet.
    Unmade,
    /// Made with this fuse, and not back.
    Made(Option<u64>),
    /// Back: the fuse that it was made with, and whether it has cut the power.
    Back(Option<u64>, bool),
}

impl GateState {
    /// The fuse that the gate was made with; none where it was made without one, or is not made.
    pub fn fuse(self) -> Option<u64>
        ensures { result ≡ fuse_of self }
    {
        match self {
            GateState::Unmade => None,
            GateState::Made(fuse) => fuse,
            GateState::Back(fuse, _) => fuse,
        }
    }
}

/// Lets the events of one caller through, until it cuts the power.
pub trait Gate: Drop {
    /// How often it has cut the power: never, or once.
    ghost cuts: { Self → ℕ };
    /// How many passes it still lets through (a number, or no limit), where it tells that.
    ghost left: { Self → Option (Option ℕ) };

    /// Asked once before each event of a call, and at no other time. After Off it answers Off.
    fn pass(&mut self) -> Power
        ensures cuts { Cuts (cuts self.old) result (cuts self.new) }
        ensures left { Passes (left self.old) result (left self.new) };

    /// Told after each reply.
    fn told(&mut self)
        ensures cuts { cuts self.new ≡ cuts self.old }
        ensures left { left self.new ≡ left self.old };
}

/// Makes the gates of the callers, and takes them back.
pub trait Gates {
    /// The gate of one caller, which may go to another thread.
    type One: Gate + Send;

    /// The state of each caller's gate.
    ghost state: { Self → ℕ → GateState };

    /// The gate of this caller, with this fuse. It has not cut.
    fn make(&mut self, caller: u8, fuse: Option<u64>) -> Self::One
        requires { state self.old caller ≡ GateState.Unmade }
        ensures state { Moves (state self.old) (state self.new) caller (GateState.Made fuse) }
        ensures cuts { Self.One.cuts result ≡ 0 }
        ensures left { TellsLeft (Self.One.left result) fuse };

    /// Takes the gate of this caller back, and notes whether it has cut.
    fn back(&mut self, caller: u8, gate: Self::One)
        requires { IsMade (state self.old caller) }
        ensures { Moves (state self.old) (state self.new) caller
            (GateState.Back (fuse_of (state self.old caller)) (nat_lt 0 (Self.One.cuts gate))) };
}
