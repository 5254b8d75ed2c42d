// Gates that let a number of events through.
ghost use Rattle.std.specs.Prelude.{◌≡◌, ℕ, true, Some};
ghost use Rattle.outside.specs.Memory.{cut_count, state_at};

use crate::{Gate, GateState, Gates, Power};
use std::marker::Send;

/// A gate that lets a number of events through and then cuts; without a number it never cuts.
#[derive(Drop)]
pub struct Fuse {
    /// How many events it still lets through.
    pub left: Option<u64>,
    /// Whether it has cut.
    pub cut: bool,
    ghost cut_at_end: { cut ≡ true → left ≡ Some 0 },
}

impl Gate for Fuse {
    ghost cuts = { λ f. cut_count f.cut };

    ghost left = { λ f. Some f.left };

    fn pass(&mut self) -> Power {
        match self.left {
            None => Power::On,
            Some(0) => {
                self.cut = true;
                Power::Off
            }
            Some(events) => {
                self.left = Some(events - 1);
                Power::On
            }
        }
    }

    fn told(&mut self) {}
}

// A fuse is a number and a flag, and refers to nothing outside itself.
unsafe impl Send for Fuse {}

/// Makes fuses, and keeps the state of each caller's. It has one for each number of 8 bits.
#[derive(Drop)]
pub struct Fuses {
    /// The state of each caller's fuse, by the caller's number.
    pub states: [GateState; 256],
}

impl Fuses {
    /// No caller's fuse is made.
    pub fn new() -> Self
        ensures { (caller : ℕ) → state_at result.states caller ≡ GateState.Unmade }
    {
        Fuses {
            states: [GateState::Unmade; 256],
        }
    }
}

impl Gates for Fuses {
    type One = Fuse;

    ghost state = { λ f caller. state_at f.states caller };

    fn make(&mut self, caller: u8, fuse: Option<u64>) -> Fuse {
        self.states[caller as usize] = GateState::Made(fuse);
        Fuse {
            left: fuse,
            cut: false,
        }
    }

    fn back(&mut self, caller: u8, gate: Fuse) {
        let fuse = self.states[caller as usize].fuse();
        self.states[caller as usize] = GateState::Back(fuse, gate.cut);
    }
}
