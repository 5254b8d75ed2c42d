//! A machine.

ghost use Rattle.std.specs.Prelude.{◌≡◌};

use crate::want::{Ans, Want};

/// A machine: it wants one event at a time, and takes the answer. A contract sees two functions of its state: what it
/// wants, and what an answer makes of it.
pub trait Machine {
    ghost use Rattle.op_core.specs.declared.want.Want.{Want};
    ghost use Rattle.op_core.specs.declared.want.Ans.{Ans};

    /// The event that a machine in this state wants.
    ghost wanted: { Self → Want };

    /// The state that an answer leaves.
    ghost taken: { Self → Ans → Self };

    /// The event that it wants next.
    fn want(&self) -> Want
        ensures { result ≡ wanted self.now };

    /// Takes the answer to that event.
    fn take(&mut self, ans: Ans)
        ensures { self.new ≡ taken self.old ans };
}
