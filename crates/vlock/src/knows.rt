//! What a seat knows.

ghost use Rattle.std.specs.Prelude.{ℕ, List};
ghost use Rattle.std.specs.Borrow.{ftrue};
ghost use Rattle.op_core.specs.declared.want.Want.{Want};
ghost use Rattle.world.specs.Views.{View};

use std::marker::Model;

/// What a seat knows: its own view, the views of the seats that it took in, and the events that it took, the newest
/// first, each with the value that its word was found to have. No value of it is made.
pub struct Watch {
    pub ghost view: { View },
    pub ghost past: { List View },
    pub ghost took: { List (Want × ℕ) },
}

impl Model for Watch {
    ghost also_owns = { λ _. ftrue };
}
