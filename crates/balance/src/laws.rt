//! What a choice says of the words of its buckets. The function does nothing: it stands for the law that its contract says.

ghost use Rattle.std.specs.Prelude.{ℕ};
ghost use Rattle.balance.specs.Choices.{HasRoom};

/// The bucket that is chosen has a free slot, and where neither is, neither has one.
pub fn choices_have_room()
    ensures { (w1 u1 : ℕ) → HasRoom w1 u1 }
{}
