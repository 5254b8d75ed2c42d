// The calls that change the map.

ghost use Rattle.std.specs.Prelude.{◌≡◌};
ghost use Rattle.map_model.specs.Changes.{call_of};

use crate::call::Call;

/// What a change does with its key.
#[derive(Clone, Copy, Debug, PartialEq, Eq)]
pub enum Effect {
    /// Adds the key, which is absent, with this value.
    Insert(u64),
    /// Gives the key, which is present, this value.
    Update(u64),
    /// Takes the key away.
    Remove,
}

/// A call that is no get: an insert, an update or a remove.
#[derive(Clone, Copy, Debug, PartialEq, Eq)]
pub struct Change {
    /// The key that the call speaks of.
    pub key: u64,
    /// What it does with it.
    pub effect: Effect,
}

impl Change {
    /// The call that it is.
    pub fn call(self) -> Call
        ensures { result ≡ call_of self }
    {
        match self.effect {
            Effect::Insert(value) => Call::Insert(self.key, value),
            Effect::Update(value) => Call::Update(self.key, value),
            Effect::Remove => Call::Remove(self.key),
        }
    }
}
