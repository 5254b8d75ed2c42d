// The calls.

ghost use Rattle.std.specs.Prelude.{◌≡◌, IfSome, IsNone};
ghost use Rattle.map_model.specs.Map.{key_of, value_of};
ghost use Rattle.map_model.specs.Legal.{IsChange};
ghost use Rattle.map_model.specs.Changes.{call_of, change_of};

use crate::change::{Change, Effect};

/// A call on the table.
#[derive(Clone, Copy, Debug, PartialEq, Eq)]
pub enum Call {
    /// Looks a key up.
    Get(u64),
    /// Adds an absent key with a value.
    Insert(u64, u64),
    /// Gives a present key another value.
    Update(u64, u64),
    /// Takes a present key away.
    Remove(u64),
}

impl Call {
    /// The key that the call speaks of.
    pub fn key(self) -> u64
        ensures { result ≡ key_of self }
    {
        match self {
            Call::Get(key) | Call::Insert(key, _) | Call::Update(key, _) | Call::Remove(key) => key,
        }
    }

    /// The value that the call brings, and 0 where it brings none.
    pub fn value(self) -> u64
        ensures { result ≡ value_of self }
    {
        match self {
            Call::Insert(_, value) | Call::Update(_, value) => value,
            Call::Get(_) | Call::Remove(_) => 0,
        }
    }

    /// The change that the call is; a get is none.
    pub fn change(self) -> Option<Change>
        ensures is { result ≡ change_of self }
        ensures same { IfSome result (λ change. call_of change ≡ self) }
        ensures none { IsNone result → IsChange self → ⊥ }
    {
        let (key, effect) = match self {
            Call::Get(_) => return None,
            Call::Insert(key, value) => (key, Effect::Insert(value)),
            Call::Update(key, value) => (key, Effect::Update(value)),
            Call::Remove(key) => (key, Effect::Remove),
        };
        Some(Change { key, effect })
    }
}
