//! What a get keeps of each bucket in which its key may stand.

ghost use Rattle.std.specs.Prelude.{◌≡◌};
ghost use Rattle.read_op.specs.Places.{free_at};

use phase::Role;

/// The values that the lock words of these buckets had when they were found free.
#[derive(Clone, Copy)]
pub struct Free {
    /// Of the home bucket.
    pub home: u64,
    /// Of the probing bucket.
    pub probing: u64,
    /// Of the first stash bucket, if it is visited.
    pub first: u64,
    /// Of the second one, if it is visited.
    pub second: u64,
}

/// The value of one; 0 of a third bucket, whose lock word is not looked at.
pub fn free_at(free: &Free, place: &Role) -> u64
    ensures { result ≡ free_at free.now place.now }
{
    match place {
        Role::Home => free.home,
        Role::Probing => free.probing,
        Role::First => free.first,
        Role::Second => free.second,
        Role::Next | Role::Previous => 0,
    }
}
