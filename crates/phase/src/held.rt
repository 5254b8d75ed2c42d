//! The locks that are held, by the places of their buckets, and how they are given back.

ghost use Rattle.std.specs.Prelude.{◌≡◌};
ghost use Rattle.phase.specs.Helds.{none_held, with_held, without_held, free_of, give_next, give_wanted, given};

use crate::role::{Role, lock_word};
use bucket_meta::words;
use op_core::Want;
use world::Site;

/// The locks that are held: of each, the free value that its word had before it was taken.
#[derive(Clone, Copy, Debug)]
pub struct Held {
    /// That of the home bucket.
    pub home: Option<u64>,
    /// That of the probing bucket.
    pub probing: Option<u64>,
    /// That of the first stash bucket.
    pub first: Option<u64>,
    /// That of the second one.
    pub second: Option<u64>,
    /// That of the bucket after the probing bucket.
    pub next: Option<u64>,
    /// That of the bucket before the home bucket.
    pub previous: Option<u64>,
}

impl Held {
    /// No lock.
    pub fn none() -> Held
        ensures { result ≡ none_held }
    {
        Held {
            home: None,
            probing: None,
            first: None,
            second: None,
            next: None,
            previous: None,
        }
    }

    /// These and that of a place, whose word had this free value.
    pub fn with(self, place: Role, free: u64) -> Held
        ensures { result ≡ with_held place free self }
    {
        let mut more = self;
        match place {
            Role::Home => more.home = Some(free),
            Role::Probing => more.probing = Some(free),
            Role::First => more.first = Some(free),
            Role::Second => more.second = Some(free),
            Role::Next => more.next = Some(free),
            Role::Previous => more.previous = Some(free),
        }
        more
    }

    /// These without that of a place.
    pub fn without(self, place: Role) -> Held
        ensures { result ≡ without_held place self }
    {
        let mut fewer = self;
        match place {
            Role::Home => fewer.home = None,
            Role::Probing => fewer.probing = None,
            Role::First => fewer.first = None,
            Role::Second => fewer.second = None,
            Role::Next => fewer.next = None,
            Role::Previous => fewer.previous = None,
        }
        fewer
    }

    /// The free value of a place, if its lock is held.
    pub fn of(&self, place: Role) -> Option<u64>
        ensures { result ≡ free_of self.now place }
    {
        match place {
            Role::Home => self.home,
            Role::Probing => self.probing,
            Role::First => self.first,
            Role::Second => self.second,
            Role::Next => self.next,
            Role::Previous => self.previous,
        }
    }
}

/// The lock that is given back next, with its free value: the first that is held, in the order of the places.
pub fn give_next(held: &Held) -> Option<(Role, u64)>
    ensures { result ≡ give_next held.now }
{
    if let Some(free) = held.home {
        Some((Role::Home, free))
    } else if let Some(free) = held.probing {
        Some((Role::Probing, free))
    } else if let Some(free) = held.first {
        Some((Role::First, free))
    } else if let Some(free) = held.second {
        Some((Role::Second, free))
    } else if let Some(free) = held.next {
        Some((Role::Next, free))
    } else if let Some(free) = held.previous {
        Some((Role::Previous, free))
    } else {
        None
    }
}

/// The store that gives it back, with its version plus one and not locked; nothing where none is held.
pub fn give_want(site: &Site, hash: u64, segment: u64, held: &Held) -> Want
    ensures { result ≡ give_wanted site.now hash segment held.now }
{
    match give_next(held) {
        Some((place, free)) => Want::Store(
            lock_word(site, hash, segment, place),
            words::given_back(free),
        ),
        None => Want::Done,
    }
}

/// The locks that are held after that store.
pub fn given(held: &Held) -> Held
    ensures { result ≡ given held.now }
{
    match give_next(held) {
        Some((place, _)) => held.without(place),
        None => *held,
    }
}
