//! A lock is taken: its word is looked at, and exchanged for the locked one where it was free.

ghost use Rattle.std.specs.Prelude.{◌≡◌};
ghost use Rattle.phase.specs.Takes.{take_wanted, take_looked, take_lost, take_taken};

use bucket_meta::words::{SPENT_LOCK, is_locked, locked};
use op_core::{Ans, Want};

/// What is to be done with a lock word.
#[derive(Clone, Copy)]
pub enum Take {
    /// To look at it.
    Look,
    /// To exchange it for the locked one.
    Try {
        /// The free value that it had.
        free: u64,
    },
}

/// What an answer makes of it.
#[derive(Clone, Copy)]
pub enum Taken {
    /// It goes on.
    On(Take),
    /// The lock is held.
    Held {
        /// The free value that its word had.
        free: u64,
    },
    /// It is another's.
    Busy {
        /// The value that was seen.
        seen: u64,
    },
    /// It was taken and given back since it was looked at.
    Moved {
        /// The value that was seen first.
        before: u64,
        /// The value that was seen then.
        after: u64,
    },
    /// It is free with the last version.
    Spent,
}

/// What a look at a lock word makes of it.
fn looked(seen: u64) -> Taken
    ensures { result ≡ take_looked seen }
{
    if is_locked(seen) {
        Taken::Busy { seen }
    } else if seen == SPENT_LOCK {
        Taken::Spent
    } else {
        Taken::On(Take::Try { free: seen })
    }
}

/// What an exchange makes of it that found another value.
fn lost(free: u64, seen: u64) -> Taken
    ensures { result ≡ take_lost free seen }
{
    if is_locked(seen) {
        Taken::Busy { seen }
    } else {
        Taken::Moved {
            before: free,
            after: seen,
        }
    }
}

/// The event that it wants, on this lock word.
pub fn take_want(lock: u64, take: &Take) -> Want
    ensures { result ≡ take_wanted lock take.now }
{
    match take {
        Take::Look => Want::Load(lock),
        Take::Try { free } => Want::Exchange(lock, *free, locked(*free)),
    }
}

/// What an answer makes of it; one of another kind than was asked for leaves it as it is.
pub fn take_next(take: &Take, ans: Ans) -> Taken
    ensures { result ≡ take_taken take.now ans }
{
    match (*take, ans) {
        (Take::Look, Ans::Value(seen)) => looked(seen),
        (Take::Try { free }, Ans::Won) => Taken::Held { free },
        (Take::Try { free }, Ans::Lost(seen)) => lost(free, seen),
        (same, _) => Taken::On(same),
    }
}
