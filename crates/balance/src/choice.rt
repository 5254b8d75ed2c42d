//! The bucket that takes a new record.

ghost use Rattle.std.specs.Prelude.{◌≡◌, ◌<◌, ◌≤◌, ◌↔◌, count_ones};
ghost use Rattle.bucket_meta.specs.Bucket.{record_slots};
ghost use Rattle.bucket_meta.specs.Slots.{IsFull};
ghost use Rattle.balance.specs.Choices.{choice_by};

use bucket_meta::Meta;
use bucket_meta::words::SLOTS;

/// The bucket that an insert goes to.
#[derive(Clone, Copy, Debug, PartialEq, Eq)]
pub enum Choice {
    /// The home bucket, which has a free record slot.
    Home,
    /// The probing bucket, which has a free record slot.
    Probe,
    /// Both buckets are full.
    Neither,
}

/// The bucket with fewer records: `home` where both have as many, and neither where both are full.
pub fn choose(home: &Meta, probe: &Meta) -> Choice
    ensures is { result ≡ choice_by (count_ones home.now.alloc) (count_ones probe.now.alloc) }
    ensures home { (result ≡ Choice.Home)
        ↔ ((count_ones home.now.alloc < record_slots) × (count_ones home.now.alloc ≤ count_ones probe.now.alloc)) }
    ensures probe { (result ≡ Choice.Probe)
        ↔ (count_ones probe.now.alloc < count_ones home.now.alloc) }
    ensures neither { (result ≡ Choice.Neither)
        ↔ (IsFull home.now.alloc × IsFull probe.now.alloc) }
{
    let in_home = home.filled();
    let in_probe = probe.filled();
    if in_probe < in_home {
        Choice::Probe
    } else if in_home < SLOTS {
        Choice::Home
    } else {
        Choice::Neither
    }
}
