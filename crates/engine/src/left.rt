//! How many events a call makes at most.

ghost use Rattle.std.specs.Prelude.{◌≡◌, ◌≤◌};
ghost use Rattle.engine.specs.Left.{events_of_call, most_of_call};

use image_layout::Geometry;

/// An attempt of a caller alone makes fewer events than this.
const EVENTS_ALONE: u64 = 490_817;

/// A call of a caller alone makes fewer events than this, in an image that is so laid out: each split that it needs takes a free slot, each repair
/// leaves one stale segment fewer and frees one slot at the most, and the call is tried once before each of them and once behind the last.
pub fn events_of_call(geometry: &Geometry) -> u64
    ensures is { result ≡ events_of_call geometry.now }
    ensures most { result ≤ most_of_call }
{
    (6 * geometry.segments() + 5) * EVENTS_ALONE
}
