//! Headers of the side of a split that was cut off.

ghost use Rattle.std.specs.Prelude.{◌≡◌};
ghost use Rattle.segment_head.specs.HeadWord.{depth_in, pattern_in};
ghost use Rattle.world.specs.areas.Kinds.{is_new_side, is_ready_side};

use segment_head::prefix::{depth_of_sides, is_side, prefix_in};
use segment_head::split::side_pattern_of;
use segment_head::word::{FRESH, depth_of, is_live, pattern_of, state_of};

/// Whether this is the header of the new side of a segment with that header.
pub(crate) fn is_new_side(head: u64, side: u64) -> bool
    ensures { result ≡ is_new_side (depth_in head) (pattern_in head) side }
{
    state_of(side) == FRESH
        && u16::from(depth_of(side)) == depth_of_sides(depth_of(head))
        && u64::from(pattern_of(side)) == side_pattern_of(head)
}

/// Whether it is that of a ready side.
pub(crate) fn is_ready_side(head: u64, side: u64) -> bool
    ensures { result ≡ is_ready_side (depth_in head) (pattern_in head) side }
{
    is_live(side) && is_side(prefix_in(head), prefix_in(side))
}
