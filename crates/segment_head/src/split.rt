//! What a split makes of the header word of a segment: the headers of its two sides, their depth and the pattern of the 1-side, and the header with
//! another state.

ghost use Rattle.std.specs.Prelude.{◌≡◌, ◌<◌, ◌≤◌, ◌+◌, ◌^◌};
ghost use Rattle.segment_head.specs.HeadWord.{pattern_bits};
ghost use Rattle.segment_head.specs.SplitHeads.{capped_side_depth, side_pattern_in, side_depth_field, zero_pattern_field, one_pattern_field, with_state, zero_side_head, finished_head, one_side_head};

use crate::prefix::{depth_of_sides, pattern_of_one_side, pattern_of_zero_side};
use crate::word::{DEPTH_BITS, NORMAL, PATTERN_BITS, depth_of, header_of, pattern_of, version_of};
use hash_word::HASH_BITS;

/// How deep a segment is at the most that can be split: its sides have one more bit of a hash.
const DEEPEST_SPLIT: u8 = HASH_BITS - 1;

/// How many depths a header may have.
const DEPTHS: u16 = 1 << DEPTH_BITS;

/// How many patterns a header may have.
const PATTERNS: u64 = 1 << PATTERN_BITS;

/// The depth of the sides of a segment with this header: one more than its own, and 64 at the most.
pub fn capped_side_depth(head: u64) -> u8
    ensures { result ≡ capped_side_depth head }
{
    depth_of_sides(depth_of(head).min(DEEPEST_SPLIT)) as u8
}

/// The pattern of the 1-side, of whatever depth: that of the segment with a 1 behind it.
pub fn side_pattern_of(head: u64) -> u64
    ensures is { result ≡ side_pattern_in head }
    ensures most { result < 2 ^ (pattern_bits + 1) }
    ensures some { 1 ≤ result }
{
    pattern_of_one_side(pattern_of(head))
}

/// What their headers have as their depth: its lowest 8 bits.
fn side_depth_field(head: u64) -> u8
    ensures { result ≡ side_depth_field head }
{
    (depth_of_sides(depth_of(head)) % DEPTHS) as u8
}

/// What the header of the 0-side has as its pattern: that of the segment with a 0 behind it, the lower 32 bits.
fn zero_pattern_field(head: u64) -> u32
    ensures { result ≡ zero_pattern_field head }
{
    (pattern_of_zero_side(pattern_of(head)) % PATTERNS) as u32
}

/// What that of the 1-side has: the same with a 1 behind it.
pub fn one_pattern_field(head: u64) -> u32
    ensures { result ≡ one_pattern_field head }
{
    (side_pattern_of(head) % PATTERNS) as u32
}

/// A header with another state, and else as it was.
pub fn with_state(head: u64, state: u8) -> u64
    ensures { result ≡ with_state head state }
{
    header_of(version_of(head), state, depth_of(head), pattern_of(head))
}

/// The header of the 0-side, of this state and of the version that the segment had.
pub fn zero_side_head(state: u8, head: u64) -> u64
    ensures { result ≡ zero_side_head state head }
{
    header_of(
        version_of(head),
        state,
        side_depth_field(head),
        zero_pattern_field(head),
    )
}

/// The header of a segment when its split is made: normal, of the version that it had, one deeper, with a 0 behind its pattern.
pub fn finished_head(head: u64) -> u64
    ensures { result ≡ finished_head head }
{
    zero_side_head(NORMAL, head)
}

/// That of the 1-side, of this version and this state.
pub fn one_side_head(version: u8, state: u8, head: u64) -> u64
    ensures { result ≡ one_side_head version state head }
{
    header_of(
        version,
        state,
        side_depth_field(head),
        one_pattern_field(head),
    )
}
