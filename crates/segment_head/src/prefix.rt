//! Which hashes a segment covers, as a depth and a pattern.

ghost use Rattle.std.specs.Prelude.{◌≡◌, ◌==◌, ◌+◌, ◌*◌, ◌^◌, ◌<◌, ◌≤◌, ◌↔◌, IsTrue};
ghost use Rattle.hash_word.specs.Hash.{most_depth};
ghost use Rattle.segment_head.specs.HeadWord.{pattern_bits, depth_in, pattern_in};
ghost use Rattle.segment_head.specs.Prefixes.{IsSidePrefix, is_side_prefix, IsOfOneSide, depth_of_sides, pattern_of_zero_side, pattern_of_one_side};

use crate::word::{PATTERN_BITS, depth_of, pattern_of};
use hash_word::covers;

/// The top bits of the hashes that a segment covers: as many as its depth, and these are its pattern.
#[derive(Clone, Copy, Debug, PartialEq, Eq)]
pub struct Prefix {
    /// How many bits.
    pub depth: u8,
    /// What they are.
    pub pattern: u32,
}

/// The prefix in a header word.
pub fn prefix_in(header: u64) -> Prefix
    ensures depth { result.depth ≡ depth_in header }
    ensures pattern { result.pattern ≡ pattern_in header }
{
    Prefix {
        depth: depth_of(header),
        pattern: pattern_of(header),
    }
}

/// The depth of both sides of a segment of this depth: one bit more.
pub fn depth_of_sides(depth: u8) -> u16
    ensures { result ≡ depth_of_sides depth }
{
    u16::from(depth) + 1
}

/// The pattern of the 0-side of a segment with this one: that with a 0 behind it.
pub fn pattern_of_zero_side(pattern: u32) -> u64
    ensures { result ≡ pattern_of_zero_side pattern }
{
    2 * u64::from(pattern)
}

/// The pattern of the 1-side of a segment with this one: that with a 1 behind it.
pub fn pattern_of_one_side(pattern: u32) -> u64
    ensures { result ≡ pattern_of_one_side pattern }
{
    pattern_of_zero_side(pattern) + 1
}

/// The prefix of the 0-side of a segment with this one: one bit more, which is 0.
pub fn zero_side_of(prefix: Prefix) -> Prefix
    requires depth { prefix.depth ≤ most_depth }
    requires pattern { prefix.pattern < 2 ^ prefix.depth }
    ensures depth { result.depth ≡ depth_of_sides prefix.depth }
    ensures pattern { result.pattern ≡ pattern_of_zero_side prefix.pattern }
{
    Prefix {
        depth: depth_of_sides(prefix.depth) as u8,
        pattern: pattern_of_zero_side(prefix.pattern) as u32,
    }
}

/// The prefix of the 1-side of a segment with this one: one bit more, which is 1.
pub fn one_side_of(prefix: Prefix) -> Prefix
    requires depth { prefix.depth ≤ most_depth }
    requires pattern { prefix.pattern < 2 ^ prefix.depth }
    ensures depth { result.depth ≡ depth_of_sides prefix.depth }
    ensures pattern { result.pattern ≡ pattern_of_one_side prefix.pattern }
{
    Prefix {
        depth: depth_of_sides(prefix.depth) as u8,
        pattern: pattern_of_one_side(prefix.pattern) as u32,
    }
}

/// Whether a pattern is another one, followed by so many zeros.
fn has_zeros(pattern: u32, before: u64, zeros: u8) -> bool
    requires most { before < 2 ^ (pattern_bits + 1) }
    requires some { 1 ≤ before }
    ensures { result ≡ (pattern == before * 2 ^ zeros) }
{
    zeros < PATTERN_BITS && u64::from(pattern) == before << zeros
}

/// Whether a prefix is that of the 1-side of another, with zeros alone behind it.
pub fn is_side(whole: Prefix, side: Prefix) -> bool
    ensures is { result ≡ is_side_prefix whole.depth whole.pattern side.depth side.pattern }
    ensures side { IsTrue result ↔ IsSidePrefix whole side }
{
    whole.depth < side.depth
        && has_zeros(
            side.pattern,
            pattern_of_one_side(whole.pattern),
            side.depth - whole.depth - 1,
        )
}

/// Whether a hash is in the 1-side of a prefix.
pub fn in_one_side(prefix: Prefix, hash: u64) -> bool
    requires depth { prefix.depth ≤ most_depth }
    requires pattern { prefix.pattern < 2 ^ prefix.depth }
    ensures { IsTrue result ↔ IsOfOneSide prefix.depth prefix.pattern hash }
{
    let ones = one_side_of(prefix);
    covers(ones.depth, ones.pattern, hash)
}
