//! The header word of a segment, field by field, for those who hold the word itself, and put together of its fields. It may
//! have bits that no field has, and a state byte that is none of the four.

ghost use Rattle.std.specs.Prelude.{◌≡◌, ◌↔◌, IsTrue};
ghost use Rattle.segment_head.specs.HeadWord.{state_in, depth_in, pattern_in, header_of, is_live, HasLiveState};

use hash_word::VERSION_BITS;
pub use hash_word::version_of;
use word_bits::with_bits;

/// How many bits the state byte has.
const STATE_BITS: u32 = 8;
/// How many bits the depth has.
pub(crate) const DEPTH_BITS: u32 = 8;
/// How many bits behind the depth no field has.
const SPARE_BITS: u32 = 8;
/// How many bits the pattern has.
pub const PATTERN_BITS: u8 = 32;

/// The bits of the state byte, shifted down to the lowest ones.
const STATE_MASK: u64 = (1 << STATE_BITS) - 1;
/// Those of the depth, shifted down too.
const DEPTH_MASK: u64 = (1 << DEPTH_BITS) - 1;

/// The lowest bit of the state byte, which stands behind the version.
const STATE_FROM: u32 = VERSION_BITS;
/// That of the depth.
const DEPTH_FROM: u32 = STATE_FROM + STATE_BITS;
/// That of the bits that no field has.
const SPARE_FROM: u32 = DEPTH_FROM + DEPTH_BITS;
/// That of the pattern, which has all bits from there on.
const PATTERN_FROM: u32 = SPARE_FROM + SPARE_BITS;

/// The state byte of a segment that holds nothing, and may be taken by a split.
pub const FREE: u8 = 0;
/// That of a segment that holds the records of the hashes that it covers.
pub const NORMAL: u8 = 1;
/// That of a segment that gives the records of its 1-side away.
pub const SPLITTING: u8 = 2;
/// That of a segment that takes records from a splitting one, and is not looked at yet.
pub const FRESH: u8 = 3;
/// The last of the four; a greater number is none of them.
pub const LAST_STATE: u8 = FRESH;

/// The state byte: one of the four states, or a number above 3.
pub fn state_of(h1: u64) -> u8
    ensures { result ≡ state_in h1 }
{
    ((h1 >> STATE_FROM) & STATE_MASK) as u8
}

/// How many top bits of a hash the pattern is compared with.
pub fn depth_of(h1: u64) -> u8
    ensures { result ≡ depth_in h1 }
{
    ((h1 >> DEPTH_FROM) & DEPTH_MASK) as u8
}

/// What these bits are in the hashes that the segment covers.
pub fn pattern_of(h1: u64) -> u32
    ensures { result ≡ pattern_in h1 }
{
    (h1 >> PATTERN_FROM) as u32
}

/// The header word of these fields: a version, a state byte, a depth and a pattern. Its bits 24 to 31 are 0.
pub fn header_of(version: u8, state: u8, depth: u8, pattern: u32) -> u64
    ensures { result ≡ header_of version state depth pattern }
{
    let word = with_bits(u64::from(version), STATE_FROM, u64::from(state));
    let word = with_bits(word, DEPTH_FROM, u64::from(depth));
    with_bits(word, PATTERN_FROM, u64::from(pattern))
}

/// Whether the segment is live: normal or splitting.
pub fn is_live(h1: u64) -> bool
    ensures is { result ≡ is_live h1 }
    ensures live { IsTrue result ↔ HasLiveState h1 }
{
    let state = state_of(h1);
    state == NORMAL || state == SPLITTING
}
