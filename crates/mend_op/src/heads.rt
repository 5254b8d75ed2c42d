//! The header with which a mending ends, and the depth that the header says of the segment.

ghost use Rattle.std.specs.Prelude.{◌≡◌};
ghost use Rattle.mend_op.specs.Words.{own_depth, renewed_head};

use hash_word::HASH_BITS;
use segment_head::word::{NORMAL, depth_of, header_of, pattern_of};

/// The depth of a segment with this header, at most 64.
pub(crate) fn own_depth(head: u64) -> u8
    ensures { result ≡ own_depth head }
{
    depth_of(head).min(HASH_BITS)
}

/// The header when it is mended: normal, of this version.
pub(crate) fn renewed_head(version: u8, head: u64) -> u64
    ensures { result ≡ renewed_head version head }
{
    header_of(version, NORMAL, depth_of(head), pattern_of(head))
}
