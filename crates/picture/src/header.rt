//! What the header of a segment says.

ghost use Rattle.std.specs.Prelude.{◌≡◌, ◌<◌, ◌==◌, length, slice_index};
ghost use Rattle.image_layout.specs.Places.{header_word, words_of};
ghost use Rattle.segment_head.specs.HeadWord.{version_in, state_in, depth_in, pattern_in, free};

use image_layout::Geometry;
use segment_head::word::{FREE, NORMAL, SPLITTING, depth_of, pattern_of, state_of, version_of};
use std::fmt;

/// The header of a segment, field by field.
#[derive(Clone, Copy, Debug, PartialEq, Eq)]
pub struct Header {
    /// The version of the image when the segment was last current.
    pub version: u8,
    /// The state byte.
    pub state: u8,
    /// How many top bits of a hash are compared.
    pub depth: u8,
    /// What they are in the hashes that the segment covers.
    pub pattern: u32,
}

/// The fields of the header of the segment in slot `s`.
pub fn header_fields(geometry: &Geometry, words: &[u64], s: u64) -> Header
    requires whole { length words.now ≡ words_of geometry.now }
    requires slot { s < geometry.now.segments }
    ensures version { result.version ≡ version_in (slice_index words.now (header_word geometry.now s)) }
    ensures state { result.state ≡ state_in (slice_index words.now (header_word geometry.now s)) }
    ensures depth { result.depth ≡ depth_in (slice_index words.now (header_word geometry.now s)) }
    ensures pattern { result.pattern ≡ pattern_in (slice_index words.now (header_word geometry.now s)) }
{
    let head = words[geometry.header_word(s) as usize];
    Header {
        version: version_of(head),
        state: state_of(head),
        depth: depth_of(head),
        pattern: pattern_of(head),
    }
}

impl Header {
    /// Whether no hash can lead here: the slot may be taken by a split.
    pub fn is_free(&self) -> bool
        ensures { result ≡ (self.now.state == free) }
    {
        self.state == FREE
    }

    /// The state in a word.
    fn state_name(&self) -> &'static str {
        match self.state {
            FREE => "free",
            NORMAL => "normal",
            SPLITTING => "splitting",
            _ => "fresh",
        }
    }
}

/// `normal, depth 2, pattern 1, version 3`: the state, how many top bits of a hash are compared and what they are, and the version.
impl fmt::Display for Header {
    fn fmt<W: fmt::Write>(&self, f: &mut fmt::Formatter<W>) -> fmt::Result {
        let name = self.state_name();
        let Header {
            version,
            depth,
            pattern,
            ..
        } = *self;
        write!(
            f,
            "{name}, depth {depth}, pattern {pattern}, version {version}"
        )
    }
}
