//! The header of a segment: its version, its state, and which hashes it covers.
//! A [`Head`] is read from one word of the image, and written back; [`Head::sibling`] is the header of the
//! segment that a split fills; [`word`], [`prefix`] and [`split`] have the functions of those who hold the word as it is,
//! and [`link`] those of the word behind it.
//! `specs/HeadWord.antt` says what each bit of the word means.
#![tactic(auto)]

ghost use Rattle.std.specs.Prelude.{◌≡◌, ◌<◌, ◌≤◌, ◌+◌, ◌*◌, IfSome, IfNone, IsNone, ◌^◌};
ghost use Rattle.segment_head.specs.HeadWord.{pattern_bits, state_in, last_state};
ghost use Rattle.segment_head.specs.Head.{IsHeadOf, number_of};
ghost use Rattle.segment_head.specs.Sides.{IsOneSideOf, CoversOnes};
ghost use Rattle.segment_head.specs.Written.{spare_in};

mod laws;
pub mod link;
pub mod prefix;
pub mod split;
pub mod version;
pub mod word;

use crate::prefix::{depth_of_sides, pattern_of_one_side};
use crate::word::{
    FREE, FRESH, NORMAL, SPLITTING, depth_of, header_of, pattern_of, state_of, version_of,
};
pub use laws::{head_gives_word, read_of_written, word_gives_head, written_of_read};

/// What a segment is in the middle of.
#[derive(Clone, Copy, Debug, PartialEq, Eq)]
pub enum State {
    /// Holds nothing, and may be taken by a split.
    Free,
    /// Holds the records of the hashes that it covers.
    Normal,
    /// Gives the records of its 1-side away.
    Splitting,
    /// Takes records from a splitting segment, and is not looked at yet.
    Fresh,
}

/// A header.
#[derive(Clone, Copy, Debug, PartialEq, Eq)]
pub struct Head {
    /// The version of the image when the segment was last current.
    pub version: u8,
    /// What the segment is in the middle of.
    pub state: State,
    /// How many top bits of a hash the pattern is compared with.
    pub depth: u8,
    /// What these bits are in the hashes that the segment covers.
    pub pattern: u32,
}

/// The number of a state in a header word, from 0 to 3.
fn state_number(state: State) -> u8
    ensures value { result ≡ number_of state }
    ensures range { result ≤ last_state }
{
    match state {
        State::Free => FREE,
        State::Normal => NORMAL,
        State::Splitting => SPLITTING,
        State::Fresh => FRESH,
    }
}

impl Head {
    /// Reads a header word. None exactly where its state byte is above 3.
    pub fn read(h1: u64) -> Option<Head>
        ensures some { IfSome result (λ head. IsHeadOf head h1) }
        ensures none { IfNone result (last_state < state_in h1) }
        ensures refused { last_state < state_in h1 → IsNone result }
    {
        let state = match state_of(h1) {
            FREE => State::Free,
            NORMAL => State::Normal,
            SPLITTING => State::Splitting,
            FRESH => State::Fresh,
            _ => return None,
        };
        Some(Head {
            version: version_of(h1),
            state,
            depth: depth_of(h1),
            pattern: pattern_of(h1),
        })
    }

    /// The word of this header. Its bits 24 to 31 are 0.
    pub fn write(&self) -> u64
        ensures word { IsHeadOf self.now result }
        ensures spare { spare_in result ≡ 0 }
    {
        header_of(
            self.version,
            state_number(self.state),
            self.depth,
            self.pattern,
        )
    }

    /// The header of the 1-side: one bit deeper, with a 1 behind the pattern, and else the same. It is for depths below the bits that a
    /// header has for a pattern, so that the side's pattern has room there.
    pub fn sibling(&self) -> Head
        requires depth { self.now.depth < pattern_bits }
        requires pattern { self.now.pattern < 2 ^ self.now.depth }
        ensures fields { IsOneSideOf self.now result }
        ensures covers { CoversOnes self.now result }
        ensures pattern { result.pattern < 2 ^ result.depth }
    {
        Head {
            depth: depth_of_sides(self.depth) as u8,
            pattern: pattern_of_one_side(self.pattern) as u32,
            ..*self
        }
    }
}
