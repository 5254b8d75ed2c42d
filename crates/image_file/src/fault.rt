//! Why bytes are no image.

use image_rules::Rule;
use std::error::Error;
use std::fmt;

/// Why bytes are no image. Each says also that none that is looked at before it is there: first a length below 256 bytes, then magic,
/// format and geometry, then the length, then the rules.
#[derive(Clone, Copy, Debug, PartialEq, Eq)]
pub enum ImageFault {
    /// There are fewer than 256 bytes, or not 8 for each word of the geometry.
    Length,
    /// The first word is not the text `DASHEH01`.
    Magic,
    /// The lower half of the second word is not 1, or its upper half is above 1.
    Format,
    /// The third word is not 1 to 16384, or the fourth is above 16.
    Geometry,
    /// A rule is broken: the first one, and the least word at which it is.
    Unsound {
        /// The rule, told by its number.
        rule: Rule,
        /// The number of the word.
        word: u64,
    },
    /// Memory ran out.
    NoMemory,
}

impl fmt::Display for ImageFault {
    fn fmt<W: fmt::Write>(&self, f: &mut fmt::Formatter<W>) -> fmt::Result {
        match self {
            ImageFault::Length => f.write_str("length"),
            ImageFault::Magic => f.write_str("magic"),
            ImageFault::Format => f.write_str("format"),
            ImageFault::Geometry => f.write_str("geometry"),
            ImageFault::Unsound { rule, word } => write!(f, "rule {rule} word {word}"),
            ImageFault::NoMemory => map_model::NoMemory.fmt(f),
        }
    }
}

impl Error for ImageFault {}
