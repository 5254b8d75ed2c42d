//! Lines of a memory.

ghost use Rattle.std.specs.Prelude.{◌≡◌};
ghost use Rattle.trace.specs.Events.{line_of};

/// How many words a line has.
pub const LINE: u64 = 8;
/// That many, as a place among words that are held.
pub const LINE_WORDS: usize = LINE as usize;

/// How many lines a caller may have flushed and not fenced.
pub const MOST_UNFENCED: u8 = 8;

/// The line in which a word lies.
pub fn line_of(word: u64) -> u64
    ensures { result ≡ line_of word }
{
    word / LINE
}
