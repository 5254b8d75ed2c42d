//! One round of stores: the lines that it has touched, at most eight, which are flushed and fenced before more is stored.

ghost use Rattle.std.specs.Prelude.{◌≡◌, ◌<◌, ◌≤◌, [], IsTrue, length, slice_index};

use std::marker::Model;

/// How many lines a round has at most: as many as a caller may have flushed and not fenced.
pub const MOST_LINES: u8 = trace::MOST_UNFENCED;

/// The lines that a round of stores has touched. Contracts see the list of them.
#[derive(Clone, Copy)]
pub struct Round {
    lines: [u64; MOST_LINES as usize],
    count: u8,
}

impl Model for Round {
    ghost use Rattle.std.specs.Prelude.{ℕ, List};

    ghost Value = { List ℕ };

    ghost use Rattle.whole_segment.specs.OneRound.{lines_of, round_of, IsRound};

    ghost view = { lines_of };

    ghost invariant = { IsRound };

    ghost inverse = { round_of };

    ghost inverse_ok = { λ a h. h.fields };
}

impl Round {
    ghost use Rattle.whole_segment.specs.Rounds.{most_lines, ends_with, takes, touched};

    /// A round that has touched no line.
    pub fn begun() -> Round
        ensures { result ≡ [] }
    {
        Round {
            lines: [0; MOST_LINES as usize],
            count: 0,
        }
    }

    /// How many lines it has touched.
    pub fn count(&self) -> u8
        ensures is { result ≡ length self.now }
        ensures most { result ≤ most_lines }
    {
        self.count
    }

    /// One of the lines, by its number among them.
    pub fn line(&self, i: u8) -> u64
        requires { i < length self.now }
        ensures { result ≡ slice_index self.now i }
    {
        self.lines[usize::from(i)]
    }

    /// Whether the last of them is this line.
    fn ends_with(&self, line: u64) -> bool
        ensures { result ≡ ends_with self.now line }
    {
        self.count > 0 && self.lines[usize::from(self.count - 1)] == line
    }

    /// Whether a store to a word of this line still belongs to the round.
    pub fn takes(&self, line: u64) -> bool
        ensures { result ≡ takes self.now line }
    {
        self.ends_with(line) || self.count < MOST_LINES
    }

    /// Notes a store to a word of this line, which the round takes.
    pub fn touch(&mut self, line: u64)
        requires { IsTrue (takes self.old line) }
        ensures { self.new ≡ touched self.old line }
    {
        if !self.ends_with(line) {
            self.lines[usize::from(self.count)] = line;
            self.count += 1;
        }
    }
}
