//! The phase.

ghost use Rattle.std.specs.Prelude.{◌≡◌, ◌<◌, length};
ghost use Rattle.whole_segment.specs.Rounds.{most_lines};
ghost use Rattle.rounds.specs.Steps.{begun, has_room, first_flush, flushing_wanted, flushed_to, stored_to, rounds_stores, rounds_wanted, event_wanted, rounds_taken};

use op_core::Want;
use trace::line_of;
use whole_segment::{MOST_LINES, Round};

/// Which event comes next.
#[derive(Clone, Copy)]
pub enum RoundStep {
    /// A store, as long as the round takes its line; else its first line is flushed.
    Storing,
    /// So many lines of the round were flushed, and the next one is.
    Flushing(u8),
    /// All of them were, and a fence ends the round.
    Fencing,
}

/// Words that are stored in rounds.
#[derive(Clone, Copy)]
pub struct Rounds {
    /// The lines that were stored to and not fenced since.
    pub round: Round,
    /// Where it stands.
    pub step: RoundStep,
}

/// Whether there is a store to come, and the round takes its line.
fn has_room(round: &Round, next: Option<(u64, u64)>) -> bool
    ensures { result ≡ has_room round.now next }
{
    match next {
        Some((word, _)) => round.takes(line_of(word)),
        None => false,
    }
}

/// The flush with which the round ends, where it has touched a line.
fn first_flush(round: &Round) -> Option<Want>
    ensures { result ≡ first_flush round.now }
{
    if round.count() > 0 {
        Some(Want::Flush(round.line(0)))
    } else {
        None
    }
}

/// The flush of the line of this number, and the fence behind the last one.
fn flushing_want(round: &Round, i: u8) -> Want
    ensures { result ≡ flushing_wanted round.now i }
{
    if i < round.count() {
        Want::Flush(round.line(i))
    } else {
        Want::Fence
    }
}

/// What comes behind the flush of the line of this number.
fn flushed_to(round: &Round, i: u8) -> RoundStep
    requires { i < most_lines }
    ensures { result ≡ flushed_to round.now i }
{
    if i + 1 < round.count() {
        RoundStep::Flushing(i + 1)
    } else {
        RoundStep::Fencing
    }
}

impl Rounds {
    /// Nothing was stored yet.
    pub fn begun() -> Rounds
        ensures { result ≡ begun }
    {
        Rounds {
            round: Round::begun(),
            step: RoundStep::Storing,
        }
    }

    /// Whether the next event is the store that is to come: its word and its value.
    pub fn stores(&self, next: Option<(u64, u64)>) -> bool
        ensures { result ≡ rounds_stores self.now next }
    {
        match self.step {
            RoundStep::Storing => has_room(&self.round, next),
            RoundStep::Flushing(_) | RoundStep::Fencing => false,
        }
    }

    /// The event that is wanted, where this store is to come, or none is. Nothing is wanted where all is stored and settled.
    pub fn want(&self, next: Option<(u64, u64)>) -> Option<Want>
        ensures { result ≡ rounds_wanted self.now next }
    {
        match self.step {
            RoundStep::Storing => match next {
                Some((word, value)) if self.round.takes(line_of(word)) => {
                    Some(Want::Store(word, value))
                }
                _ => first_flush(&self.round),
            },
            RoundStep::Flushing(i) => Some(flushing_want(&self.round, i)),
            RoundStep::Fencing => Some(Want::Fence),
        }
    }

    /// What a machine wants that is in its rounds: their event, and else nothing. A round touches no more lines than it may.
    pub fn event(&self, next: Option<(u64, u64)>) -> Want
        ensures { result ≡ event_wanted self.now next }
    {
        prove!(self.round.count() <= MOST_LINES);
        match self.want(next) {
            Some(want) => want,
            None => Want::Done,
        }
    }

    /// The step behind a store, or behind the flush of the first line.
    fn stored_to(&mut self, next: Option<(u64, u64)>)
        ensures { self.new ≡ stored_to self.old.round next }
    {
        self.step = RoundStep::Storing;
        match next {
            Some((word, _)) if self.round.takes(line_of(word)) => self.round.touch(line_of(word)),
            _ => {
                if self.round.count() > 0 {
                    self.step = flushed_to(&self.round, 0);
                }
            }
        }
    }

    /// That event was done.
    pub fn take(&mut self, next: Option<(u64, u64)>)
        ensures { self.new ≡ rounds_taken self.old next }
    {
        match self.step {
            RoundStep::Storing => self.stored_to(next),
            RoundStep::Flushing(i) if i < self.round.count() => {
                self.step = flushed_to(&self.round, i);
            }
            RoundStep::Flushing(_) | RoundStep::Fencing => *self = Rounds::begun(),
        }
    }
}
