//! What a line of a schedule counts.

use script_text::Counted;

/// What a line of a schedule counts of a caller's events.
#[derive(Clone, Copy)]
pub enum Goal {
    /// Each event.
    AnyEvent,
    /// Those of a kind.
    Kind(Counted),
    /// Stores to this word.
    StoreTo(u64),
    /// The end of the call: a turn of the end rule.
    Turn,
}
