//! What a line of a schedule counts.

ghost use Rattle.std.specs.Prelude.{◌≡◌};
ghost use Rattle.core_run.specs.State.{Deed as SaidDeed};
ghost use Rattle.core_run.specs.Run.{is_of_kind, is_store_to, counts, ends_call, ends_in_again, pauses, stops};

use core_run::{Deed, End, Goal};
use op_core::Want;
use script_text::Counted;

/// Whether an attempt ended with the reply to its call.
pub(crate) fn ends_call(end: Option<End>) -> bool
    ensures { result ≡ ends_call end }
{
    match end {
        Some(end) => end.reply().is_some(),
        None => false,
    }
}

/// Whether an event is of a kind.
fn is_of_kind(kind: Counted, deed: Deed) -> bool
    ensures { (said : SaidDeed) → deed.want ≡ said.want → deed.replied ≡ ends_call said.end → result ≡ is_of_kind kind said }
{
    match kind {
        Counted::Store => matches!(deed.want, Want::Store(..)),
        Counted::Exchange => matches!(deed.want, Want::Exchange(..)),
        Counted::Flush => matches!(deed.want, Want::Flush(_)),
        Counted::Fence => matches!(deed.want, Want::Fence),
        Counted::Draw => matches!(deed.want, Want::Draw),
        Counted::End => deed.replied,
    }
}

/// Whether an event is a store to a word.
fn is_store_to(word: u64, want: Want) -> bool
    ensures { result ≡ is_store_to word want }
{
    match want {
        Want::Store(at, _) => at == word,
        _ => false,
    }
}

/// Whether an event is counted.
pub(crate) fn counts(goal: Goal, deed: Deed) -> bool
    ensures { (said : SaidDeed) → deed.want ≡ said.want → deed.replied ≡ ends_call said.end → result ≡ counts goal said }
{
    match goal {
        Goal::AnyEvent => true,
        Goal::Kind(kind) => is_of_kind(kind, deed),
        Goal::StoreTo(word) => is_store_to(word, deed.want),
        Goal::Turn => deed.replied,
    }
}

/// Whether an attempt ended and is to be made again.
pub(crate) fn ends_in_again(end: Option<End>) -> bool
    ensures { result ≡ ends_in_again end }
{
    match end {
        Some(end) => end.is_again(),
        None => false,
    }
}

/// Whether a line, or a turn of the end rule, pauses after an event.
fn pauses(goal: Goal, deed: Deed) -> bool
    ensures { (said : SaidDeed) → deed.tried ≡ said.tried → deed.waits ≡ said.waits → result ≡ pauses goal said }
{
    match goal {
        Goal::Turn => deed.waits,
        Goal::AnyEvent | Goal::Kind(_) | Goal::StoreTo(_) => deed.tried,
    }
}

/// Whether the caller stops after an event.
pub(crate) fn stops(goal: Goal, deed: Deed) -> bool
    ensures { (said : SaidDeed) → deed.again ≡ ends_in_again said.end → deed.tried ≡ said.tried → deed.waits ≡ said.waits → result ≡ stops goal said }
{
    deed.again || pauses(goal, deed)
}
