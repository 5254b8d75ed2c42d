//! Laws about traces. The functions do nothing: each stands for the law that its contract says.

ghost use Rattle.std.specs.Prelude.{◌≡◌, ◌≢◌, ℕ, ◌≤◌, ◌<◌, ◌↔◌, ◌⊎◌, ◌∷◌, max, length, Contains};
ghost use Rattle.trace.specs.Events.{Words, line_of, Event, Trace, value, value_at};
ghost use Rattle.trace.specs.Events.Event.{flushed, fenced};
ghost use Rattle.trace.specs.Settling.{IsSettledMoment, IsSettledValue};
ghost use Rattle.trace.specs.Media.{MayHold, IsPossible};
ghost use Rattle.trace.specs.Progress.{pending, latest_of, settled_moment, HadSince};
ghost use Rattle.trace.specs.Steps.{Writes, IsFence, HadSinceSettled, settled_value, IsReplaced};

/// The settled moment that is kept event by event is the one that the definition says, and there is no other.
pub fn settled_by_progress()
    ensures is_one { (es : Trace) (line : ℕ) → IsSettledMoment es line (settled_moment line es) }
    ensures only { (es : Trace) (line t : ℕ) → IsSettledMoment es line t → t ≡ settled_moment line es }
{}

/// What a word may hold after a power cut is what it had since its settled moment, kept event by event.
pub fn media_by_progress()
    ensures { (start : Words) (es : Trace) (i x : ℕ) → MayHold start es i x ↔ HadSince start es (settled_moment (line_of i) es) i x }
{}

/// An event adds to what a word may hold at most the value that it writes there. The newest value and the settled one
/// are always among those that it may hold.
pub fn events_add()
    ensures since { (start : Words) (e : Event) (es : Trace) (t i x : ℕ) → HadSince start (e ∷ es) t i x
        → Writes (value start es) e i x ⊎ HadSince start es t i x }
    ensures added { (start : Words) (e : Event) (es : Trace) (i x : ℕ) → HadSinceSettled start (e ∷ es) i x
        → Writes (value start es) e i x ⊎ HadSinceSettled start es i x }
    ensures newest { (start : Words) (es : Trace) (i : ℕ) → HadSinceSettled start es i (value start es i) }
    ensures settled { (start : Words) (es : Trace) (i : ℕ) → HadSinceSettled start es i (settled_value start es i) }
{}

/// A medium that is possible after an event was possible before, or is one that was with the word replaced that the
/// event wrote. Each word that holds its settled value or its newest makes a possible medium with any others.
pub fn media_by_events()
    ensures added { (width : ℕ) (start : Words) (e : Event) (es : Trace) (medium : Words) → IsPossible width start (e ∷ es) medium
        → IsPossible width start es medium ⊎ IsReplaced width start e es (value start es) medium }
    ensures between { (width : ℕ) (start : Words) (es : Trace) (medium : Words)
        → ((i : ℕ) → i < width → IsSettledValue start es i (medium i) ⊎ (medium i ≡ value start es i)) → IsPossible width start es medium }
{}

/// A flush stays pending until its caller fences, and right after it a word has had its newest value alone since. After
/// the fence a word of the line may hold only what it had since the flush.
pub fn fences_settle()
    ensures begun { (es : Trace) (c l : ℕ) → Contains (pending c (flushed c l ∷ es)) (l, length es) }
    ensures kept { (e : Event) (es : Trace) (c l t : ℕ) → e ≢ fenced c → Contains (pending c es) (l, t) → Contains (pending c (e ∷ es)) (l, t) }
    ensures newest { (start : Words) (es : Trace) (c l i x : ℕ) → HadSince start (flushed c l ∷ es) (length es) i x → x ≡ value start es i }
    ensures since { (start : Words) (es : Trace) (c i t x : ℕ) → Contains (pending c es) (line_of i, t)
        → HadSinceSettled start (fenced c ∷ es) i x → HadSince start es t i x }
    ensures fewer { (start : Words) (es : Trace) (t u i x : ℕ) → t ≤ u → HadSince start es u i x → HadSince start es t i x }
{}

/// The settled value is kept by every event but a fence. A fence makes it the value at the latest flush of the line that
/// it fences, where that is later than the settled moment, and else keeps it.
pub fn settled_values()
    ensures is { (start : Words) (es : Trace) (i x : ℕ) → IsSettledValue start es i x ↔ (x ≡ settled_value start es i) }
    ensures kept { (start : Words) (e : Event) (es : Trace) (i x : ℕ) → (IsFence e → ⊥) → IsSettledValue start es i x → IsSettledValue start (e ∷ es) i x }
    ensures later { (start : Words) (es : Trace) (c i : ℕ) → settled_moment (line_of i) es ≤ latest_of (line_of i) (pending c es)
        → IsSettledValue start (fenced c ∷ es) i (value_at start es (latest_of (line_of i) (pending c es)) i) }
    ensures earlier { (start : Words) (es : Trace) (c i x : ℕ) → latest_of (line_of i) (pending c es) ≤ settled_moment (line_of i) es
        → IsSettledValue start es i x → IsSettledValue start (fenced c ∷ es) i x }
{}
