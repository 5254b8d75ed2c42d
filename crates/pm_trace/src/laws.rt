//! What a cut leaves is possible. The function does nothing: it stands for the law that its contract says.

ghost use Rattle.std.specs.Prelude.{ℕ};
ghost use Rattle.pm_trace.specs.Memory.{Memory};
ghost use Rattle.pm_trace.specs.TraceOf.{MayLeave};
ghost use Rattle.pm_trace.specs.Choice.{kept};

/// The words that any choice names are those of a possible medium, whatever led to the memory.
pub fn chosen_is_possible()
    ensures { (memory : Memory) (choice : ℕ) → MayLeave memory (kept choice memory) }
{}
