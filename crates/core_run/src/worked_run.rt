//! The law of a worked run. The function does nothing: it stands for the law that its contract says.

ghost use Rattle.core_run.specs.WorkedRun.{LinesStop};

/// On an insert into a new image each kind of line stops after the event that a row says: so many stores, exchanges, flushes,
/// fences, draws or ends of calls, the store to a word, so many events, of the caller and of caller 0; and the events are those
/// that are written out, in that order. A close lets the insert run to its end, and is begun then; a cut does no event, and a
/// script that has one ends with the line before it.
pub fn lines_stop()
    ensures { LinesStop }
{}
