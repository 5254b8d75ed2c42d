//! The laws by which what was served is a session. A function does nothing: it stands for the law that its contract says.

ghost use Rattle.serve.specs.Served.{ServedIsSession};
ghost use Rattle.serve.specs.AtCut.{ServedCutIsSession};

/// What callers were told of an image that was restarted, shared and closed is a session of their calls.
pub fn served_is_session()
    ensures { ServedIsSession }
{}

/// What callers were told of an image that was restarted, shared and cut is a session of their calls, each open call whole or absent in the words
/// that the cut gave.
pub fn served_cut_is_session()
    ensures { ServedCutIsSession }
{}
