// What is told on standard error where memory was wanting.
use std::fmt;

/// What to do then.
pub const GIVE_MORE: &str = "let the process have more (ulimit -v)";

/// Memory was wanting before the call began.
#[derive(Drop)]
pub struct Wanting {
    /// What it was wanting for.
    pub what: &'static str,
}

impl fmt::Display for Wanting {
    fn fmt<W: fmt::Write>(&self, f: &mut fmt::Formatter<W>) -> fmt::Result {
        write!(
            f,
            "dash: memory was wanting for {}: {}",
            self.what, GIVE_MORE
        )
    }
}
