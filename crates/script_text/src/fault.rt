// Why a script is refused.

use std::alloc::{AllocError, AllocFailed};
use std::error::Error;
use std::fmt;

/// What is wrong with a script, and in which line, counted from 1 with the skipped ones.
#[derive(Clone, Copy, Debug, PartialEq, Eq)]
pub enum ScriptFault {
    /// The line has none of the forms.
    Word {
        /// Which line.
        line: u64,
    },
    /// Something else than a number stands in a number's place.
    Number {
        /// Which line.
        line: u64,
    },
    /// The caller is out of range.
    Caller {
        /// Which line.
        line: u64,
    },
    /// The line may not stand behind those before it.
    Order {
        /// Which line.
        line: u64,
    },
    /// The script has too many bytes or lines.
    TooLong {
        /// Always 0: no line is at fault.
        line: u64,
    },
    /// Memory ran out.
    NoMemory,
}

impl fmt::Display for ScriptFault {
    fn fmt<W: fmt::Write>(&self, f: &mut fmt::Formatter<W>) -> fmt::Result {
        let (line, what) = match self {
            ScriptFault::Word { line } => (line, "not one of the forms"),
            ScriptFault::Number { line } => (line, "not a number"),
            ScriptFault::Caller { line } => (line, "no such caller"),
            ScriptFault::Order { line } => (line, "out of order"),
            ScriptFault::TooLong { line } => (line, "too many bytes or lines"),
            ScriptFault::NoMemory => return write!(f, "{}", map_model::NoMemory),
        };
        write!(f, "line {line}: {what}")
    }
}

impl Error for ScriptFault {}

impl From<AllocError> for ScriptFault {
    ghost use Rattle.std.specs.Prelude.{◌≡◌};
    ghost use Rattle.script_text.specs.declared.fault.ScriptFault.TheVariants.{NoMemory};

    ghost from_gives = { λ _ e. e ≡ NoMemory };

    fn from(_error: AllocError) -> ScriptFault {
        ScriptFault::NoMemory
    }
}

impl<T: Drop> From<AllocFailed<T>> for ScriptFault {
    ghost use Rattle.std.specs.Prelude.{◌≡◌};
    ghost use Rattle.script_text.specs.declared.fault.ScriptFault.TheVariants.{NoMemory};

    ghost from_gives = { λ _ e. e ≡ NoMemory };

    fn from(_error: AllocFailed<T>) -> ScriptFault {
        ScriptFault::NoMemory
    }
}
