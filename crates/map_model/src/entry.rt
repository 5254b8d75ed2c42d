// What became of a call.

use crate::call::Call;
use std::fmt;

/// A change that finds so many places drawn, or more, is answered [`Reply::Spent`] and draws none.
pub const SPENT_COUNT: u64 = 1 << 63;

/// The answer to a call.
#[derive(Clone, Copy, Debug, PartialEq, Eq)]
pub enum Reply {
    /// A `get` of a present key: its value.
    Found(u64),
    /// A `get`, `update` or `remove` of an absent key.
    Absent,
    /// A change was made.
    Done,
    /// An `insert` of a present key, which keeps its value.
    Exists,
    /// An `insert` found no room, and no free segment.
    Full,
    /// An `insert` found no room, and its segment is as deep as the image allows.
    Deep,
    /// A change needed a lock of the last version, or found [`SPENT_COUNT`] places drawn or more.
    Spent,
}

impl fmt::Display for Reply {
    ghost use Rattle.std.specs.Prelude.{Some};
    ghost use Rattle.map_model.specs.ReplyText.{reply_text};

    ghost output = { λ r. Some (reply_text r) };

    fn fmt<W: fmt::Write>(&self, f: &mut fmt::Formatter<W>) -> fmt::Result {
        f.write_str(match self {
            Reply::Found(v) => return write!(f, "FOUND {v}"),
            Reply::Absent => "ABSENT",
            Reply::Done => "DONE",
            Reply::Exists => "EXISTS",
            Reply::Full => "FULL",
            Reply::Deep => "DEEP",
            Reply::Spent => "SPENT",
        })
    }
}

/// A call that was answered.
#[derive(Clone, Copy, Debug, PartialEq, Eq)]
pub struct Entry {
    /// The number of the call among its caller's calls, from 1.
    pub serial: u64,
    pub call: Call,
    pub reply: Reply,
    /// The place in the order of changes: drawn by a change, else the number of changes that were seen.
    pub place: u64,
    /// Whether the place was drawn.
    pub drew: bool,
}

/// Where a caller stopped: whether its last call had begun, and its entry where that call drew a place.
#[derive(Clone, Copy, Debug, PartialEq, Eq)]
pub struct Stop {
    pub begun: bool,
    pub drew: Option<Entry>,
}
