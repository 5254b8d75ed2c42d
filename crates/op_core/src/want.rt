//! One event, as it is asked for and as it is answered.

/// The event that a machine wants next. Words and lines are told by their numbers; a line is eight words.
#[derive(Clone, Copy, Debug, PartialEq, Eq)]
pub enum Want {
    /// To load a word.
    Load(u64),
    /// To store a value in a word.
    Store(u64, u64),
    /// To exchange the value of a word for another: the word, the value that is expected, and the new one.
    Exchange(u64, u64, u64),
    /// To have a line written back.
    Flush(u64),
    /// To wait for the lines that it had written back.
    Fence,
    /// To add one to the commit counter.
    Draw,
    /// To load the power word.
    Power,
    /// Nothing more.
    Done,
}

/// What came of an event.
#[derive(Clone, Copy, Debug, PartialEq, Eq)]
pub enum Ans {
    /// The value that was loaded.
    Value(u64),
    /// The exchange found what it expected.
    Won,
    /// The exchange found this value instead, and changed nothing.
    Lost(u64),
    /// The counter's value before one was added.
    Drawn(u64),
    /// It was done, and there is nothing to tell.
    Passed,
}
