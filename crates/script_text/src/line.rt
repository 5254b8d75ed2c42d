// The lines of a script.

use map_model::Call;

/// How a script is run, which decides what forms its lines may have.
#[derive(Clone, Copy, Debug, PartialEq, Eq)]
pub enum Mode {
    /// By a schedule, whose lines say which caller goes on and how far.
    Play,
    /// On threads, one for each caller.
    Serve,
}

/// What a schedule counts of what a caller does.
#[derive(Clone, Copy, Debug, PartialEq, Eq)]
pub enum Counted {
    /// A store to a word.
    Store,
    /// An exchange of a word that compares first, whether it won or lost.
    Exchange,
    /// A flush of a line of memory.
    Flush,
    /// A fence.
    Fence,
    /// The draw of a place in the order of changes.
    Draw,
    /// The end of a call.
    End,
}

/// A line of a script. Callers are counted from 1; 0 is who starts and closes the image.
#[derive(Clone, Copy, Debug, PartialEq, Eq)]
pub enum Line {
    /// This caller's next call.
    Call(u8, Call),
    /// This caller's gate lets so many events through, and none after them.
    Fuse(u8, u64),
    /// This caller does so many events, fewer where its calls run out.
    Step(u8, u64),
    /// This caller runs until it did so many more events of this kind.
    Until(u8, Counted, u64),
    /// This caller runs until its next store to this word of the image is done.
    At(u8, u64),
    /// The calls run out, and then the image is closed.
    Close,
    /// The power is cut, with this choice among what the medium may then hold.
    Cut(u64),
}
