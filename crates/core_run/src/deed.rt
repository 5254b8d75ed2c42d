//! An event that was done.

use op_core::Want;

/// An event that was done: what was wanted, what ended with it, and whether it tried in vain for the guard of the directory.
#[derive(Clone, Copy)]
pub struct Deed {
    /// What was wanted.
    pub want: Want,
    /// Its call ended with it.
    pub replied: bool,
    /// Its attempt ended with it, and is to be made again.
    pub again: bool,
    /// It tried in vain for the guard of the directory.
    pub tried: bool,
    /// The caller waits for that guard.
    pub waits: bool,
}
