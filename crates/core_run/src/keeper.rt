//! Caller 0.

use restart_op::{CloseOp, RestartOp};

/// Caller 0, the keeper of the image: it restarts it, leaves it to the callers, and closes it.
#[derive(Clone, Copy)]
pub enum Keeper {
    /// It restarts the image.
    Restarting(RestartOp),
    /// The callers run their calls.
    Open,
    /// The calls have run out, and it closes the image.
    Closing(CloseOp),
    /// The image is closed.
    Closed,
}
