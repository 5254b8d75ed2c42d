//! How an attempt ends that has locks to give back first.

use map_model::Reply;
use op_core::Why;

/// How an attempt is to end once all its locks are given back.
#[derive(Clone, Copy)]
pub enum Ending {
    /// It is answered, with its place.
    Replied(Reply, u64),
    /// It is to be made again.
    Again(Why),
}
