//! What a play has while it runs: a memory, and callers on it.

use crate::caller::Caller;
use core_run::Keeper;
use map_model::Lists;
use pm_trace::Device;

/// A memory, the keeper of the image on it, and its callers.
#[derive(Drop)]
pub struct RunState {
    /// The memory.
    pub(crate) device: Device,
    /// Caller 0.
    pub(crate) keeper: Keeper,
    /// The callers from 1 on.
    pub(crate) callers: Vec<Caller>,
    /// Their entries.
    pub(crate) lists: Lists,
}
