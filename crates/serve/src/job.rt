//! A caller's calls, as one thread makes them.

use map_model::{Call, Entry};
use shared_image::Pass;

/// The calls of one caller, and the entries that it has of them.
#[derive(Drop)]
pub struct Job {
    /// Its pass, but while its calls are made.
    pub(crate) pass: Option<Pass>,
    /// By this number others see that it has a guard.
    pub(crate) number: u8,
    /// Its calls, in their order.
    pub(crate) calls: Vec<Call>,
    /// Their entries.
    pub(crate) told: Vec<Entry>,
    /// Whether each call has its reply.
    pub(crate) all: bool,
}
