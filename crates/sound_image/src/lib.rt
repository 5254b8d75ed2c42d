//! What a sound image is, which pairs it holds, and what a power cut may leave of them.
//!
//! Definitions and a law, for every crate that speaks of images. `specs/` reads from `Segments` (who owns a hash)
//! over `Directory` and `Records` to `Rules` (when an image is sound), `Image` (its file) and `Left`. `Agreement` says
//! when two images differ in locks and overflow parts alone.
#![tactic(auto)]

mod laws;

pub use laws::locks_and_overflow_apart;
