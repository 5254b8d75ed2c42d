//! Finds the record slots of a bucket whose fingerprint is a given byte.
//! A lookup compares keys at these slots alone. All 14 fingerprints are compared at once, as lanes of
//! a vector, and the answer is that of the plain loop.
#![tactic(auto)]

mod laws;
mod scans;

pub use laws::{scan_is_determined, scans_agree};
pub use scans::{scan, scan_plain};
