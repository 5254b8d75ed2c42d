//! A persistent memory that a program can run on: a modelled device over the words of an image.
//!
//! Callers load, store, exchange, draw, flush and fence. The device keeps of each word its newest and its settled value,
//! and [`Device::cut`] leaves the medium that a choice names. `specs/TraceOf.antt` says what the device is to the list
//! of what callers did, and each call keeps that.
#![tactic(auto)]

mod device;
mod flushes;
mod laws;
mod picks;

pub use device::Device;
pub use laws::chosen_is_possible;
pub use picks::{ALL_NEWEST, FIRST_STREAM, next_number};
