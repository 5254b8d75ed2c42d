//! The outside of the program: a store, a source, a sink and the gates of the callers, as traits with a written
//! meaning. Each may tell what it holds, counts its faults, and answers `Failed` only where that count rose. Beside
//! the traits stand fakes in memory, which tell all, and edges to the real outside, which tell nothing.
#![tactic(auto)]

pub mod file;
pub mod gates;
pub mod memory;
pub mod parts;
pub mod streams;
pub mod whole;

pub use file::{FileStore, Purpose, Trouble};
pub use gates::{Gate, GateState, Gates, Power};
pub use memory::{Fuse, Fuses, MemSink, MemSource, MemStore, SureSource};
pub use parts::{Failed, Sink, Source, Store, StoreFault};
pub use streams::{StdSink, StdSource};
pub use whole::{put_all, take_all};
