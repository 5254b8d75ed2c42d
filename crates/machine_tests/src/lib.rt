//! The tests of the machines, of the engine that runs them, and of what they share.
//!
//! Each module runs one of them on words that stand in the test: it compares the events that are wanted, one after another or by their
//! number, the words that are left, and how it ends; [`memory`] has what they step on, and [`rows`] the loops that walk cases which stand in a
//! text. All that they name is public in the crates below, and nothing else stands here.
#![tactic(auto)]

#[cfg(test)]
mod changes;
#[cfg(test)]
mod closes;
#[cfg(test)]
mod directories;
#[cfg(test)]
mod enclosings;
#[cfg(test)]
mod engines;
#[cfg(test)]
mod memory;
#[cfg(test)]
mod mends;
#[cfg(test)]
mod moves;
#[cfg(test)]
mod reads;
#[cfg(test)]
mod redirects;
#[cfg(test)]
mod releases;
#[cfg(test)]
mod repairs;
#[cfg(test)]
mod restarts;
#[cfg(test)]
mod rests;
#[cfg(test)]
mod rows;
#[cfg(test)]
mod splits;
#[cfg(test)]
mod stashes;
#[cfg(test)]
mod store_rounds;
#[cfg(test)]
mod texts;
#[cfg(test)]
mod whole_segments;
