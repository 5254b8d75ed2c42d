//! The tests of the leaves, of files and of texts, each of which needs public items alone.
//!
//! The gate proves a crate with tests twice, so the tests stand here, above all that they test, and not in the crates
//! themselves. Those of the machines stand in `machine_tests`, and runs of the whole program are rows of `rows`.
#![tactic(auto)]

#[cfg(test)]
mod buckets;
#[cfg(test)]
mod devices;
#[cfg(test)]
mod histories;
#[cfg(test)]
mod images;
#[cfg(test)]
mod notes;
#[cfg(test)]
mod outsides;
#[cfg(test)]
mod rows;
#[cfg(test)]
mod scripts;
#[cfg(test)]
mod words;
