//! The tests of threads that share an image.
//!
//! Each has an outcome that is the same whatever the schedule. All that they name is public in the crates below.
#![tactic(auto)]

#[cfg(test)]
mod cuts;
#[cfg(test)]
mod cutting;
#[cfg(test)]
mod home;
#[cfg(test)]
mod sharing;
