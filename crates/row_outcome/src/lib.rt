//! What a run of a row left, beside what must come out of it. An [`Outcome`] is judged by its row's step: [`Outcome::difference`] says what
//! differs, and nothing only where status and lines are those of the step.
#![tactic(auto)]

mod comparison;
mod outcome;

pub use outcome::Outcome;
