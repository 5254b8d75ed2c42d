//! Files of rows: a row is a whole run of the table as text, with what must come out of it.
//! [`file_of`] reads the rows of a text, each a name and its [`Line`]s. [`change`] does to a store what a line says of it, and a [`Step`]
//! takes the lines that say what is run and what must come out. [`number_of`] reads a number, and [`first_word`] parts a text at its first
//! space, here and in the texts of tests.
#![tactic(auto)]

mod line;
mod number;
mod reading;
mod step;
mod store;
mod text;

pub use line::{Counts, Line, Lines, Others, Part, Word, first_word};
pub use number::number_of;
pub use reading::{File, Row, file_of};
pub use step::Step;
pub use store::{ROOM, WORD_BYTES, change, word_at};
