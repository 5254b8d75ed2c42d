//! The text of a script: bytes in, lines out, or the first fault with its line.
//!
//! `parse` takes the bytes of a whole script and gives its lines in their order; its contract is the grammar, read
//! off the bytes. The modules below it each read one thing: a word, a number, the form of a call or of a run, a line,
//! and where a line ends. `phase` says what may follow what.
//! The grammar in plain words stands in the README.
#![tactic(auto)]

mod call_form;
mod callers;
pub mod fault;
pub mod laws;
pub mod line;
mod line_end;
mod number;
pub mod parsing;
pub mod phase;
mod reading;
mod run_form;
pub mod script;
mod word;

pub use fault::ScriptFault;
pub use line::{Counted, Line, Mode};
pub use map_model::MOST_CALLERS;
pub use number::number_of;
pub use parsing::{MOST_BYTES, MOST_LINES, parse};
pub use phase::Phase;
pub use script::Script;
