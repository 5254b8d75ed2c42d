//! An image in memory that many threads share, from power-on to its close or its power cut.
//!
//! [`power_on`] runs the restart over the words of a medium and opens them; a [`SharedImage`] has what threads may do then,
//! each with a pass of its own that is cut off the [`Keeper`]; [`close`] takes the passes in, runs the close over the words, and gives a clean image back;
//! [`cut`] takes them in wherever their callers stood, and gives the words as a power cut may leave them.
#![tactic(auto)]

mod caller;
mod calls;
mod closing;
mod cutting;
mod image;
mod memory;
mod power;
mod taking;
mod waiting;

pub use caller::Caller;
pub use closing::close;
pub use cutting::cut;
pub use image::{Keeper, Pass, SharedImage};
pub use power::power_on;
pub use shared_call::{Answer, Headway};
