//! Calls of many callers served by threads on one image, from power-on to a clean close.
//!
//! [`serve`] powers an image on, gives each caller of a script a pass, has its calls made on a thread, and closes the image when all have their
//! replies. What is left is a session of the script's calls (`specs/Served.antt`).
#![tactic(auto)]

mod job;
mod making;
mod serving;
mod sessions;

pub use play::{play, sessions_compose};
pub use serving::serve;
pub use sessions::{served_cut_is_session, served_is_session};
