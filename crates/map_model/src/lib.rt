//! The plain map that the table must look like, and when the calls of many callers are one history of it.
//!
//! A call and its reply make an entry, which names a place in the one order of all changes. `specs/` says
//! what the map answers, how the entries of all callers are woven by their places, and when that is legal.
#![tactic(auto)]

mod by_place;
pub mod call;
pub mod change;
pub mod entry;
pub mod laws;
pub mod legality;
pub mod lists;
pub mod no_memory;
mod plain_map;

pub use call::Call;
pub use change::{Change, Effect};
pub use entry::{Entry, Reply, SPENT_COUNT, Stop};
pub use laws::{
    drawn_keeps_legal, later_entries_keep, legal_by_places, loaded_keeps_legal, weave_leaves_draws,
};
pub use legality::weave_check;
pub use lists::{FIRST_CALLER, KEEPER_NUMBER, Lists, MOST_CALLERS};
pub use no_memory::NoMemory;
