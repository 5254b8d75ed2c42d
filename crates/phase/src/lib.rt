//! Phases that machines share: the way from a hash to its segment, that way again, the load of a bucket, a lock taken, locks given
//! back, and the stores of a record.
//!
//! A phase has the states in which it wants something, and a second type for what an answer makes of them: another state, or
//! one of its ends. A machine has a variant for the states, and one function from what was made of them to its own steps.
#![tactic(auto)]

pub mod back;
pub mod ending;
pub mod held;
pub mod kept;
mod laws;
pub mod load;
pub mod make;
pub mod note;
pub mod role;
pub mod take;
pub mod walk;

pub use back::{Back, Backed, back_next, back_want};
pub use ending::Ending;
pub use held::{Held, give_next, give_want, given};
pub use kept::{Buckets, Kept};
pub use laws::{
    bucket_loads, ends_have_causes, headers_lead, holders_find, holders_know, locks_are_given_back,
    locks_are_taken, records_are_made, ways_go, ways_go_again,
};
pub use load::{Load, Loaded, load_put, load_want};
pub use make::{Made, Make, Record, brought, make_next, make_want};
pub use note::NoteWord;
pub use role::{Role, bucket_of_role, lock_word, stash_index};
pub use take::{Take, Taken, take_next, take_want};
pub use walk::{Path, Walk, Walked, walk_next, walk_want};
