//! The engine of a caller: the machines of its call, one after another, one event at a time.
//!
//! [`Engine`] is one attempt of a call. `specs/Engine.antt` says what it wants and what an answer makes of it, and `specs/Fits.antt`
//! how it stands in the world of many callers. `specs/Core.antt` has callers that run their calls on one memory, an event at a turn,
//! `specs/Holding.antt` what holds of them between any two turns, and `specs/Causes.antt` by what their attempts end. The ends of its machines,
//! of which [`End`] is made, are passed on.
#![tactic(auto)]

mod causes;
mod driven;
mod engine;
mod laws;
mod left;
mod short;
mod single;
mod turns;

pub use causes::ends_have_causes;
pub use driven::{driven_calls_end, ends_leave_nothing, turns_go_on};
pub use enclose_op::{EncloseEnd, NotEnclosed};
pub use engine::{End, Engine, Op};
pub use laws::{
    asks_within, attempts_end, calls_are_parts, fits_the_world, flushes_are_few,
    refusals_leave_pairs, stores_are_words, stores_keep_notes,
};
pub use left::events_of_call;
pub use move_op::MoveEnd;
pub use read_op::ReadEnd;
pub use redirect_op::RedirectEnd;
pub use release_op::ReleaseEnd;
pub use repair_op::{RepairEnd, RepairOp};
pub use rest_op::RestEnd;
pub use short::{repairs_are_short, splits_are_short};
pub use single::{calls_end_alone, never_again_alone};
pub use split_op::SplitEnd;
pub use stash_op::StashEnd;
pub use turns::{
    close_is_session, core_begins, cut_is_session, holding_is_good, opened_holds,
    repairs_leave_order, through_is_quiet, turn_keeps, turns_alone, turns_keep,
};
pub use write_op::WriteEnd;
