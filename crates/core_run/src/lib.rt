//! A run of a script over the core: what each line of a schedule does, the end rule, the close and the cut.
//!
//! Definitions and laws. `specs/State.antt` has the state of a run and one event of it, `specs/Run.antt` the lines. A driver
//! that runs on a memory answers to these definitions. `specs/Running.antt` says what holds of a state between any two events,
//! and `specs/States.antt` what follows of it, at every moment of a run by `specs/Moments.antt`; `specs/Ends.antt` that a run
//! ends, by the end rule of `specs/Rounds.antt`, `specs/Sessions.antt` that it is a session, and `specs/Chains.antt` that runs
//! one after another are.
#![tactic(auto)]

pub mod deed;
mod end_rule;
pub mod goal;
pub mod keeper;
pub mod moments;
mod runs;
pub mod sessions;
pub mod states;
mod worked_run;

pub use deed::Deed;
pub use end_rule::calls_run_out;
pub use engine::{End, Engine, events_of_call};
pub use goal::Goal;
pub use keeper::Keeper;
pub use moments::every_moment_is_good;
pub use runs::{
    drives_are_enough, drives_stay, lines_are_well, restarts_end, runs_are_well, runs_stay_well,
    turns_lead_here,
};
pub use sessions::{runs_are_sessions, sessions_compose};
pub use states::{
    close_may_begin, closed_is_closed, deeds_are_well, moments_are_good, run_begins, tolds_follow,
};
pub use worked_run::lines_stop;
