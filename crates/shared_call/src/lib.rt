//! One attempt of a call of the table, by a thread on the shared words of an image.
//!
//! `turns` has one event of an engine as a step of a seat, `attempts` an attempt of a call, event by event, `gated` the same behind a
//! gate, `going` an attempt at whatever work, by so many events, and `tries` what an attempt came to and the next one; `headway` is how
//! far a call has come, and `laws` what they rest on. The engine is passed on, which who makes calls keeps from one try to the next.
#![tactic(auto)]

mod attempts;
mod gated;
mod going;
mod headway;
mod laws;
mod tries;
mod turns;

pub use attempts::attempt;
pub use engine::{Engine, Op, RepairOp};
pub use gated::{Gated, attempt_gated};
pub use going::{Stop, go_on};
pub use headway::Headway;
pub use laws::attempts_begin_and_end;
pub use tries::{Answer, answer_of, try_call, try_on};
pub use turns::turn;
