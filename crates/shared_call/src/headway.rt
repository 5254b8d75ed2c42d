//! How far a call has come.

ghost use Rattle.std.specs.Prelude.{◌≡◌};
ghost use Rattle.shared_call.specs.Headway.{no_headway, headway_with};

use op_core::Ans;

/// How far a call has come: whether it has begun, and which place it has drawn. Where the power is cut in its midst, a call that has a place is
/// done, whatever the cut leaves; of one that has none no change is in the history, and what is left may have the change that it planned, or not.
#[derive(Clone, Copy, Debug, PartialEq, Eq)]
pub struct Headway {
    /// Whether an event was taken.
    pub begun: bool,
    /// The place that was drawn, if one was: then the call is done, with the reply [`Reply::Done`](map_model::Reply::Done).
    pub drew: Option<u64>,
}

impl Headway {
    /// Of a call of which no event was taken.
    pub fn none() -> Headway
        ensures { result ≡ no_headway }
    {
        Headway {
            begun: false,
            drew: None,
        }
    }

    /// Comes on by an event that has this answer.
    pub(crate) fn add(&mut self, ans: Ans)
        ensures { self.new ≡ headway_with self.old ans }
    {
        self.begun = true;
        if let Ans::Drawn(place) = ans {
            self.drew = Some(place);
        }
    }
}
