//! A run is a session, and so are runs one after another. The functions do nothing: each stands for the law that its contract
//! says.

ghost use Rattle.core_run.specs.Chains.{SessionsCompose, MapsCarryOn};
ghost use Rattle.core_run.specs.Sessions.{RunsAreSessions};

use crate::{runs, states};

/// A run of up to 64 callers over a sound image is a session, whatever its lines are: what the callers were told follows their
/// calls and is one legal history of a plain map; the image that is left is sound and has that history's map, each open call whole
/// or absent, and is closed where the script has no cut; and each refusal had its cause.
pub fn runs_are_sessions()
    ensures { RunsAreSessions }
{
    states::moments_are_good();
    states::closed_is_closed();
    states::tolds_follow();
    runs::runs_are_well();
}

/// Sessions compose: of any scripts of up to 64 callers, run one after another, each on the image that the one before has left, by a close or by
/// a power cut, each run is a session, from the first sound image on, and every image in between and at the end is sound and of the
/// same shape. And one map goes through all sessions: each begins with the map of the history of the one before, with each call that a
/// cut left open whole or absent.
pub fn sessions_compose()
    ensures each { SessionsCompose }
    ensures maps { MapsCarryOn }
{
    runs_are_sessions();
}
