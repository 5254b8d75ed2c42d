// Who may stand in a line.
ghost use Rattle.std.specs.Prelude.{◌≡◌};
ghost use Rattle.script_text.specs.Readings.{is_caller, may_have_runs};

use map_model::{FIRST_CALLER, MOST_CALLERS};

// Whether this caller may have calls.
pub(crate) fn may_have_calls(caller: u64) -> bool
    ensures { result ≡ is_caller caller }
{
    caller >= FIRST_CALLER && caller <= MOST_CALLERS
}

// Whether this caller may run in a schedule: also 0, who starts and closes the image.
pub(crate) fn may_have_runs(caller: u64) -> bool
    ensures { result ≡ may_have_runs caller }
{
    caller <= MOST_CALLERS
}
