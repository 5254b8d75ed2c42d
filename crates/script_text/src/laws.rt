//! Laws of the order of lines. The functions do nothing: each stands for the law that its contract says.

ghost use Rattle.std.specs.Prelude.{◌≡◌, ℕ, [], List, All};
ghost use Rattle.script_text.specs.declared.line.Line.{Line};
ghost use Rattle.script_text.specs.declared.line.Mode.{Mode};
ghost use Rattle.script_text.specs.declared.phase.Phase.TheVariants.{Running, Closing, CutOff};
ghost use Rattle.script_text.specs.Calls.{calls_of};
ghost use Rattle.script_text.specs.Order.{IsOrdered, IsBehindClose};

/// Nothing stands behind a cut.
pub fn cut_is_last()
    ensures { (mode : Mode) (lines : List Line) → IsOrdered mode CutOff lines → lines ≡ [] }
{}

/// Behind a line that is no call, no caller is given a call.
pub fn calls_stand_first()
    ensures running { (mode : Mode) (lines : List Line) (caller : ℕ) → IsOrdered mode Running lines → calls_of caller lines ≡ [] }
    ensures closing { (mode : Mode) (lines : List Line) (caller : ℕ) → IsOrdered mode Closing lines → calls_of caller lines ≡ [] }
{}

/// Behind a close stand only runs of caller 0 and a cut.
pub fn close_ends_the_callers()
    ensures { (mode : Mode) (lines : List Line) → IsOrdered mode Closing lines → All IsBehindClose lines }
{}
