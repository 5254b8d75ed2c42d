//! What is reckoned at the beginning: which records stay, and the notes of the stash.

ghost use Rattle.std.specs.Prelude.{◌≡◌};
ghost use Rattle.rest_op.specs.Reckoned.{rest_of};

use crate::op::{RestOp, begun};
use enclose_op::Enclosed;
use whole_segment::rebuilt_notes;

impl RestOp {
    /// Goes on from an enclosed segment whose side is named by the directory.
    pub fn new(whole: Enclosed) -> RestOp
        ensures { result ≡ rest_of whole }
    {
        let geometry = &whole.site.geometry;
        let loaded = whole.loaded();
        let rest = loaded.without_half(
            geometry,
            whole.capped_side_depth(),
            whole.one_pattern_field(),
        );
        let notes = rebuilt_notes(&rest, geometry);
        begun(whole, rest.first, notes)
    }
}
