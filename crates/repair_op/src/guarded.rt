//! What one machine of a repair hands on to the next: a stale segment whose guard is held.

ghost use Rattle.std.specs.Prelude.{◌≡◌, ◌≤◌};
ghost use Rattle.image_layout.specs.Places.{most_words};
ghost use Rattle.repair_op.specs.Guarded.{guard_of, link_of};

use way::{slot_guard, slot_link};
use world::Site;

/// A segment that has not the image's version, and whose guard is held.
#[derive(Clone, Copy)]
pub struct Guarded {
    /// Where it runs.
    pub site: Site,
    /// The slot of the segment.
    pub segment: u64,
    /// Its header: that of a normal segment, or of a splitting one where it has a ready side.
    pub head: u64,
    /// The slot of its ready side.
    pub side: Option<u64>,
}

impl Guarded {
    /// The word of the segment's guard; that of the root where there is no such slot.
    pub fn guard(&self) -> u64
        ensures { result ≡ guard_of self.now }
    {
        slot_guard(&self.site.geometry, self.segment)
    }

    /// The word of the segment's link; that of the root where there is no such slot.
    pub fn link(&self) -> u64
        ensures { result ≡ link_of self.now }
    {
        slot_link(&self.site.geometry, self.segment)
    }
}
