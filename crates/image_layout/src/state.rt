//! The state word of an image: its version, and whether it is marked clean.

ghost use Rattle.std.specs.Prelude.{◌≡◌, ◌↔◌, IsTrue};
ghost use Rattle.image_layout.specs.StateWord.{with_marker, IsMarked};

use hash_word::VERSION_BITS;
pub use hash_word::version_of;

/// The version that no image has.
pub const NO_VERSION: u8 = 0;

/// The version of a new image, and of one whose headers lost theirs.
pub const FIRST_VERSION: u8 = 1;

/// The clean marker, bit 8 of the state word: the one above the version.
pub const MARKER: u64 = 1 << VERSION_BITS;

/// The last version that an image may have; the first is [`FIRST_VERSION`].
pub const LAST_VERSION: u8 = (MARKER - 1) as u8;

/// Whether the image is marked clean.
pub fn is_marked(state: u64) -> bool
    ensures { IsTrue result ↔ IsMarked state }
{
    state / MARKER % 2 == 1
}

/// The state word with the marker set.
pub fn with_marker(state: u64) -> u64
    ensures { result ≡ with_marker state }
{
    if is_marked(state) {
        state
    } else {
        state + MARKER
    }
}
