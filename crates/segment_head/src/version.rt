//! The version byte of a header word, taken out.

ghost use Rattle.std.specs.Prelude.{◌≡◌};
ghost use Rattle.segment_head.specs.Versions.{unversioned};

use hash_word::VERSION_BITS;

/// How many versions the version byte may say.
const VERSIONS: u64 = 1 << VERSION_BITS;

/// The header word with 0 as its version byte, which is the version of no image. All its other bits stay.
pub fn unversioned(h1: u64) -> u64
    ensures { result ≡ unversioned h1 }
{
    h1 / VERSIONS * VERSIONS
}
