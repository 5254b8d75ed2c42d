//! The way again: the same three words, each of which has to be as it was, and the header has to lead to the hash.

ghost use Rattle.std.specs.Prelude.{◌≡◌, ℕ};
ghost use Rattle.op_core.specs.declared.want.Want.TheVariants as want;
ghost use Rattle.phase.specs.Backs.{back_word, back_taken};

use crate::walk::Path;
use image_layout::ROOT_WORD;
use op_core::Want;
use way::{entry_word, head_word, is_leading};
use world::Site;

/// Which word of the way is looked at again.
#[derive(Clone, Copy)]
pub enum Back {
    /// The root depth.
    Root,
    /// The directory entry.
    Entry,
    /// The header of the segment.
    Head,
}

/// What a loaded word makes of it.
#[derive(Clone, Copy)]
pub enum Backed {
    /// The next word is looked at.
    On(Back),
    /// All three are as they were, and the header leads to the hash.
    Same,
    /// One has changed; or the header is as it was and does not lead to the hash, and both values are the same.
    Moved {
        /// The number of the word.
        word: u64,
        /// The value that was seen first.
        before: u64,
        /// The value that was seen then.
        after: u64,
    },
}

/// The word that is looked at.
fn word(site: &Site, hash: u64, path: &Path, back: &Back) -> u64
    ensures { result ≡ back_word site.now hash path.now back.now }
{
    match back {
        Back::Root => ROOT_WORD,
        Back::Entry => entry_word(&site.geometry, hash, path.root),
        Back::Head => head_word(&site.geometry, path.segment),
    }
}

/// The event that it wants.
pub fn back_want(site: &Site, hash: u64, path: &Path, back: &Back) -> Want
    ensures { result ≡ want.Load (back_word site.now hash path.now back.now) }
{
    Want::Load(word(site, hash, path, back))
}

/// What a loaded word makes of it.
pub fn back_next(site: &Site, hash: u64, path: &Path, back: &Back, seen: u64) -> Backed
    ensures { result ≡ back_taken site.now hash path.now back.now seen }
{
    let (before, leads, next) = match back {
        Back::Root => (path.root, true, Backed::On(Back::Entry)),
        Back::Entry => (path.segment, true, Backed::On(Back::Head)),
        Back::Head => (path.head, is_leading(path.head, hash), Backed::Same),
    };
    if seen == before && leads {
        next
    } else {
        Backed::Moved {
            word: word(site, hash, path, back),
            before,
            after: seen,
        }
    }
}
