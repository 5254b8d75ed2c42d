//! The way from a hash to its segment.

ghost use Rattle.std.specs.Prelude.{◌≡◌};
ghost use Rattle.phase.specs.Walks.{walk_wanted, walk_taken, head_taken};

use image_layout::{POWER_ON, ROOT_WORD};
use op_core::Want;
use segment_head::word::{is_live, version_of};
use way::{entry_word, head_word};
use world::Site;

/// How the segment of a key was found: three values, as they were seen first.
#[derive(Clone, Copy)]
pub struct Path {
    /// The root depth.
    pub root: u64,
    /// The directory entry: the slot of the segment.
    pub segment: u64,
    /// The header of the segment.
    pub head: u64,
}

/// Which word is to be loaded on the way.
#[derive(Clone, Copy)]
pub enum Walk {
    /// The power word.
    Power,
    /// The root depth.
    Root,
    /// The directory entry.
    Entry {
        /// The root depth.
        root: u64,
    },
    /// The header of the segment.
    Head {
        /// The root depth.
        root: u64,
        /// The slot of the segment.
        segment: u64,
    },
}

/// What a loaded word makes of a way.
#[derive(Clone, Copy)]
pub enum Walked {
    /// It goes on.
    On(Walk),
    /// A segment is found that is live and current; whether its header leads to the hash is asked at the second look.
    There(Path),
    /// The power is off.
    Off,
    /// A value that no table has there.
    Amiss {
        /// The number of the word.
        word: u64,
        /// The value.
        seen: u64,
    },
    /// The segment is live and has another version byte than the image.
    Stale {
        /// Its slot.
        segment: u64,
        /// The byte.
        version: u8,
    },
}

/// What a header makes of the way.
fn after_head(site: &Site, root: u64, segment: u64, head: u64) -> Walked
    ensures { result ≡ head_taken site.now root segment head }
{
    let version = version_of(head);
    if !is_live(head) {
        Walked::Amiss {
            word: head_word(&site.geometry, segment),
            seen: head,
        }
    } else if version == site.version {
        Walked::There(Path {
            root,
            segment,
            head,
        })
    } else {
        Walked::Stale { segment, version }
    }
}

/// The event that a way wants.
pub fn walk_want(site: &Site, hash: u64, walk: &Walk) -> Want
    ensures { result ≡ walk_wanted site.now hash walk.now }
{
    match walk {
        Walk::Power => Want::Power,
        Walk::Root => Want::Load(ROOT_WORD),
        Walk::Entry { root } => Want::Load(entry_word(&site.geometry, hash, *root)),
        Walk::Head { segment, .. } => Want::Load(head_word(&site.geometry, *segment)),
    }
}

/// What a loaded word makes of it.
pub fn walk_next(site: &Site, hash: u64, walk: &Walk, seen: u64) -> Walked
    ensures { result ≡ walk_taken site.now hash walk.now seen }
{
    match walk {
        Walk::Power if seen == POWER_ON => Walked::On(Walk::Root),
        Walk::Power => Walked::Off,
        Walk::Root if seen <= site.geometry.depth() => Walked::On(Walk::Entry { root: seen }),
        Walk::Root => Walked::Amiss {
            word: ROOT_WORD,
            seen,
        },
        Walk::Entry { root } if seen < site.geometry.segments() => Walked::On(Walk::Head {
            root: *root,
            segment: seen,
        }),
        Walk::Entry { root } => Walked::Amiss {
            word: entry_word(&site.geometry, hash, *root),
            seen,
        },
        Walk::Head { root, segment } => after_head(site, *root, *segment, seen),
    }
}
