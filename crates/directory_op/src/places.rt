//! Which words are loaded and stored.

ghost use Rattle.std.specs.Prelude.{◌≡◌, ◌<◌, ◌≤◌};
ghost use Rattle.image_layout.specs.Places.{entries_of, most_depth};
ghost use Rattle.directory_op.specs.Places.{entries_there, entry_word_at, run_of, side_first, side_last, live_head};

use image_layout::{Geometry, MOST_DEPTH, ROOT_WORD, entries_of};
use segment_head::split::with_state;
use segment_head::word::{NORMAL, depth_of, pattern_of};

/// How many entries the area of a depth has; no area is deeper than an image allows.
pub fn entries_there(depth: u64) -> u64
    ensures is { result ≡ entries_there depth }
    ensures most { result ≤ entries_of most_depth }
{
    if depth <= MOST_DEPTH {
        entries_of(depth)
    } else {
        0
    }
}

/// The word of an entry; an area or an entry that the image has not gives the root's word.
pub fn entry_word_at(geometry: &Geometry, depth: u64, index: u64) -> u64
    ensures { result ≡ entry_word_at geometry.now depth index }
{
    if depth <= geometry.depth() && index < entries_there(depth) {
        geometry.entry_at(depth, index)
    } else {
        ROOT_WORD
    }
}

/// How many entries of a root's depth a segment with this header has.
fn run(root: u64, head: u64) -> u64
    ensures is { result ≡ run_of root head }
    ensures most { result ≤ entries_of most_depth }
{
    entries_there(root.saturating_sub(u64::from(depth_of(head))))
}

/// The first of them.
pub fn side_first(root: u64, head: u64) -> u64
    ensures { result ≡ side_first root head }
{
    u64::from(pattern_of(head)) * run(root, head)
}

/// The last of them.
pub fn side_last(root: u64, head: u64) -> u64
    ensures { result ≡ side_last root head }
{
    let end = (u64::from(pattern_of(head)) + 1) * run(root, head);
    end.min(entries_there(root)).saturating_sub(1)
}

/// The header of a normal segment, which is else as this one.
pub fn live_head(head: u64) -> u64
    ensures { result ≡ live_head head }
{
    with_state(head, NORMAL)
}
