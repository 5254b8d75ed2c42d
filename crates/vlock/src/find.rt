//! The segment of a hash is found by three loads: of the root depth, of a directory entry and of a header.

ghost use Rattle.std.specs.Prelude.{◌≡◌, ℕ, ◌+◌, ◌<◌, ◌≤◌, None};
ghost use Rattle.hash_word.specs.Hash.{index_of};
ghost use Rattle.segment_head.specs.HeadWord.{HasLiveState};
ghost use Rattle.image_layout.specs.Places.{root_word, entries_of, entry_at, header_word};
ghost use Rattle.world.specs.Facts.{Lives, Rooted};
ghost use Rattle.world.specs.Ground.{version_of};
ghost use Rattle.world.specs.Views.{Has};
ghost use Rattle.world.specs.Kinds.{meets_root, meets_entry, meets_head};
ghost use Rattle.world.specs.StepKinds.{of_call};
ghost use Rattle.vlock.specs.Ruling.{ground_of};
ghost use Rattle.vlock.specs.Plays.{IsSeatOf};
ghost use Rattle.vlock.specs.Buckets.{MayCall, Loads};
ghost use Rattle.vlock.specs.Finding.{IsBesideWay, Finds};

use crate::bucket::load;
use crate::table::{Image, ImageSeat};
use hash_word::dir_index;
use image_layout::{Geometry, ROOT_WORD};
use segment_head::word;
use std::marker::Brand;
use way::is_leading;

/// What came of looking for the segment of a hash.
#[derive(Clone, Copy, Debug, PartialEq, Eq)]
pub enum FindReply {
    /// The segment in this slot is live and of the image's version, and its header leads to the hash, which it owned when the
    /// header was loaded.
    Found { segment: u64, header: u64 },
    /// It is live and of the image's version, but its header does not lead to the hash: the segment is being split, or was
    /// split behind the load of the entry.
    Astray { segment: u64, header: u64 },
    /// It is live, and its header has another version than the image: it is to be repaired first.
    Stale { segment: u64, header: u64 },
}

/// A load of the root depth.
fn meet_root(image: &Image, geometry: &Geometry, seat: &mut ImageSeat) -> u64
    requires table { IsSeatOf image.now.table_id image.now.key seat.old }
    requires geometry { geometry.now ≡ image.now.key.geometry }
    requires caller { MayCall seat.old.me.0.view }
    ensures table { IsSeatOf image.now.table_id image.now.key seat.new }
    ensures view { Loads (ground_of image.now.key) root_word (λ n. of_call meets_root) seat.old.me.0 result seat.new.me.0 }
    ensures low { result ≤ image.now.key.geometry.depth }
{
    let root = ROOT_WORD;
    load::<Brand, u64>(image, geometry, seat, root, &root)
}

/// A load of an entry of the directory of a depth that the seat relies on.
fn meet_entry(
    image: &Image,
    geometry: &Geometry,
    seat: &mut ImageSeat,
    depth: u64,
    index: u64,
) -> u64
    requires table { IsSeatOf image.now.table_id image.now.key seat.old }
    requires geometry { geometry.now ≡ image.now.key.geometry }
    requires caller { MayCall seat.old.me.0.view }
    requires place { (depth ≤ image.now.key.geometry.depth) × (index < entries_of depth) }
    requires known { Has (Rooted depth) seat.old.me.0.view.facts }
    ensures table { IsSeatOf image.now.table_id image.now.key seat.new }
    ensures view { Loads (ground_of image.now.key) (entry_at depth index) (λ n. of_call (meets_entry depth index)) seat.old.me.0 result seat.new.me.0 }
    ensures within { result < image.now.key.geometry.segments }
{
    let entry = geometry.entry_at(depth, index);
    load::<Brand, (u64, u64)>(image, geometry, seat, entry, &(depth, index))
}

/// A load of the header of a segment that the seat knows to be live.
fn meet_head(
    image: &Image,
    geometry: &Geometry,
    seat: &mut ImageSeat,
    segment: u64,
    version: u8,
) -> u64
    requires table { IsSeatOf image.now.table_id image.now.key seat.old }
    requires geometry { geometry.now ≡ image.now.key.geometry }
    requires caller { MayCall seat.old.me.0.view }
    requires place { segment < image.now.key.geometry.segments }
    requires version { version ≡ version_of (ground_of image.now.key) }
    requires known { Has (Lives segment) seat.old.me.0.view.facts }
    ensures table { IsSeatOf image.now.table_id image.now.key seat.new }
    ensures view { Loads (ground_of image.now.key) (header_word image.now.key.geometry segment) (λ n. of_call (meets_head segment version)) seat.old.me.0 result seat.new.me.0 }
    ensures live { HasLiveState result }
{
    let head = geometry.header_word(segment);
    load::<Brand, (u64, u8)>(image, geometry, seat, head, &(segment, version))
}

/// Finds the segment of a hash: it loads the root depth, the entry of the hash in the directory of that depth, and the header of the
/// segment that the entry names. `version` is the image's.
///
/// Its seat needs to know nothing before. Behind `Found` and `Astray` it knows that the segment is live and of the image's version,
/// as reading a bucket of it asks, and trying a lock there.
pub fn find_segment(
    image: &Image,
    geometry: &Geometry,
    seat: &mut ImageSeat,
    version: u8,
    hash: u64,
) -> FindReply
    requires table { IsSeatOf image.now.table_id image.now.key seat.old }
    requires geometry { geometry.now ≡ image.now.key.geometry }
    requires caller { MayCall seat.old.me.0.view }
    requires version { version ≡ version_of (ground_of image.now.key) }
    ensures table { IsSeatOf image.now.table_id image.now.key seat.new }
    ensures past { seat.new.me.0.past ≡ seat.old.me.0.past }
    ensures view { IsBesideWay seat.old.me.0.view seat.new.me.0.view }
    ensures caller { MayCall seat.new.me.0.view × (seat.old.me.0.view.answer ≡ None → seat.new.me.0.view.answer ≡ None) }
    ensures finds { Finds (ground_of image.now.key) hash seat.old.me.0 result seat.new.me.0 }
{
    let depth = meet_root(image, geometry, seat);
    let index = dir_index(hash, depth as u8);
    let segment = meet_entry(image, geometry, seat, depth, index);
    let header = meet_head(image, geometry, seat, segment, version);
    if word::version_of(header) != version {
        FindReply::Stale { segment, header }
    } else if is_leading(header, hash) {
        FindReply::Found { segment, header }
    } else {
        FindReply::Astray { segment, header }
    }
}
