//! The metadata of buckets, as the file format's own examples have it, and what is chosen by it: each edge, full, empty and mixed.
use crate::rows::{TellsOfNumbers, shown, walk_numbers};
use balance::choose;
use bucket_meta::Meta;
use bucket_meta::words::{META_WORDS, must_visit};
use displace::{backward, forward};
use finger_scan::{scan, scan_plain};
use std::alloc::Global;
use std::test::Fail;

/// A bucket whose metadata word is this one.
fn with_mark(mark: u64) -> Meta {
    Meta::read([mark, 0, 0])
}

/// The metadata of these words, whether it is written as it was read, how many slots have a record, and which is the first that has none.
fn meta_told(alloc: Global, words: [u64; META_WORDS]) -> Result<String, Fail> {
    let meta = Meta::read(words);
    let (same, filled, free) = (meta.write() == words, meta.filled(), meta.free_slot());
    shown(alloc, &(meta, same, filled, free))
}

/// The slots with this fingerprint, by both scans.
fn scans_told(alloc: Global, finger: u8, numbers: &[u64]) -> Result<String, Fail> {
    let mut fingers = [0; 14];
    for (place, number) in fingers.iter_mut().zip(numbers) {
        *place = u8::try_from(*number)?;
    }
    shown(alloc, &[scan(fingers, finger), scan_plain(fingers, finger)])
}

/// Buckets, by words of their metadata.
#[derive(Drop)]
struct Buckets;

impl TellsOfNumbers for Buckets {
    fn told(&mut self, alloc: Global, name: &str, numbers: &[u64]) -> Result<String, Fail> {
        match (name, numbers) {
            ("read", [w1, w2, w3]) => meta_told(alloc, [*w1, *w2, *w3]),
            ("visits", [h1, h3, p1, p3, finger, index]) => {
                let (finger, index) = (u8::try_from(*finger)?, u8::try_from(*index)?);
                shown(alloc, &must_visit(*h1, *h3, *p1, *p3, finger, index))
            }
            ("choose", [home, probing]) => {
                shown(alloc, &choose(&with_mark(*home), &with_mark(*probing)))
            }
            ("forward", [probing, next]) => {
                shown(alloc, &forward(&with_mark(*probing), &with_mark(*next)))
            }
            ("backward", [home, previous]) => {
                shown(alloc, &backward(&with_mark(*home), &with_mark(*previous)))
            }
            ("scan", [finger, fingers @ ..]) => {
                scans_told(alloc, u8::try_from(*finger)?, fingers)
            }
            _ => Err(Fail::new(name)),
        }
    }
}

#[test]
fn buckets_by_their_metadata(rt: HostRuntime) -> Result<(), Fail> {
    walk_numbers(rt.alloc(), &mut Buckets, ROWS)
}

const ROWS: &str = "\
# Words 1 to 3 of a full bucket, of one that is full of members, and of one with a number of its own in each field.
read 0x03E3D400F0003FFF 0x0E0C0A0806040200 0x1D1C1A1816141210 -> (Meta { alloc: 16383, member: 0, used: 15, omember: 0, oindex: 0, ocount: 20, fps: [0, 2, 4, 6, 8, 10, 12, 14, 16, 18, 20, 22, 24, 26], ofps: [28, 29, 30, 31] }, true, 14, None)
read 0x0464400FFFFFFFFF 0 0 -> (Meta { alloc: 16383, member: 16383, used: 15, omember: 15, oindex: 0, ocount: 0, fps: [0, 0, 0, 0, 0, 0, 0, 0, 0, 0, 0, 0, 0, 0], ofps: [0, 0, 34, 35] }, true, 14, None)
read 0x1A9869145284AA5B 0x8877665544332211 0xB2A1EEDDCCBBAA99 -> (Meta { alloc: 10843, member: 2578, used: 5, omember: 4, oindex: 1, ocount: 9, fps: [17, 34, 51, 68, 85, 102, 119, 136, 153, 170, 187, 204, 221, 238], ofps: [161, 178, 195, 212] }, true, 8, Some(2))
# Words 1 and 3 of a home bucket and of its probing bucket, a fingerprint and a stash bucket. A note of the home's own has fingerprint 0xA1 and is of
# stash bucket 1, and one of the home before has 0xC3 and is of stash bucket 0.
visits 0x18601450000000 0xA1000000000000 0 0 0xA1 1 -> true
visits 0x18601450000000 0xA1000000000000 0 0 0xA1 0 -> false
visits 0x18601450000000 0xA1000000000000 0 0 0xC3 0 -> false
visits 0 0 0x18601450000000 0xA1000000000000 0xC3 0 -> true
visits 0 0 0x18601450000000 0xA1000000000000 0xC3 1 -> false
visits 0 0 0x18601450000000 0xA1000000000000 0xA1 1 -> false
# The home has a record without a note; and its probing bucket has one, as a home.
visits 0x18611450000000 0xA1000000000000 0 0 0xEE 0 -> true
visits 0x18611450000000 0xA1000000000000 0 0 0xEE 1 -> true
visits 0 0 0x18611450000000 0xA1000000000000 0xEE 0 -> false
# The bucket with fewer records, by the home bucket's metadata word and the probing bucket's.
choose 0x0000 0x0000 -> Home
choose 0x3FFF 0x3FFF -> Neither
choose 0x1FFF 0x3FFF -> Home
choose 0x3FFF 0x1FFF -> Probe
choose 0x3FFF 0x0000 -> Probe
choose 0x0000 0x3FFF -> Home
choose 0x2000 0x0001 -> Home
choose 0x2001 0x2000 -> Probe
choose 0x2000 0x2001 -> Home
choose 0x0001 0x0000 -> Probe
choose 0x1FFF 0x3FFE -> Home
# The record of the probing bucket that moves on to the next one: its own alone do. Allocation bits begin at bit 0, membership bits at bit 14.
forward 0x0000000 0x0000 -> None
forward 0xFFFFFFF 0x0000 -> None
forward 0x0003FFF 0x0000 -> Some(0)
forward 0x0003FFF 0x3FFF -> None
forward 0xFFFFFFF 0x3FFF -> None
forward 0x7FFFFFF 0x1FFF -> Some(13)
forward 0x8003FFF 0x3FFE -> Some(0)
forward 0x001FFFF 0x0000 -> Some(3)
forward 0xFFE3FFF 0x0000 -> Some(0)
forward 0x0002000 0x0000 -> Some(13)
forward 0x8002000 0x0000 -> None
forward 0x284AA5A 0x3FFE -> Some(3)
forward 0x003C010 0x0000 -> Some(4)
forward 0xFFFC000 0x0000 -> None
# The record of the home bucket that moves back to the one before: members alone do.
backward 0x0000000 0x0000 -> None
backward 0xFFFFFFF 0x0000 -> Some(0)
backward 0x0003FFF 0x0000 -> None
backward 0x0003FFF 0x3FFF -> None
backward 0xFFFFFFF 0x3FFF -> None
backward 0x7FFFFFF 0x1FFF -> Some(0)
backward 0x8003FFF 0x3FFE -> Some(13)
backward 0x001FFFF 0x0000 -> Some(0)
backward 0xFFE3FFF 0x0000 -> Some(3)
backward 0x0002000 0x0000 -> None
backward 0x8002000 0x0000 -> Some(13)
backward 0x284AA5A 0x3FFE -> Some(1)
backward 0x003C010 0x0000 -> None
backward 0xFFFC000 0x0000 -> None
# A fingerprint, those of the slots, and the set of slots that have it. Zero is what the two lanes past the slots hold.
scan 0 0 0 0 0 0 0 0 0 0 0 0 0 0 0 -> [16383, 16383]
scan 0 1 2 3 4 5 6 7 8 9 10 11 12 13 14 -> [0, 0]
scan 255 255 255 255 255 255 255 255 255 255 255 255 255 255 255 -> [16383, 16383]
scan 7 0 0 0 0 0 0 0 0 0 0 0 0 0 7 -> [8192, 8192]
scan 7 7 0 0 0 0 0 0 0 0 0 0 0 0 0 -> [1, 1]
scan 0 7 0 0 0 0 0 0 0 0 0 0 0 0 0 -> [16382, 16382]
scan 2 1 2 1 2 1 2 1 2 1 2 1 2 1 2 -> [10922, 10922]
scan 128 128 129 127 0 128 1 255 128 0 0 64 8 128 128 -> [12433, 12433]
scan 13 0 1 2 3 4 5 6 7 8 9 10 11 12 13 -> [8192, 8192]
scan 14 0 1 2 3 4 5 6 7 8 9 10 11 12 13 -> [0, 0]
scan 15 16 16 16 16 16 16 16 16 16 16 16 16 16 16 -> [0, 0]
";
