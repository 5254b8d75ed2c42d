//! Words of the file format and numbers of words, from outside: the first number of the SplitMix64 stream from state 0 is one of the hashes.
use crate::rows::{TellsOfNumbers, hex, said, shown, walk_numbers};
use bucket_meta::words::SECOND_STASH_INDEX;
use hash_word::{covers, dir_index, finger, home, next, previous, probing};
use image_layout::{BUCKETS, Geometry, HOMES};
use segment_head::{Head, version, word};
use std::alloc::Global;
use std::test::Fail;
use way::{bucket_word, entry_word, head_word, is_covering, is_leading, key_hash};

/// Hashes of keys, what their bits say, and the buckets around a home bucket.
#[derive(Drop)]
struct Hashes;

impl TellsOfNumbers for Hashes {
    fn told(&mut self, alloc: Global, name: &str, numbers: &[u64]) -> Result<String, Fail> {
        match (name, numbers) {
            ("hash", [kind, key]) => {
                let geometry = Geometry::new(1, 0, *kind)?;
                hex(alloc, key_hash(&geometry, *key))
            }
            ("bits", [hash]) => shown(alloc, &(finger(*hash), home(*hash), dir_index(*hash, 4))),
            ("index", [hash, depth]) if *depth <= 64 => {
                shown(alloc, &dir_index(*hash, *depth as u8))
            }
            ("covers", [depth, pattern, hash]) if *depth <= 64 => {
                let pattern = u32::try_from(*pattern)?;
                shown(alloc, &covers(*depth as u8, pattern, *hash))
            }
            ("around", [bucket]) if *bucket < HOMES as u64 => {
                let bucket = *bucket as u8;
                shown(alloc, &(previous(bucket), probing(bucket), next(bucket)))
            }
            _ => Err(Fail::new(name)),
        }
    }
}

/// Headers of segments: read, written, put together, and which hashes they cover.
#[derive(Drop)]
struct Heads;

impl TellsOfNumbers for Heads {
    fn told(&mut self, alloc: Global, name: &str, numbers: &[u64]) -> Result<String, Fail> {
        match (name, numbers) {
            ("read", [word]) => match Head::read(*word) {
                Some(head) => shown(alloc, &(head, head.write())),
                None => said(alloc, "none"),
            },
            ("word", [version, state, depth, pattern]) => {
                let (version, state) = (u8::try_from(*version)?, u8::try_from(*state)?);
                let (depth, pattern) = (u8::try_from(*depth)?, u32::try_from(*pattern)?);
                hex(alloc, word::header_of(version, state, depth, pattern))
            }
            ("unversioned", [word]) => hex(alloc, version::unversioned(*word)),
            ("leads", [word, hash]) => {
                shown(
                    alloc,
                    &(is_covering(*word, *hash), is_leading(*word, *hash)),
                )
            }
            _ => Err(Fail::new(name)),
        }
    }
}

/// The words of an image, the words of its last segment's header, last bucket and last stash bucket, and that of the last entry.
fn shape_told(alloc: Global, geometry: &Geometry) -> Result<String, Fail> {
    let last = geometry.segments() - 1;
    let words = [
        geometry.words(),
        geometry.head_at(last),
        geometry.bucket_at(last, HOMES - 1),
        geometry.stash_at(last, SECOND_STASH_INDEX),
        geometry.entry_at(geometry.depth(), (1 << geometry.depth()) - 1),
    ];
    shown(alloc, &(geometry, words))
}

/// The words behind an image.
fn guards_told(alloc: Global, geometry: &Geometry) -> Result<String, Fail> {
    let last = geometry.segments() - 1;
    let words = [
        geometry.counter_word(),
        geometry.power_word(),
        geometry.allocation_guard(),
        geometry.directory_guard(),
        geometry.segment_guard(0),
        geometry.segment_guard(last),
    ];
    shown(alloc, &words)
}

/// How images are laid out, and the words on the way to a bucket.
#[derive(Drop)]
struct Places;

impl TellsOfNumbers for Places {
    fn told(&mut self, alloc: Global, name: &str, numbers: &[u64]) -> Result<String, Fail> {
        let [segments, depth, kind, others @ ..] = numbers else {
            return Err(Fail::new(name));
        };
        let geometry = match Geometry::new(*segments, *depth, *kind) {
            Ok(geometry) => geometry,
            Err(fault) => return shown(alloc, &fault),
        };
        match (name, others) {
            ("shape", []) => shape_told(alloc, &geometry),
            ("guards", []) => guards_told(alloc, &geometry),
            ("entry", [hash, root]) => shown(alloc, &entry_word(&geometry, *hash, *root)),
            ("head", [segment]) => shown(alloc, &head_word(&geometry, *segment)),
            ("bucket", [segment, bucket]) if *bucket < BUCKETS as u64 => {
                shown(alloc, &bucket_word(&geometry, *segment, *bucket as u8))
            }
            _ => Err(Fail::new(name)),
        }
    }
}

#[test]
fn words_of_the_file_format(rt: HostRuntime) -> Result<(), Fail> {
    walk_numbers(rt.alloc(), &mut Hashes, HASHES)?;
    walk_numbers(rt.alloc(), &mut Heads, HEADS)?;
    walk_numbers(rt.alloc(), &mut Places, PLACES)
}

const HASHES: &str = "\
# A kind of hash, and a key.
hash 0 77 -> 4d
hash 1 0 -> 0
hash 1 0x9E3779B97F4A7C15 -> e220a8397b1dcdaf
# The fingerprint of a hash, its home bucket, and its place in a directory of depth 4; and of depth 0.
bits 0xE220A8397B1DCDAF -> (175, 13, 14)
index 0xE220A8397B1DCDAF 0 -> 0
# A depth and a pattern, and a hash.
covers 4 14 0xE220A8397B1DCDAF -> true
covers 4 15 0xE220A8397B1DCDAF -> false
# The buckets before a home bucket, after it, and after that.
around 13 -> (12, 14, 15)
around 62 -> (61, 63, 0)
around 63 -> (62, 0, 1)
around 0 -> (63, 1, 2)
";

const HEADS: &str = "\
# A header word, and what is written of what was read.
read 257 -> (Head { version: 1, state: Normal, depth: 0, pattern: 0 }, 257)
read 513 -> (Head { version: 1, state: Splitting, depth: 0, pattern: 0 }, 513)
read 258 -> (Head { version: 2, state: Normal, depth: 0, pattern: 0 }, 258)
read 4295033601 -> (Head { version: 1, state: Fresh, depth: 1, pattern: 1 }, 4295033601)
read 0 -> (Head { version: 0, state: Free, depth: 0, pattern: 0 }, 0)
read 0x0401 -> none
# A version, a state byte, a depth and a pattern.
word 1 1 0 0 -> 101
word 1 3 1 1 -> 100010301
word 7 4 0 0 -> 407
word 0xAB 2 0x10 0xFEDCBA98 -> fedcba98001002ab
unversioned 511 -> 100
# Whether a header covers a hash, and whether it leads to it: of another pattern, of more bits than a hash has, and of a splitting segment.
leads 0x0000000E00040101 0xE220A8397B1DCDAF -> (true, true)
leads 0x0000000F00040101 0xE220A8397B1DCDAF -> (false, false)
leads 0x0000000E00410101 0xE220A8397B1DCDAF -> (false, false)
leads 0x0000000E00040201 0xE220A8397B1DCDAF -> (true, false)
";

const PLACES: &str = "\
# Slots for segments, the greatest depth and the kind of hash; and how many words there are, and the last ones of each part.
shape 1 0 0 -> (Geometry { segments: 1, depth: 0, kind: 0 }, [2208, 64, 2112, 2176, 32])
shape 256 8 1 -> (Geometry { segments: 256, depth: 8, kind: 1 }, [549408, 547264, 549312, 549376, 542])
shape 16384 16 0 -> (Geometry { segments: 16384, depth: 16, kind: 0 }, [35258400, 35256256, 35258304, 35258368, 131102])
# Out of range, the first fault first.
shape 0 17 2 -> Segments
shape 16385 0 0 -> Segments
shape 1 17 2 -> Depth
shape 1 16 2 -> Kind
guards 256 8 1 -> [549408, 549409, 549410, 549411, 549412, 549667]
# The entry of a hash in a directory of a depth, the header in a slot, and a bucket of a slot; 8 where there is none.
entry 1 0 0 0xE220A8397B1DCDAF 0 -> 32
entry 1 0 0 0xE220A8397B1DCDAF 1 -> 8
entry 16 4 1 0xE220A8397B1DCDAF 4 -> 61
head 1 0 0 0 -> 65
head 1 0 0 1 -> 8
bucket 1 0 0 0 0 -> 96
bucket 1 0 0 0 13 -> 512
bucket 1 0 0 1 13 -> 8
";
