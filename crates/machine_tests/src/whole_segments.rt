//! The file format's own examples: a stash full of notes, a key that stands twice after a cut, and segments without room.
use crate::memory::Memory;
use crate::rows::{Deeds, numbers};
use bucket_meta::{cleared_mark, copied_mark};
use image_layout::{BUCKETS, Geometry, HOMES, SECOND_STASH};
use op_core::{Ans, Want};
use row_file::first_word;
use std::alloc::Global;
use std::test::Fail;
use whole_segment::{Loaded, rebuilt_notes};

/// A segment that is laid as it is told, and what was answered of it last.
#[derive(Drop)]
pub struct Segments {
    loaded: Loaded,
    answer: [u64; 3],
}

/// Key `n`, or, in halves, each second one is `n / 2` above 2^63 and the others are `n / 2`.
fn key_of(n: u8, halves: bool) -> u64 {
    match (halves, n % 2) {
        (false, _) => u64::from(n),
        (true, 0) => u64::from(n / 2) + (1 << 63),
        (true, _) => u64::from(n / 2),
    }
}

/// Home 0 with 28 records in its two buckets and 28 in the stash: keys are put in turn into bucket 0 and bucket 1, slots ascending, and then into
/// the stash.
fn full_home(halves: bool) -> Loaded {
    let mut loaded = Loaded::blank();
    for slot in 0..14u8 {
        loaded.set_key(0, slot, key_of(2 * slot, halves));
        loaded.set_key(1, slot, key_of(2 * slot + 1, halves));
        loaded.set_key(HOMES, slot, key_of(28 + slot, halves));
        loaded.set_key(SECOND_STASH, slot, key_of(42 + slot, halves));
    }
    loaded.set_first(0, 0x3FFF);
    loaded.set_first(1, 0x0FFF_FFFF);
    loaded.set_first(HOMES, 0x3FFF);
    loaded.set_first(SECOND_STASH, 0x3FFF);
    loaded
}

impl Segments {
    /// An empty one.
    pub fn blank() -> Segments {
        Segments {
            loaded: Loaded::blank(),
            answer: [0; 3],
        }
    }

    /// Lays what a word tells of a bucket, a slot and a key, or of a bucket and a word of it, and says whether it is such a word.
    fn lays(&mut self, word: &str, told: &[u64; 4]) -> bool {
        let bucket = (told[0] % BUCKETS as u64) as u8;
        match word {
            "blank" => self.loaded = Loaded::blank(),
            "full" => self.loaded = full_home(false),
            "halves" => self.loaded = full_home(true),
            "key" => self.loaded.set_key(bucket, (told[1] % 14) as u8, told[2]),
            "first" => self.loaded.set_first(bucket, told[1]),
            "third" => self.loaded.set_third(bucket, told[1]),
            _ => return false,
        }
        true
    }

    /// What is answered of a bucket, a depth and a pattern, of a hash, or of a word and some slots.
    fn answered(&self, geometry: &Geometry, word: &str, told: &[u64; 4]) -> [u64; 3] {
        let loaded = &self.loaded;
        let bucket = (told[0] % BUCKETS as u64) as u8;
        let depth = (told[1] % 65) as u8;
        let pattern = (told[2] % 2) as u32;
        let slots = told[1] % 16384;
        match word {
            "covered" => [loaded.covered_slots(geometry, bucket, depth, pattern), 0, 0],
            "spoiled" => [loaded.spoiled_slots(geometry, bucket, depth, pattern), 0, 0],
            "half" => {
                let first = loaded.half(geometry, depth, pattern).first;
                [first[0], first[1], first[HOMES as usize]]
            }
            "rest" => {
                let first = loaded.without_half(geometry, depth, pattern).first;
                [first[0], first[1], first[HOMES as usize]]
            }
            "mended" => {
                let first = loaded.mended(geometry, depth, pattern).first;
                [first[1], first[2], first[SECOND_STASH as usize]]
            }
            "room" => [u64::from(loaded.has_no_room(told[0])), 0, 0],
            "copied" => [copied_mark(told[0], slots), 0, 0],
            "cleared" => [cleared_mark(told[0], slots), 0, 0],
            _ => {
                let notes = rebuilt_notes(loaded, geometry);
                if told[0] == 1 {
                    [
                        notes.first[0],
                        notes.first[1],
                        notes.first[HOMES as usize - 1],
                    ]
                } else {
                    [notes.third[0], notes.third[1], 0]
                }
            }
        }
    }
}

impl Deeds for Segments {
    fn begin(&mut self, memory: &mut Memory, case: &str) -> Result<(), Fail> {
        let (word, rest) = first_word(case);
        let told = numbers(rest)?;
        if !self.lays(word, &told) {
            self.answer = self.answered(&memory.site.geometry, word, &told);
        }
        Ok(())
    }

    fn event(&mut self, _memory: &mut Memory, _ans: Option<Ans>) -> Want {
        Want::Done
    }

    fn keeps(&mut self, _alloc: Global, _ans: Ans) -> Result<bool, Fail> {
        Ok(false)
    }

    fn told(&mut self, alloc: Global, _what: &str) -> Result<String, Fail> {
        let answer = self.answer;
        Ok(format!(in alloc; "{answer:?}")?)
    }
}

/// Segments that are laid, and what is asked of them: which slots are covered or spoiled, words 1 of a half, of the rest and of what is mended, whether
/// there is no room for a hash, the marks of a copy and of what is cleared, and words 1 or 3 of the notes.
pub const ROWS: &str = "\
# Halves of a full home.
site 2 1 1 1
begin halves
do covered 0 1 1 -> [16383, 0, 0]
do covered 1 1 1 -> [0, 0, 0]
do covered 64 1 1 -> [5461, 0, 0]
do covered 65 1 1 -> [5461, 0, 0]
do covered 65 1 0 -> [10922, 0, 0]
do covered 65 0 0 -> [16383, 0, 0]
do half 0 1 1 -> [16383, 0, 5461]
do rest 0 1 1 -> [0, 268435455, 10922]
# Marks of a copy of two slots, and of what is cleared.
do copied 0x0464400FFFFFFFFF 3 -> [49155, 0, 0]
do cleared 0x0464400FFFFFFFFF 3 -> [316448311286382588, 0, 0]
# A full home has no room; but home 1 has bucket 2 for its probing bucket.
begin full
do room 56 -> [1, 0, 0]
do room 256 -> [0, 0, 0]
# A member can move back from bucket 0.
begin first 0 0x7FFF
do room 56 -> [0, 0, 0]
# A record of home 1 can move on to bucket 2, unless that is full.
begin first 0 0x3FFF
begin first 1 0x07FFFFFF
do room 56 -> [0, 0, 0]
begin first 2 0x3FFF
do room 56 -> [1, 0, 0]
# The last slot of the stash is free.
begin first 65 0x1FFF
do room 56 -> [0, 0, 0]
# A repair keeps the first of a key: 256 stands in buckets 1, 2 and 65, and a key of the other half in bucket 65.
begin blank
begin key 1 0 256
begin key 2 0 256
begin key 65 3 256
begin key 65 4 0x8000000000000100
begin first 1 0x0001
begin first 2 0x4001
begin first 65 0x0018
do spoiled 1 0 0 -> [0, 0, 0]
do spoiled 2 0 0 -> [1, 0, 0]
do spoiled 65 0 0 -> [8, 0, 0]
do spoiled 65 1 0 -> [24, 0, 0]
do mended 0 0 0 -> [1, 0, 16]
begin first 1 0
do spoiled 2 1 0 -> [0, 0, 0]
# Notes of a full stash, made anew.
site 1 0 1 1
begin full
begin first 0 0x1234567000003FFF
begin third 0 0xFFFF1A1816141210
begin third 1 0x00001B1917151311
begin first 63 0x03E3D400F0000000
do notes 1 -> [280300702318739455, 316448311286431743, 0]
do notes 3 -> [2097580217199759888, 2386937597081752337, 0]
";
