//! The full stash of the file format's own example, and what a home's buckets name at the edges.

ghost use Rattle.std.specs.Prelude.{All};
ghost use Rattle.stash.specs.Segment.{IsStashed};

use crate::rows::{TellsOfNumbers, said, shown, walk_numbers};
use bucket_meta::Meta;
use bucket_meta::words::META_WORDS;
use image_layout::HOMES;
use stash::{must_visit, note, rebuild, unnote};
use std::alloc::Global;
use std::test::Fail;

/// Keys 28 to 55, whose home is bucket 0 and whose fingerprint is the key: the first 14 stand in stash bucket 0
/// and the others in stash bucket 1.
fn full_stash() -> [(u8, u8, u8); 28]
    ensures { All IsStashed result }
{
    let mut stashed = [(0, 0, 0); 28];
    for slot in 0..28u8 {
        stashed[slot as usize] = (0, 28 + slot, slot / 14);
    }
    stashed
}

/// The metadata of a home bucket and of its probing bucket.
#[derive(Drop)]
struct Notes {
    home: Meta,
    probe: Meta,
}

/// A bucket without records and notes.
fn empty() -> Meta {
    Meta::read([0, 0, 0])
}

/// A bucket that has the even keys below 28, and the next one, which has the odd ones as members.
fn two_full_buckets() -> (Meta, Meta) {
    let mut home = empty();
    let mut probe = empty();
    for slot in 0..14u8 {
        home.place(slot, 2 * slot, false);
        probe.place(slot, 2 * slot + 1, true);
    }
    (home, probe)
}

impl Notes {
    /// Both buckets become these.
    fn put(&mut self, (home, probe): (Meta, Meta)) -> &'static str {
        self.home = home;
        self.probe = probe;
        "done"
    }

    /// Makes the notes of their segment anew, and gives the words of its last bucket.
    fn rebuild(&mut self, stashed: bool) -> [u64; META_WORDS] {
        let mut metas = [empty(); HOMES as usize];
        metas[0] = self.home;
        metas[1] = self.probe;
        if stashed {
            rebuild(&mut metas, &full_stash());
        } else {
            rebuild(&mut metas, &[]);
        }
        self.home = metas[0];
        self.probe = metas[1];
        metas[HOMES as usize - 1].write()
    }

    /// The stash buckets to be visited for a record of this home, of the home before, and of the next home.
    fn visits_told(&self, alloc: Global, finger: u8) -> Result<String, Fail> {
        let own = must_visit(&self.home, &self.probe, finger);
        let before = must_visit(&empty(), &self.home, finger);
        let after = must_visit(&self.probe, &empty(), finger);
        shown(alloc, &(own, before, after))
    }

    /// Notes a record, where the home's count has room.
    fn note(&mut self, finger: u8, index: u8) -> &'static str {
        if self.home.ocount < 31 && index < 2 {
            note(&mut self.home, &mut self.probe, finger, index);
            "done"
        } else {
            "no room"
        }
    }

    /// Takes a record away, where some record has no note.
    fn take(&mut self, finger: u8, index: u8) -> &'static str {
        if self.home.ocount > 0 {
            unnote(&mut self.home, &mut self.probe, finger, index);
            "done"
        } else {
            "none"
        }
    }
}

/// The words of a bucket's metadata.
fn words_told(alloc: Global, meta: &Meta) -> Result<String, Fail> {
    let [first, second, third] = meta.write();
    Ok(format!(in alloc; "{first:x} {second:x} {third:x}")?)
}

impl TellsOfNumbers for Notes {
    fn told(&mut self, alloc: Global, name: &str, numbers: &[u64]) -> Result<String, Fail> {
        match (name, numbers) {
            ("fill", []) => said(alloc, self.put(two_full_buckets())),
            ("clear", []) => said(alloc, self.put((empty(), empty()))),
            ("rebuild", [count]) => shown(alloc, &self.rebuild(*count > 0)),
            ("note", [finger, index]) => {
                let (finger, index) = (u8::try_from(*finger)?, u8::try_from(*index)?);
                said(alloc, self.note(finger, index))
            }
            ("take", [finger, index]) => {
                let (finger, index) = (u8::try_from(*finger)?, u8::try_from(*index)?);
                said(alloc, self.take(finger, index))
            }
            ("visits", [finger]) => self.visits_told(alloc, u8::try_from(*finger)?),
            ("home", []) => words_told(alloc, &self.home),
            ("probe", []) => words_told(alloc, &self.probe),
            ("counts", []) => shown(alloc, &(self.home.ocount, self.probe.omember)),
            _ => Err(Fail::new(name)),
        }
    }
}

#[test]
fn notes_of_a_home(rt: HostRuntime) -> Result<(), Fail> {
    let mut notes = Notes {
        home: empty(),
        probe: empty(),
    };
    walk_numbers(rt.alloc(), &mut notes, ROWS)
}

/// What is done, and what it comes to: `home` and `probe` tell the words of the metadata, and `counts` the home's count and the membership bits of
/// the probing bucket's notes.
const ROWS: &str = "\
# The full stash, made anew: of a home without notes, of one with notes, which do not matter; and of an empty stash.
fill -> done
rebuild 28 -> [0, 0, 0]
home -> 3e3d400f0003fff e0c0a0806040200 1d1c1a1816141210
probe -> 464400fffffffff f0d0b0907050301 21201b1917151311
rebuild 28 -> [0, 0, 0]
home -> 3e3d400f0003fff e0c0a0806040200 1d1c1a1816141210
probe -> 464400fffffffff f0d0b0907050301 21201b1917151311
rebuild 0 -> [0, 0, 0]
home -> 3fff e0c0a0806040200 1a1816141210
probe -> fffffff f0d0b0907050301 1b1917151311
# The same, record by record.
fill -> done
note 28 0 -> done
note 29 0 -> done
note 30 0 -> done
note 31 0 -> done
note 32 0 -> done
note 33 0 -> done
note 34 0 -> done
note 35 0 -> done
note 36 0 -> done
note 37 0 -> done
note 38 0 -> done
note 39 0 -> done
note 40 0 -> done
note 41 0 -> done
note 42 1 -> done
note 43 1 -> done
note 44 1 -> done
note 45 1 -> done
note 46 1 -> done
note 47 1 -> done
note 48 1 -> done
note 49 1 -> done
note 50 1 -> done
note 51 1 -> done
note 52 1 -> done
note 53 1 -> done
note 54 1 -> done
note 55 1 -> done
home -> 3e3d400f0003fff e0c0a0806040200 1d1c1a1816141210
probe -> 464400fffffffff f0d0b0907050301 21201b1917151311
# Key 55 is counted; key 28 has note slot 0 of its home bucket; and key 32 has note slot 0 of its probing bucket.
take 55 1 -> done
home -> 3e3d300f0003fff e0c0a0806040200 1d1c1a1816141210
take 28 0 -> done
home -> 3e3d300e0003fff e0c0a0806040200 1d001a1816141210
take 32 0 -> done
probe -> 464400eefffffff f0d0b0907050301 21001b1917151311
# Unused note slots name nothing.
clear -> done
visits 0 -> (0, 0, 0)
# A note names its stash bucket for its fingerprint, and for its own home alone.
note 7 1 -> done
visits 7 -> (2, 0, 0)
visits 8 -> (0, 0, 0)
note 7 0 -> done
visits 7 -> (3, 0, 0)
# The home bucket's note slots are used up, and the next note stands in the probing bucket.
note 5 0 -> done
note 5 0 -> done
note 9 1 -> done
counts -> (0, 1)
visits 9 -> (2, 0, 0)
# Some record has no note.
note 10 0 -> done
note 11 0 -> done
note 12 0 -> done
note 13 0 -> done
counts -> (1, 15)
visits 200 -> (3, 0, 0)
";
