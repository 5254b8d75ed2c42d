//! A small memory on which a machine steps, and what its caller has found there before.
use bucket_meta::words::is_locked;
use enclose_op::Enclosed;
use image_layout::{BUCKETS, WORDS_OF_BUCKETS};
use map_model::Change;
use op_core::{Ans, Want};
use phase::{Buckets, Held, Kept};
use world::Site;

/// How many words there are: those of an image of two slots, and those behind it.
const WORDS: u64 = 4358;

/// The words of an image of one slot or two and those behind it, and a word that another caller stores before an event.
#[derive(Drop)]
pub struct Memory {
    /// Where a caller runs on it.
    pub site: Site,
    /// The words with which each case begins.
    table: [u64; WORDS as usize],
    words: [u64; WORDS as usize],
    /// How many events were done.
    pub events: u64,
    /// After how many events another caller stores, to which word, and which value.
    pub other: (u64, u64, u64),
}

impl Memory {
    /// A memory with 0 in each word, on which a caller runs there.
    pub fn new(site: Site) -> Memory {
        Memory {
            site,
            table: [0; WORDS as usize],
            words: [0; WORDS as usize],
            events: 0,
            other: (u64::MAX, 0, 0),
        }
    }

    /// Begins a case: its words are those with which each case begins, and no other caller stores.
    pub fn begin(&mut self) {
        self.words = self.table;
        self.events = 0;
        self.other = (u64::MAX, 0, 0);
    }

    /// Has each later case begin with the words as they are.
    pub fn keep(&mut self) {
        self.table = self.words;
    }

    /// The value of a word, 0 of one that is not there.
    pub fn word(&self, at: u64) -> u64 {
        if at < WORDS {
            self.words[at as usize]
        } else {
            0
        }
    }

    /// Gives a word a value.
    pub fn set(&mut self, at: u64, value: u64) {
        if at < WORDS {
            self.words[at as usize] = value;
        }
    }

    /// How many locks of the segment in slot 0 are taken.
    pub fn locks(&self) -> u64 {
        let mut taken = 0u64;
        for bucket in 0..BUCKETS {
            if is_locked(self.word(96 + 32 * u64::from(bucket))) {
                taken = taken.wrapping_add(1);
            }
        }
        taken
    }

    /// The words of the bucket of this lock word, with 0 for that.
    pub fn bucket(&self, lock: u64) -> [u64; 32] {
        let mut words = [0; 32];
        for number in 1..32u8 {
            words[usize::from(number)] = self.word(lock.wrapping_add(u64::from(number)));
        }
        words
    }

    /// What an insert keeps that found no room in slot 0, whose hashes are the keys, with these locks and the words of their buckets.
    pub fn kept(&self, change: Change, held: Held, buckets: Buckets) -> Kept {
        Kept {
            site: self.site,
            change,
            hash: change.key,
            segment: 0,
            head: 257,
            held,
            buckets,
        }
    }

    /// The segment in slot 0 as who makes this change has enclosed it: of each lock word the free value that it had, and the other words.
    pub fn enclosed(&self, change: Change) -> Enclosed {
        let mut locks = [0; BUCKETS as usize];
        for bucket in 0..BUCKETS {
            locks[usize::from(bucket)] = self.word(96 + 32 * u64::from(bucket));
        }
        let mut buckets = [0; WORDS_OF_BUCKETS as usize];
        for number in 0..2112u16 {
            if number % 32 != 0 {
                buckets[usize::from(number)] = self.word(96 + u64::from(number));
            }
        }
        Enclosed {
            site: self.site,
            change,
            hash: change.key,
            segment: 0,
            head: self.word(65),
            locks,
            buckets,
        }
    }

    /// Does an event.
    pub fn answer(&mut self, want: Want) -> Ans {
        let (after, at, value) = self.other;
        if self.events == after {
            self.set(at, value);
        }
        self.events = self.events.wrapping_add(1);
        match want {
            Want::Load(at) => Ans::Value(self.word(at)),
            Want::Store(at, value) => {
                self.set(at, value);
                Ans::Passed
            }
            Want::Exchange(at, old, new) => self.exchange(at, old, new),
            Want::Draw => self.draw(),
            Want::Power => Ans::Value(self.word(self.site.geometry.power_word())),
            Want::Flush(_) | Want::Fence | Want::Done => Ans::Passed,
        }
    }

    fn exchange(&mut self, at: u64, old: u64, new: u64) -> Ans {
        let found = self.word(at);
        if found == old {
            self.set(at, new);
            Ans::Won
        } else {
            Ans::Lost(found)
        }
    }

    fn draw(&mut self) -> Ans {
        let counter = self.site.geometry.counter_word();
        let place = self.word(counter);
        self.set(counter, place.wrapping_add(1));
        Ans::Drawn(place)
    }
}
