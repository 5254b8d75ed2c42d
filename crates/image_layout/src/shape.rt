//! How an image is laid out.

ghost use Rattle.std.specs.Prelude.{◌≡◌, ◌<◌, ◌≤◌, ◌+◌, ◌*◌, ◌%◌, IfOk, IfErr};
ghost use Rattle.bucket_meta.specs.Bucket.{first_key};
ghost use Rattle.image_layout.specs.Volatile.{counter_word, power_word, allocation_guard, directory_guard, segment_guard, all_words_of, power_from, allocation_from, directory_from, guards_from, words_bound};
ghost use Rattle.image_layout.specs.Places.{IsShape, first_segment, words_of, entry_at, head_at, header_word, link_word, home_of_note, place_of_note, is_mark_note, bucket_at, bucket_place, first_among_buckets, word_among_buckets, bucket_of, bucket_behind, among_buckets, mark_among_buckets, block, stash_bucket, stash_buckets, buckets, segment_words, most_power, first_segment_of_largest, most_words, most_segments, most_depth, most_kind, entries_of, depth_below, depth_above, entry_above, half_of_entry};

use bucket_meta::words::{
    BUCKET_WORDS, MARK_PLACE, REST_PLACE, SECOND_STASH_INDEX, SLOTS, STASH_INDICES,
};
use hash_word::{HOMES, MOST_DEPTH};
use std::error::Error;
use std::fmt;
use std::marker::Model;

/// The word of the magic, the first of those in front.
pub const FRONT_MAGIC: usize = 0;
/// The word of the format and of the kind of hash.
pub const FRONT_FORMAT: usize = 1;
/// The word of the number of slots for segments.
pub const FRONT_SEGMENTS: usize = 2;
/// The word of the greatest depth of the directory.
pub const FRONT_DEPTH: usize = 3;
/// The word of the root depth, with which the directory is read.
pub const ROOT_WORD: u64 = 8;
/// The word of the image's version and of the clean marker.
pub const STATE_WORD: u64 = 16;
/// How many words the front of an image, a header and a bucket have.
pub const BLOCK: u64 = BUCKET_WORDS as u64;
/// How many stash buckets a segment has, behind its homes: those that a note may name.
pub const STASH_BUCKETS: u8 = STASH_INDICES;
/// The number of the second one; that of the first is [`HOMES`].
pub const SECOND_STASH: u8 = HOMES + SECOND_STASH_INDEX;
/// In how many buckets beside the stash a key may stand: its home and its probing bucket.
const HOMES_OF_KEY: u8 = 2;
/// In how many buckets it may stand: these, and the stash buckets.
const BUCKETS_OF_KEY: u8 = HOMES_OF_KEY + STASH_BUCKETS;
/// In how many record slots a key may stand: those of these buckets.
pub const SLOTS_OF_KEY: u8 = BUCKETS_OF_KEY * SLOTS;
/// How many buckets a segment has.
pub const BUCKETS: u8 = HOMES + STASH_BUCKETS;
/// The last bucket of a segment, counted from the first, which is 0.
pub const LAST_BUCKET: u8 = BUCKETS - 1;
/// Which of the words of a slot for a segment is its header word, counted from the first, which is 0.
pub const HEADER: u64 = 1;
/// Which of them is the word of its link.
pub const LINK: u64 = 2;
/// How many blocks of a slot for a segment are its header, in front of its buckets.
const HEADER_BLOCKS: u16 = 1;
/// How many words these have.
pub const HEADER_WORDS: u16 = BLOCK_WORDS * HEADER_BLOCKS;
/// How many words a segment has: a header and its buckets.
pub const SEGMENT_WORDS: u64 = BLOCK * (HEADER_BLOCKS as u64 + BUCKETS as u64);
/// How many words the buckets of a segment have together.
pub const WORDS_OF_BUCKETS: u64 = BLOCK * BUCKETS as u64;
/// The last one of these words, counted from the first, which is 0.
pub const LAST_OF_BUCKETS: u16 = WORDS_OF_BUCKETS as u16 - 1;
/// How many words a header and a bucket have, where the words of a segment are numbered.
pub const BLOCK_WORDS: u16 = BLOCK as u16;
/// How many words of a home have notes: its metadata word, and the last word before its records.
const NOTE_WORDS_OF_HOME: u8 = 2;
/// How many words of a segment have notes: these of each home.
pub const NOTE_WORDS: u8 = NOTE_WORDS_OF_HOME * HOMES;
/// How far behind the metadata word the other of these stands.
const REST_BEHIND_MARK: u8 = (REST_PLACE - MARK_PLACE) as u8;
/// How many record slots a segment has, in all its buckets.
pub const SEGMENT_SLOTS: u64 = BUCKETS as u64 * SLOTS as u64;
/// How many record slots the stash of a segment has.
pub const STASH_SLOTS: usize = STASH_BUCKETS as usize * SLOTS as usize;
/// The most slots for segments that an image may have.
pub const MOST_SEGMENTS: u64 = 16384;
/// The word where the segments of the largest image begin.
const FIRST_SEGMENT_OF_LARGEST: u64 = (BLOCK + (1u64 << (MOST_DEPTH + 1)) - 1 + (BLOCK - 1)) / BLOCK
    * BLOCK;
/// The most words that an image may have: those of the largest one.
pub const MOST_WORDS: u64 = FIRST_SEGMENT_OF_LARGEST + SEGMENT_WORDS * MOST_SEGMENTS;
/// The greatest kind of hash.
pub const MOST_KIND: u64 = 1;
/// The kind of hash by which a key is its own hash; any other kind mixes it.
pub const IDENTITY_KIND: u64 = 0;
/// How many words behind the commit counter the power word stands.
const POWER: u64 = 1;
/// How many words behind it the guard of free slots for segments stands.
const ALLOCATION: u64 = 2;
/// How many words behind it the guard of the directory stands.
const DIRECTORY: u64 = 3;
/// How many words stand between those of the image and the guards of segments.
const GUARDS_FROM: u64 = DIRECTORY + 1;
/// The power word while the power is on; with any other word it is off.
pub const POWER_ON: u64 = 0;
/// The power word that is stored by who turns the power off.
pub const POWER_OFF: u64 = 1;
/// The word of a guard that nobody holds; else it is the number of the caller who has it.
pub const FREE_GUARD: u64 = 0;

/// The first of the three numbers that is out of range.
#[derive(Clone, Copy, Debug, PartialEq, Eq)]
pub enum GeoFault {
    /// The number of slots for segments is not 1 to 16384.
    Segments,
    /// The greatest depth of the directory is not 0 to 16.
    Depth,
    /// The way to hash keys is not 0 or 1.
    Kind,
}

impl fmt::Display for GeoFault {
    ghost use Rattle.std.specs.Prelude.{Some};
    ghost use Rattle.image_layout.specs.Faults.{fault_text};

    ghost output = { λ fault. Some (fault_text fault) };

    fn fmt<W: fmt::Write>(&self, f: &mut fmt::Formatter<W>) -> fmt::Result {
        f.write_str(match self {
            GeoFault::Segments => "the number of segments is not 1 to 16384",
            GeoFault::Depth => "the greatest depth is not 0 to 16",
            GeoFault::Kind => "the kind of hash is not 0 or 1",
        })
    }
}

impl Error for GeoFault {}

/// How many entries the directory area of a depth has, which is at most one more than the greatest depth: all areas together have one
/// entry less than the area behind them would have.
pub fn entries_of(depth: u64) -> u64
    requires { depth ≤ most_depth + 1 }
    ensures is { result ≡ entries_of depth }
    ensures some { 1 ≤ result }
    ensures most { result ≤ most_power }
{
    1 << depth
}

/// The depth of the area below that of a depth.
pub fn depth_below(depth: u64) -> u64
    requires { depth ≤ most_depth }
    ensures { result ≡ depth_below depth }
{
    depth + 1
}

/// The depth of the area above that of a depth; 0 of depth 0, which has none above it.
pub fn depth_above(depth: u64) -> u64
    ensures { result ≡ depth_above depth }
{
    depth.saturating_sub(1)
}

/// The entry of the area above that has the hashes of an entry, and of one more.
pub fn entry_above(i: u64) -> u64
    ensures { result ≡ entry_above i }
{
    i / 2
}

/// Which half of the hashes of the entry above it an entry has: 0 or 1.
pub fn half_of_entry(i: u64) -> u64
    ensures { result ≡ half_of_entry i }
{
    i % 2
}

/// The number of stash bucket `k`, 0 or 1, among all buckets: the stash stands behind the homes.
pub fn stash_bucket(k: u8) -> u8
    requires { k < stash_buckets }
    ensures is { result ≡ stash_bucket k }
    ensures within { result < buckets }
{
    HOMES + k
}

/// The first word of bucket `b` among the words of all buckets of a segment.
pub fn first_among_buckets(b: u8) -> u16
    ensures { result ≡ first_among_buckets b }
{
    BLOCK_WORDS * u16::from(b)
}

/// Word `n` of bucket `b` among the words of all buckets of a segment.
pub fn word_among_buckets(b: u8, n: u8) -> u16
    ensures { result ≡ word_among_buckets b n }
{
    first_among_buckets(b) + u16::from(n)
}

/// The first word of bucket `b` among the words of its slot, where the buckets stand behind the header.
pub fn bucket_place(b: u8) -> u16
    ensures { result ≡ bucket_place b }
{
    HEADER_WORDS + first_among_buckets(b)
}

/// The bucket in which a word of a slot stands, by its number there; 0 for a word of the header.
pub fn bucket_of(number: u16) -> u16
    ensures { result ≡ bucket_of number }
{
    (number / BLOCK_WORDS).saturating_sub(HEADER_BLOCKS)
}

/// The first bucket behind a word of a slot, by its number there: as many as the blocks before it, since the header is one block.
pub fn bucket_behind(number: u16) -> u16
    ensures { result ≡ bucket_behind number }
{
    1 - HEADER_BLOCKS + number / BLOCK_WORDS
}

/// The number that a word of a slot has among the words of the buckets; that of the first one for a word of the header.
pub fn among_buckets(number: u16) -> u16
    ensures { result ≡ among_buckets number }
{
    number.saturating_sub(HEADER_WORDS)
}

/// The number that the metadata word of the bucket of a word of a slot has among the words of the buckets; that of the first one for a
/// word of the header.
pub fn mark_among_buckets(number: u16) -> u16
    ensures { result ≡ mark_among_buckets number }
{
    (number - number % BLOCK_WORDS).saturating_sub(HEADER_WORDS - MARK_PLACE as u16)
}

/// The home of the one of this number among the words that have notes.
pub fn home_of_note(number: u8) -> u8
    ensures { result ≡ home_of_note number }
{
    number / NOTE_WORDS_OF_HOME
}

/// Whether the one of this number among the words that have notes is the metadata word of its home.
pub fn is_mark_note(number: u8) -> bool
    ensures { result ≡ is_mark_note number }
{
    number % NOTE_WORDS_OF_HOME == 0
}

/// Which word of its home the one of this number among the words that have notes is.
pub fn place_of_note(number: u8) -> u8
    ensures is { result ≡ place_of_note number }
    ensures within { result < first_key }
{
    MARK_PLACE as u8 + REST_BEHIND_MARK * (number % NOTE_WORDS_OF_HOME)
}

/// How an image is laid out: three numbers, all in range.
#[derive(Clone, Copy, Debug, PartialEq, Eq)]
pub struct Geometry {
    segments: u64,
    depth: u64,
    kind: u64,
}

impl Model for Geometry {
    ghost use Rattle.image_layout.specs.Places.{Shape, IsShape};

    ghost Value = { Shape };

    ghost view = { λ a. record { segments = a.segments; depth = a.depth; kind = a.kind } };

    ghost invariant = { λ a. IsShape (record { segments = a.segments; depth = a.depth; kind = a.kind }) };

    ghost inverse = { λ s. record { segments = s.segments; depth = s.depth; kind = s.kind } };
}

impl Geometry {
    ghost use Rattle.image_layout.specs.Faults.{HasGeoFault};

    /// An image of up to `segments` segments, 1 to 16384, with a directory of depth at most `depth`, 0 to 16,
    /// and keys hashed by `kind`: 0 identity, 1 mixed. The error names the first number out of range.
    pub fn new(segments: u64, depth: u64, kind: u64) -> Result<Geometry, GeoFault>
        ensures is { IfOk result (λ g. g ≡ record { segments = segments; depth = depth; kind = kind }) }
        ensures shape { IfOk result IsShape }
        ensures fault { IfErr result (HasGeoFault segments depth kind) }
        ensures refused { (f : GeoFault) → HasGeoFault segments depth kind f → result ≡ Err f }
    {
        if segments < 1 || segments > MOST_SEGMENTS {
            return Err(GeoFault::Segments);
        }
        if depth > MOST_DEPTH {
            return Err(GeoFault::Depth);
        }
        if kind > MOST_KIND {
            return Err(GeoFault::Kind);
        }
        Ok(Geometry {
            segments,
            depth,
            kind,
        })
    }

    /// How many slots for segments there are.
    pub fn segments(&self) -> u64
        ensures is { result ≡ self.now.segments }
        ensures some { 1 ≤ result }
        ensures most { result ≤ most_segments }
    {
        self.segments
    }

    /// The greatest depth of the directory.
    pub fn depth(&self) -> u64
        ensures is { result ≡ self.now.depth }
        ensures most { result ≤ most_depth }
    {
        self.depth
    }

    /// How keys are hashed: 0 identity, 1 mixed.
    pub fn kind(&self) -> u64
        ensures is { result ≡ self.now.kind }
        ensures most { result ≤ most_kind }
    {
        self.kind
    }

    /// How many words the image has.
    pub fn words(&self) -> u64
        ensures is { result ≡ words_of self.now }
        ensures shape { IsShape self.now }
        ensures most { result ≤ most_words }
    {
        self.first_segment() + SEGMENT_WORDS * self.segments
    }

    /// The word where the segments begin: the next multiple of 32 behind the directory's areas.
    fn first_segment(&self) -> u64
        ensures is { result ≡ first_segment self.now }
        ensures most { result ≤ first_segment_of_largest }
    {
        (BLOCK + entries_of(self.depth + 1) - 1).next_multiple_of(BLOCK)
    }

    /// The word of entry `i`, below 2^e, of the directory area of depth `e`.
    pub fn entry_at(&self, e: u64, i: u64) -> u64
        requires depth { e ≤ self.now.depth }
        requires index { i < entries_of e }
        ensures is { result ≡ entry_at e i }
        ensures from { block ≤ result }
        ensures within { result < first_segment self.now }
        ensures below { result < words_of self.now }
        ensures most { result < first_segment_of_largest }
    {
        let _ = &self.depth;
        BLOCK + entries_of(e) - 1 + i
    }

    /// The first of the 32 words of the header of the segment in this slot.
    pub fn head_at(&self, slot: u64) -> u64
        requires { slot < self.now.segments }
        ensures is { result ≡ head_at self.now slot }
        ensures aligned { result % block ≡ 0 }
        ensures within { result + segment_words ≤ words_of self.now }
        ensures most { result + segment_words ≤ most_words }
    {
        let _ = &self.segments;
        self.first_segment() + SEGMENT_WORDS * slot
    }

    /// The header word of the segment in this slot.
    pub fn header_word(&self, slot: u64) -> u64
        requires { slot < self.now.segments }
        ensures is { result ≡ header_word self.now slot }
        ensures within { result < words_of self.now }
        ensures most { result < most_words }
    {
        self.head_at(slot) + HEADER
    }

    /// The word of the link of the segment in this slot.
    pub fn link_word(&self, slot: u64) -> u64
        requires { slot < self.now.segments }
        ensures is { result ≡ link_word self.now slot }
        ensures within { result < words_of self.now }
        ensures most { result < most_words }
    {
        self.head_at(slot) + LINK
    }

    /// The first of the 32 words of bucket `b`, 0 to 65 with the stash buckets, of the segment in this slot.
    pub fn bucket_at(&self, slot: u64, b: u8) -> u64
        requires slot { slot < self.now.segments }
        requires bucket { b < buckets }
        ensures is { result ≡ bucket_at self.now slot b }
        ensures aligned { result % block ≡ 0 }
        ensures within { result + block ≤ words_of self.now }
        ensures most { result + block ≤ most_words }
    {
        self.head_at(slot) + u64::from(HEADER_WORDS) + u64::from(first_among_buckets(b))
    }

    /// The first of the 32 words of stash bucket `k`, 0 or 1, of the segment in this slot.
    pub fn stash_at(&self, slot: u64, k: u8) -> u64
        requires slot { slot < self.now.segments }
        requires stash { k < stash_buckets }
        ensures is { result ≡ bucket_at self.now slot (stash_bucket k) }
        ensures aligned { result % block ≡ 0 }
        ensures within { result + block ≤ words_of self.now }
        ensures most { result + block ≤ most_words }
    {
        self.bucket_at(slot, stash_bucket(k))
    }

    /// The word of the commit counter, the first behind those of the image.
    pub fn counter_word(&self) -> u64
        ensures is { result ≡ counter_word self.now }
        ensures most { result ≤ most_words }
    {
        self.words()
    }

    /// The power word, which says whether the power is off.
    pub fn power_word(&self) -> u64
        ensures is { result ≡ power_word self.now }
        ensures most { result ≤ most_words + power_from }
    {
        self.words() + POWER
    }

    /// The word of the guard of free slots for segments.
    pub fn allocation_guard(&self) -> u64
        ensures is { result ≡ allocation_guard self.now }
        ensures most { result ≤ most_words + allocation_from }
    {
        self.words() + ALLOCATION
    }

    /// The word of the guard of the directory.
    pub fn directory_guard(&self) -> u64
        ensures is { result ≡ directory_guard self.now }
        ensures most { result ≤ most_words + directory_from }
    {
        self.words() + DIRECTORY
    }

    /// The word of the guard of the segment in this slot.
    pub fn segment_guard(&self, slot: u64) -> u64
        requires { slot < self.now.segments }
        ensures is { result ≡ segment_guard self.now slot }
        ensures within { result < all_words_of self.now }
        ensures most { result < most_words + guards_from + most_segments }
    {
        self.words() + GUARDS_FROM + slot
    }

    /// How many words there are with those of the image: behind them stand the commit counter, the power word, the guards
    /// of free slots and of the directory, and a guard for each slot for a segment.
    pub fn all_words(&self) -> usize
        ensures is { result ≡ all_words_of self.now }
        ensures most { result < words_bound }
    {
        (self.words() + GUARDS_FROM + self.segments()) as usize
    }
}
