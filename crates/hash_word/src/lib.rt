//! Hashes of keys, and what their bits say.
//!
//! A hash is 64 bits. Its lowest byte is the fingerprint of a record, the next six bits name the home bucket,
//! and its top bits choose the segment. Numbers of which words of several crates above are made stand here too: the greatest
//! depth of a directory, the bits of a fingerprint, and the bits of a version, which is the lowest byte of such words.
#![tactic(auto)]

ghost use Rattle.std.specs.Prelude.{◌≡◌, ◌<◌, ◌≤◌, ◌^◌, ◌↔◌, IsTrue};
ghost use Rattle.hash_word.specs.Hash.{hash_bits, homes, most_depth, hash_of, home_of, probing_of, next_of, previous_of, finger_of, version_in, index_of, first_hash_of, Covers};

/// How many bits a hash has.
pub const HASH_BITS: u8 = 64;

/// How many bits a fingerprint has.
pub const FINGERPRINT_BITS: u32 = 8;

/// The greatest depth that a directory may have.
pub const MOST_DEPTH: u64 = 16;

/// How many bits the version of an image has, in its state word and in each header word.
pub const VERSION_BITS: u32 = 8;

/// The bits of a version, which are the lowest ones.
const VERSION_MASK: u64 = (1 << VERSION_BITS) - 1;

/// How many home buckets a segment has.
pub const HOMES: u8 = 64;

/// The bits of a home bucket's number.
const HOME_MASK: u64 = HOMES as u64 - 1;

/// The bits of a fingerprint, which are the lowest ones.
pub const FINGER_MASK: u64 = (1 << FINGERPRINT_BITS) - 1;

/// How a key is hashed.
#[derive(Clone, Copy, Debug, PartialEq, Eq)]
pub enum Kind {
    /// The hash is the key. An image says 0.
    Identity,
    /// The finalizer of SplitMix64, which spreads keys that lie close. An image says 1.
    Mix,
}

/// The hash of a key.
pub fn hash(kind: Kind, key: u64) -> u64
    ensures { result ≡ hash_of kind key }
{
    match kind {
        Kind::Identity => key,
        Kind::Mix => {
            let z = (key ^ (key >> 30)).wrapping_mul(0xBF58476D1CE4E5B9);
            let z = (z ^ (z >> 27)).wrapping_mul(0x94D049BB133111EB);
            z ^ (z >> 31)
        }
    }
}

/// The number of the home bucket, from 0 to 63.
pub fn home(h: u64) -> u8
    ensures of { result ≡ home_of h }
    ensures range { result < homes }
{
    (h >> FINGERPRINT_BITS & HOME_MASK) as u8
}

/// The number of the probing bucket of a home bucket: the next one, and the first after the last.
pub fn probing(home: u8) -> u8
    requires { home < homes }
    ensures of { result ≡ probing_of home }
    ensures range { result < homes }
{
    (home + 1) % HOMES
}

/// The number of the bucket after the probing bucket of a home bucket; the two last ones are followed by the first two.
pub fn next(home: u8) -> u8
    requires { home < homes }
    ensures of { result ≡ next_of home }
    ensures range { result < homes }
{
    (home + 2) % HOMES
}

/// The number of the bucket before a home bucket: the last one before the first.
pub fn previous(home: u8) -> u8
    requires { home < homes }
    ensures of { result ≡ previous_of home }
    ensures range { result < homes }
{
    (home + (HOMES - 1)) % HOMES
}

/// The fingerprint of a record with this hash: its lowest byte.
pub fn finger(h: u64) -> u8
    ensures { result ≡ finger_of h }
{
    (h & FINGER_MASK) as u8
}

/// The version in a state word or a header word: its lowest byte, 1 to 255 in a sound one.
pub fn version_of(word: u64) -> u8
    ensures { result ≡ version_in word }
{
    (word & VERSION_MASK) as u8
}

/// The place of the hash in a directory of depth `g`, from 0 to 64: its top `g` bits.
pub fn dir_index(h: u64, g: u8) -> u64
    requires { g ≤ hash_bits }
    ensures { result ≡ index_of g h }
{
    if g == 0 { 0 } else { h >> (HASH_BITS - g) }
}

/// The first hash at place `i`, below 2^g, of a directory of depth `g`.
pub fn first_hash_of(g: u64, i: u64) -> u64
    requires depth { g ≤ most_depth }
    requires place { i < 2 ^ g }
    ensures { result ≡ first_hash_of g i }
{
    if g == 0 {
        0
    } else {
        i << (HASH_BITS as u64 - g)
    }
}

/// Whether a segment of this depth, from 0 to 64, and pattern covers the hash.
pub fn covers(depth: u8, pattern: u32, h: u64) -> bool
    requires { depth ≤ hash_bits }
    ensures { IsTrue result ↔ Covers depth pattern h }
{
    dir_index(h, depth) == u64::from(pattern)
}
