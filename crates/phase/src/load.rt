//! The load of a bucket: the 31 words behind its lock word.

ghost use Rattle.std.specs.Prelude.{◌≡◌, ◌≤◌, ◌+◌, if◌then◌else◌};
ghost use Rattle.image_layout.specs.Places.{most_words, place_in_bucket};
ghost use Rattle.op_core.specs.declared.want.Want.TheVariants as want;
ghost use Rattle.phase.specs.declared.load.Loaded.TheVariants.{On, All};
ghost use Rattle.phase.specs.Loads.{load_begun, load_taken};

use bucket_meta::words::{BUCKET_WORDS, MARK_PLACE};
use op_core::Want;

/// How many words a bucket has.
const WORDS: u8 = BUCKET_WORDS as u8;

/// The last of them, counted from the lock word, which is 0.
const LAST_WORD: u8 = WORDS - 1;

/// The words of a bucket that were loaded so far, each at its number, and the number of the next one, 1 to 31.
#[derive(Clone, Copy)]
pub struct Load {
    /// The words.
    pub words: [u64; BUCKET_WORDS],
    /// The number of the next one.
    pub next: u8,
}

/// What a loaded word makes of it.
#[derive(Clone, Copy)]
pub enum Loaded {
    /// The next word is to be loaded.
    On(Load),
    /// All are loaded: the 32 words of the bucket, of which the lock word is 0.
    All([u64; BUCKET_WORDS]),
}

impl Load {
    /// Nothing was loaded yet.
    pub fn begin() -> Load
        ensures { result ≡ load_begun }
    {
        Load {
            words: [0; BUCKET_WORDS],
            next: MARK_PLACE as u8,
        }
    }
}

/// The event that it wants, in the bucket of this lock word.
pub fn load_want(lock: u64, load: &Load) -> Want
    requires { lock ≤ most_words }
    ensures { result ≡ want.Load (lock + place_in_bucket load.now.next) }
{
    Want::Load(lock + u64::from(load.next % WORDS))
}

/// Puts a loaded word in its place: whether another is to be loaded. Where none is, the words are all.
pub fn load_put(load: &mut Load, seen: u64) -> bool
    ensures { load_taken load.old seen ≡ (if result then On load.new else All load.new.words) }
{
    let more = load.next < LAST_WORD;
    if load.next < WORDS {
        load.words[usize::from(load.next)] = seen;
    }
    if more {
        load.next += 1;
    }
    more
}
