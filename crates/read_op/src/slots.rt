//! What a key has among the words of a bucket.

ghost use Rattle.std.specs.Prelude.{◌≡◌};
ghost use Rattle.read_op.specs.Steps.{value_of};

use bucket_meta::words::{BUCKET_WORDS, MARK_PLACE, SLOTS, is_taken, key_place, value_place};

/// What a key has in a bucket of these words: the value of the last record slot that is taken and has the key.
#[tactic(auto, using(crate::proofs::steps::LastTaken::at_first, crate::proofs::steps::LastTaken::has_key, crate::proofs::steps::LastTaken::is_free, crate::proofs::steps::LastTaken::has_other))]
pub fn value_of(words: &[u64; BUCKET_WORDS], key: u64) -> Option<u64>
    ensures { result ≡ value_of words.now key }
{
    let mut found = None;
    for slot in 0..SLOTS {
        if is_taken(words[MARK_PLACE], slot) && words[key_place(slot)] == key {
            found = Some(words[value_place(slot)]);
        }
    }
    found
}
