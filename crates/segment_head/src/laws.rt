//! A head and its word determine each other.

ghost use Rattle.std.specs.Prelude.{◌≡◌, ◌<◌, ◌↔◌, IfSome, IsNone};
ghost use Rattle.segment_head.specs.HeadWord.{state_in, last_state};
ghost use Rattle.segment_head.specs.Written.{spare_in, WordGivesHead, HeadGivesWord};

use crate::Head;

/// Heads that are those of the same word are the same head.
pub fn word_gives_head()
    ensures { WordGivesHead }
{}

/// Words that have the same head, with bits 24 to 31 zero, are the same word.
pub fn head_gives_word()
    ensures { HeadGivesWord }
{}

/// What is read of the word that a head writes is that head.
pub fn read_of_written(head: &Head) -> Option<Head>
    ensures { result ≡ Some head.now }
{
    Head::read(head.write())
}

/// The word that a head writes which was read of a word, with bits 24 to 31 zero, is that word.
pub fn written_of_read(h1: u64) -> Option<u64>
    requires { spare_in h1 ≡ 0 }
    ensures some { IfSome result (λ word. word ≡ h1) }
    ensures none { IsNone result ↔ (last_state < state_in h1) }
{
    match Head::read(h1) {
        Some(head) => Some(head.write()),
        None => None,
    }
}
