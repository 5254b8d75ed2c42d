// Numbers in decimal digits.
ghost use Rattle.std.specs.Prelude.{◌≡◌};
ghost use Rattle.script_text.specs.Readings.{number};

// The most digits that a number may have: as many as the greatest number below 2^64 has.
const MOST_DIGITS: usize = 20;

/// The number that a word is: 1 to 20 decimal digits, of a value of 64 bits. `None` for any other word.
pub fn number_of(word: &[u8]) -> Option<u64>
    ensures { result ≡ number word.now }
{
    if word.is_empty() || word.len() > MOST_DIGITS {
        return None;
    }
    let mut n: u128 = 0;
    for byte in word {
        if *byte < b'0' || *byte > b'9' {
            return None;
        }
        n = n * 10 + (*byte - b'0') as u128;
    }
    if n <= u64::MAX as u128 {
        Some(n as u64)
    } else {
        None
    }
}
