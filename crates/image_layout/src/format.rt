//! The format word of an image: the number of the format, and how keys are hashed.

ghost use Rattle.std.specs.Prelude.{◌≡◌, ◌≤◌};
ghost use Rattle.image_layout.specs.Places.{most_kind, format_word, format_in, kind_in};

/// The number of the format, below the kind of hash in one word.
pub const FORMAT_NUMBER: u64 = 1;

/// From which bit of that word on the kind of hash stands there.
const KIND_FROM: u32 = 32;

/// The format word of an image whose keys are hashed by this kind.
pub fn format_word(kind: u64) -> u64
    requires { kind ≤ most_kind }
    ensures { result ≡ format_word kind }
{
    FORMAT_NUMBER + (kind << KIND_FROM)
}

/// The number of the format that such a word says.
pub fn format_of(word: u64) -> u64
    ensures { result ≡ format_in word }
{
    word % (1 << KIND_FROM)
}

/// The kind of hash that it says, which need be none that there is.
pub fn kind_of(word: u64) -> u64
    ensures { result ≡ kind_in word }
{
    word >> KIND_FROM
}
