// The words of a line, taken one after another.
ghost use Rattle.std.specs.Prelude.{◌≡◌, ◌≢◌, ℕ, ◌<◌, [], ◌∷◌, length, slice_index, MatchOption};
ghost use Rattle.script_text.specs.Splits.{words};
ghost use Rattle.script_text.specs.Finding.{IsFirstAt, IsFirstOther};

// Where the byte stands first.
pub(crate) fn first_place(bytes: &[u8], byte: u8) -> Option<usize>
    ensures { MatchOption result ((i : ℕ) → i < length bytes.now → slice_index bytes.now i ≢ byte) (λ s. IsFirstAt byte bytes.now s) }
{
    bytes.iter().position(|other| *other == byte)
}

// Where another byte than this stands first.
fn first_other(bytes: &[u8], byte: u8) -> Option<usize>
    ensures { MatchOption result ((i : ℕ) → i < length bytes.now → slice_index bytes.now i ≡ byte) (λ s. IsFirstOther byte bytes.now s) }
{
    bytes.iter().position(|other| *other != byte)
}

// The first word, and what stands behind it.
pub(crate) fn next_word<'a>(bytes: &'a [u8]) -> Option<(&'a [u8], &'a [u8])>
    ensures { MatchOption result (words bytes.now ≡ []) (λ found. words bytes.now ≡ found.0.now ∷ words found.1.now) }
{
    let Some(start) = first_other(bytes, b' ') else {
        return None;
    };
    let rest = &bytes[start..];
    match first_place(rest, b' ') {
        Some(end) => Some((&rest[..end], &rest[end + 1..])),
        None => Some((rest, &[])),
    }
}
