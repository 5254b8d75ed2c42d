// Where the lines of an input end.
ghost use Rattle.std.specs.Prelude.{◌≡◌, ◌<◌, ◌∷◌, length};
ghost use Rattle.script_text.specs.Splits.{lines};
ghost use Rattle.script_text.specs.Counting.{without_return};

use crate::word::first_place;

// The line without a carriage return at its end.
fn cut_return<'a>(line: &'a [u8]) -> &'a [u8]
    ensures { result.now ≡ without_return line.now }
{
    match line.last() {
        Some(b'\r') => &line[..line.len() - 1],
        _ => line,
    }
}

// The first line, and what stands behind it.
pub(crate) fn first_line<'a>(bytes: &'a [u8]) -> (&'a [u8], &'a [u8])
    requires { 0 < length bytes.now }
    ensures { lines bytes.now ≡ result.0.now ∷ lines result.1.now }
{
    match first_place(bytes, b'\n') {
        Some(end) => (cut_return(&bytes[..end]), &bytes[end + 1..]),
        None => (bytes, &[]),
    }
}

// How many lines there are.
pub(crate) fn count_lines(bytes: &[u8]) -> usize
    ensures { result ≡ length (lines bytes.now) }
{
    let mut count: usize = 0;
    let mut begun = false;
    for byte in bytes {
        if *byte == b'\n' {
            count += 1;
            begun = false;
        } else {
            begun = true;
        }
    }
    if begun { count + 1 } else { count }
}
