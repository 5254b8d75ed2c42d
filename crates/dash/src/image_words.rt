// What is wrong with an image, in words.

/// What makes an image a damaged one, by the kind of its fault or the number of the rule that it breaks; none for a fault that tells of no damage.
pub fn damage_words(fault: &str) -> Option<&'static str> {
    match fault {
        "geometry" => Some("its shape is out of range (1 to 16384 segments, depth 0 to 16)"),
        _ => match fault.as_bytes() {
            [b'r', b'u', b'l', b'e', b' ', rule, ..] => Some(broken_words(*rule)),
            _ => None,
        },
    }
}

/// What any other fault of an image means, and what to do.
pub fn image_words(fault: &str) -> &'static str {
    match fault {
        "length" => {
            "its length is not that of an image: it is none, or is damaged; give the path of a whole image, or of an earlier copy"
        }
        "magic" => "it does not begin with DASHEH01, so it is no image: give the path of an image",
        "format" => {
            "its format is none that this version knows (format 1, hash 0 or 1): give the path of another image"
        }
        _ => "it is refused: docs/FORMAT.md says what an image is",
    }
}

// An image that is not sound. No version takes it.
fn broken_words(rule: u8) -> &'static str {
    match rule {
        b'1' => "a number in its head or in a segment's header is out of range",
        b'2' => "some keys belong to no segment, or to two",
        b'3' => "an entry of its directory does not lead to the segment of its keys",
        b'4' => {
            "a record stands in a bucket that is not its key's, or its fingerprint is another"
        }
        b'5' => "a key stands in it twice, with two values",
        b'6' => "a segment has a later version than the image",
        _ => "it is marked as closed, and is not as a close leaves it",
    }
}
