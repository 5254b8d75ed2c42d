// The rights that a file which replaces another one has, as bits of its mode.
ghost use Rattle.std.specs.Prelude.{◌≡◌, ◌*◌, bit_and, bit_or, IsTrue, false};

/// The mode with which the second file is made: what the image lets its owner read and write, and nothing for others.
pub fn first_mode(mode: u32) -> u32
    ensures { result ≡ bit_and mode 0o600 }
{
    mode & 0o600
}

// The bits of a mode that may be kept.
fn kept_bits(mode: u32, owner_kept: bool, group_kept: bool) -> u32
    ensures both { IsTrue owner_kept → IsTrue group_kept → result ≡ 0o7777 }
    ensures owner { owner_kept ≡ false → IsTrue group_kept → result ≡ 0o777 }
    ensures others { group_kept ≡ false → result ≡ bit_or 0o707 (bit_and mode 0o007 * 8) }
{
    match (owner_kept, group_kept) {
        (true, true) => 0o7777,
        (false, true) => 0o777,
        (_, false) => 0o707 | (mode & 0o007) * 8,
    }
}

/// The mode that the second file gets before it takes its place: that of the image, where its owner and its group
/// could be kept. Another group is let do no more than everyone, and with another owner or group the bits by which a
/// program runs as them are left out.
pub fn kept_mode(mode: u32, owner_kept: bool, group_kept: bool) -> u32
    ensures both { IsTrue owner_kept → IsTrue group_kept → result ≡ bit_and mode 0o7777 }
    ensures owner { owner_kept ≡ false → IsTrue group_kept → result ≡ bit_and mode 0o777 }
    ensures others { group_kept ≡ false → result ≡ bit_and mode (bit_or 0o707 (bit_and mode 0o007 * 8)) }
    ensures within { bit_and result mode ≡ result }
{
    mode & kept_bits(mode, owner_kept, group_kept)
}
