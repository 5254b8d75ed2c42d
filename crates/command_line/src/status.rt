// The statuses with which the program ends.
ghost use Rattle.std.specs.Prelude.{◌≡◌};

/// All was done.
pub const DONE: u8 = 0;
/// The words are none of the commands.
pub const BAD_WORDS: u8 = 1;
/// A script line is bad, or the script is too long.
pub const BAD_SCRIPT: u8 = 2;
/// The image is refused.
pub const BAD_IMAGE: u8 = 3;
/// The source failed.
pub const SOURCE_FAILED: u8 = 4;
/// The sink failed.
pub const SINK_FAILED: u8 = 5;
/// The store failed.
pub const STORE_FAILED: u8 = 6;
/// Memory was wanting.
pub const NO_MEMORY: u8 = 7;

/// The numbers of the statuses, as docs/FORMAT.md has them. The function does nothing: it stands for what its contract says.
pub fn statuses_have_numbers()
    ensures done { DONE ≡ 0 }
    ensures refused { (BAD_WORDS ≡ 1) × (BAD_SCRIPT ≡ 2) × (BAD_IMAGE ≡ 3) }
    ensures failed { (SOURCE_FAILED ≡ 4) × (SINK_FAILED ≡ 5) × (STORE_FAILED ≡ 6) }
    ensures no_memory { NO_MEMORY ≡ 7 }
{}
