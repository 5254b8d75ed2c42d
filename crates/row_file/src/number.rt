//! Numbers, as lines write them.

use std::num::ParseIntError;

/// The number that is written so: decimal, or hexadecimal behind `0x`.
///
/// # Errors
///
/// If it is written otherwise, or is not below 2^64.
pub fn number_of(text: &str) -> Result<u64, ParseIntError> {
    match text.strip_prefix("0x") {
        Some(digits) => u64::from_str_radix(digits, 16),
        None => text.parse::<u64>(),
    }
}
