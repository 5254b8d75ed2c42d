// A number that no other process has, by which the second file is named.
use std::random::RandomSource;

/// A random number; 0 where the system gives none.
pub fn drawn<R: RandomSource>(rt: &R) -> u64 {
    let mut bytes = [0; 8];
    match rt.fill_bytes(&mut bytes) {
        Ok(()) => u64::from_le_bytes(bytes),
        Err(_) => 0,
    }
}
