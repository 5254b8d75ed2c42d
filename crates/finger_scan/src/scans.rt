//! The slots with a fingerprint, as a set of bits: bit `s` is of record slot `s`, of 14.

ghost use Rattle.std.specs.Prelude.{◌^◌, ◌<◌};
ghost use Rattle.bucket_meta.specs.Bucket.{record_slots};
ghost use Rattle.finger_scan.specs.Scan.{IsScanOf};

use bucket_meta::words;
use std::simd::prelude::*;

/// The record slots of a bucket, as a set.
const ALL_SLOTS: u64 = (1 << words::SLOTS) - 1;

/// Bit `s` is set where fingerprint `s` is the byte, and no other bit is.
///
/// The fingerprints are compared as lanes of one vector of 16. The last two lanes are no slots, and
/// are left out of the answer.
pub fn scan(fps: [u8; words::SLOTS as usize], byte: u8) -> u16
    ensures scan { IsScanOf fps byte result }
    ensures within { result < 2 ^ record_slots }
{
    let [f0, f1, f2, f3, f4, f5, f6, f7, f8, f9, f10, f11, f12, f13] = fps;
    let lanes = u8x16::from_array([
        f0, f1, f2, f3, f4, f5, f6, f7, f8, f9, f10, f11, f12, f13, 0, 0,
    ]);
    let same = lanes.simd_eq(u8x16::splat(byte)).to_bitmask();
    (same & ALL_SLOTS) as u16
}

/// What [`scan`] gives, by a loop over the fingerprints.
pub fn scan_plain(fps: [u8; words::SLOTS as usize], byte: u8) -> u16
    ensures scan { IsScanOf fps byte result }
    ensures within { result < 2 ^ record_slots }
{
    let mut found = 0;
    for (slot, finger) in fps.iter().enumerate() {
        if *finger == byte {
            found |= 1 << slot;
        }
    }
    found
}
