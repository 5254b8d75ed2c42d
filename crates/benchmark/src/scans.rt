//! Both scans over the same buckets, and the time that they take.

use bucket_meta::words::SLOTS;
use finger_scan::{scan, scan_plain};
use std::alloc::{AllocError, Global};
use std::io::{self, Print};
use std::num::nearest_usize_to_f64;
use std::time::{Clock, Duration, Instant};

/// The fingerprints of a bucket.
type Fingerprints = [u8; SLOTS as usize];

/// How many buckets are scanned in one round.
const BUCKETS: usize = 4096;

/// Buckets of fingerprints that a multiplication mixes, the same at each call. Fingerprints are below
/// 32, so that a scan often finds some.
pub(crate) fn buckets(alloc: Global) -> Result<Vec<Fingerprints>, AllocError> {
    let mut buckets = Vec::new(alloc);
    let mut state = 1;
    for _ in 0..BUCKETS {
        let mut fps = [0; SLOTS as usize];
        for finger in fps.iter_mut() {
            state = next(state);
            *finger = (state >> 59) as u8;
        }
        buckets.push(fps)?;
    }
    Ok(buckets)
}

/// The next state of the generator.
fn next(state: u64) -> u64 {
    state
        .wrapping_mul(6_364_136_223_846_793_005)
        .wrapping_add(1_442_695_040_888_963_407)
}

/// A checksum of what the scan by lanes finds in the buckets.
fn sum_by_lanes(buckets: &[Fingerprints], byte: u8) -> u64 {
    let mut sum: u64 = 0;
    for fps in buckets {
        sum = sum.rotate_left(1) ^ u64::from(scan(*fps, byte));
    }
    sum
}

/// A checksum of what the plain loop finds in the buckets.
fn sum_plain(buckets: &[Fingerprints], byte: u8) -> u64 {
    let mut sum: u64 = 0;
    for fps in buckets {
        sum = sum.rotate_left(1) ^ u64::from(scan_plain(*fps, byte));
    }
    sum
}

/// Prints the two checksums of one round for each fingerprint below 32.
pub(crate) fn print_checksums(rt: &impl Print, buckets: &[Fingerprints]) -> io::Result<()> {
    let mut lanes = 0;
    let mut plain = 0;
    for byte in 0..32 {
        lanes ^= sum_by_lanes(buckets, byte).rotate_left(u32::from(byte));
        plain ^= sum_plain(buckets, byte).rotate_left(u32::from(byte));
    }
    println!(rt; "lanes {lanes:016x}")?;
    println!(rt; "plain {plain:016x}")
}

/// The time of these rounds of one scan, and a checksum that keeps the compiler from dropping them.
fn time_lanes(
    rt: &impl Clock,
    buckets: &[Fingerprints],
    rounds: u32,
) -> io::Result<(Duration, u64)> {
    let mut sum = 0;
    let start = Instant::now(rt)?;
    for round in 0..rounds {
        sum ^= sum_by_lanes(buckets, (round % 32) as u8);
    }
    Ok((start.elapsed(rt)?, sum))
}

/// The same for the plain loop.
fn time_plain(
    rt: &impl Clock,
    buckets: &[Fingerprints],
    rounds: u32,
) -> io::Result<(Duration, u64)> {
    let mut sum = 0;
    let start = Instant::now(rt)?;
    for round in 0..rounds {
        sum ^= sum_plain(buckets, (round % 32) as u8);
    }
    Ok((start.elapsed(rt)?, sum))
}

/// Prints the nanoseconds that a scan takes by lanes and by the plain loop, and their ratio.
pub(crate) fn print_times(
    rt: &(impl Print + Clock),
    buckets: &[Fingerprints],
    rounds: u32,
) -> io::Result<()> {
    let (lanes, lanes_sum) = time_lanes(rt, buckets, rounds)?;
    let (plain, plain_sum) = time_plain(rt, buckets, rounds)?;
    let scans = f64::from(rounds) * nearest_usize_to_f64(buckets.len());
    let lanes = lanes.as_secs_f64() * 1e9 / scans;
    let plain = plain.as_secs_f64() * 1e9 / scans;
    println!(rt; "{rounds} rounds of {} buckets", buckets.len())?;
    println!(rt; "lanes {lanes:.2} ns a scan, checksum {lanes_sum:016x}")?;
    println!(rt; "plain {plain:.2} ns a scan, checksum {plain_sum:016x}")?;
    println!(rt; "the plain loop takes {:.2} times as long", plain / lanes)
}
