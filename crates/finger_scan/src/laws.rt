//! The two scans give one answer.

ghost use Rattle.std.specs.Prelude.{IsTrue};
ghost use Rattle.finger_scan.specs.Scan.{ScanIsDetermined};

use crate::{scan, scan_plain};
use bucket_meta::words;

/// Two sets that are each what a scan finds are the same set.
pub fn scan_is_determined()
    ensures { ScanIsDetermined }
{}

/// Whether the scan by lanes and the plain loop give the same: they do.
pub fn scans_agree(fps: [u8; words::SLOTS as usize], byte: u8) -> bool
    ensures { IsTrue result }
{
    scan(fps, byte) == scan_plain(fps, byte)
}
