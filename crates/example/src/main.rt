//! The smallest user of the library, without the program: makes an image in memory, plays a script on it, and prints the pairs
//! that are left.
#![tactic(auto)]

ghost use Rattle.std.specs.Prelude.{IfOk};
ghost use Rattle.std.specs.List.Sorted.{IsStrictlyIncreasing};
ghost use Rattle.image_file.specs.Pairs.{keys_of};
ghost use Rattle.example.specs.Leaves.{Leaves};

use anyhow::Result;
use image_file::{format, list};
use image_layout::{Geometry, IDENTITY_KIND};
use play::play;
use script_text::{Mode, parse};
use std::alloc::Global;

/// Two keys come, the first gets another value, and the second goes.
const SCRIPT: &[u8] = b"1 insert 5 7\n1 insert 6 9\n1 update 5 8\n1 remove 6\n";

/// The pairs that a script leaves of a new image of one segment, by rising key.
///
/// # Errors
///
/// The first fault of the script, or want of memory.
fn pairs_after(alloc: Global, script: &[u8]) -> Result<Vec<(u64, u64)>>
    ensures pairs { IfOk result (λ pairs. Leaves script.now pairs.items) }
    ensures rising { IfOk result (λ pairs. IsStrictlyIncreasing (keys_of pairs.items)) }
{
    let image = format(alloc, Geometry::new(1, 0, IDENTITY_KIND)?)?;
    let lines = parse(alloc, Mode::Play, script)?;
    let session = play(alloc, image, &lines)?;
    let pairs = list(alloc, &session.medium)?;
    Ok(pairs)
}

fn main(rt: HostRuntime) -> Result<()> {
    let pairs = pairs_after(rt.alloc(), SCRIPT)?;
    for (key, value) in &pairs {
        println!(rt; "{key} {value}")?;
    }
    Ok(())
}
