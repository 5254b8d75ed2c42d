//! The time that the steps take.

ghost use Rattle.std.specs.Prelude.{◌≤◌, length, IfOk};
ghost use Rattle.sound_image.specs.Image.{IsSoundImage};

use crate::faults::{no_data, no_memory};
use image_file::{
    Medium, WORD_BYTES, Words, check, format, from_bytes, from_words, list, to_bytes,
};
use image_layout::Geometry;
use std::alloc::Global;
use std::fs::{self, Files, OpenFile};
use std::io::{self, Print, Read};
use std::time::{Clock, Instant};

/// How many bytes of a file are read at a time.
const PIECE: usize = 1 << 20;

/// Makes the file of a new image of three slots for segments, reads it, and prints what it holds.
pub(crate) fn print_small(alloc: Global, rt: &impl Print) -> io::Result<()> {
    let Ok(geometry) = Geometry::new(3, 2, 1) else {
        return Err(no_data());
    };
    let Ok(medium) = format(alloc, geometry) else {
        return Err(no_memory());
    };
    let Ok(bytes) = to_bytes(alloc, &medium) else {
        return Err(no_memory());
    };
    let Ok(medium) = from_bytes(alloc, &bytes) else {
        return Err(no_data());
    };
    let summary = check(&medium);
    println!(rt; "bytes {}", bytes.len())?;
    println!(rt;
        "version {} depth {} live {} pairs {}",
        summary.version, summary.depth, summary.live, summary.pairs
    )
}

/// Reads until a buffer is full or the file ends, and returns how many bytes were read.
fn fill<F: Read>(file: &mut F, buffer: &mut [u8]) -> io::Result<usize>
    ensures { IfOk result (λ count. count ≤ length buffer.new) }
{
    let mut filled = 0;
    for _ in 0..=buffer.len() {
        let count = file.read(&mut buffer[filled..])?;
        if count == 0 {
            break;
        }
        filled += count;
    }
    Ok(filled)
}

/// The words of a file, read piece by piece into room that its length tells, so that its bytes are not kept beside them.
fn read_words<R: Files + AllocGlobal>(rt: &R, path: &str) -> io::Result<Words> {
    let mut file = fs::open(rt, path)?;
    let length = file.metadata()?.len();
    let Ok(mut words) = Words::with_room(rt.alloc(), (length / WORD_BYTES as u64) as usize) else {
        return Err(no_memory());
    };
    let mut buffer = vec![in rt.alloc(); 0u8; PIECE]?;
    for _ in 0..=length / PIECE as u64 {
        let count = fill(&mut file, &mut buffer)?;
        if count % WORD_BYTES != 0 {
            return Err(no_data());
        }
        if words.push_bytes(&buffer[..count]).is_err() {
            return Err(no_memory());
        }
    }
    Ok(words)
}

/// Reads the image of a file.
fn print_load<R: Files + AllocGlobal + Print + Clock>(rt: &R, path: &str) -> io::Result<Medium>
    ensures { IfOk result (λ medium. IsSoundImage medium.geometry medium.words) }
{
    let start = Instant::now(rt)?;
    let words = read_words(rt, path)?;
    println!(rt; "read {}", start.elapsed(rt)?.as_nanos())?;
    let start = Instant::now(rt)?;
    let Ok(medium) = from_words(rt.alloc(), words) else {
        return Err(no_data());
    };
    println!(rt; "load {}", start.elapsed(rt)?.as_nanos())?;
    Ok(medium)
}

/// Tells what an image holds.
fn print_held<R: AllocGlobal + Print + Clock>(rt: &R, medium: &Medium) -> io::Result<()>
    requires { IsSoundImage medium.now.geometry medium.now.words }
{
    let start = Instant::now(rt)?;
    let summary = check(medium);
    println!(rt; "check {} {}", start.elapsed(rt)?.as_nanos(), summary.pairs)?;
    let start = Instant::now(rt)?;
    let Ok(pairs) = list(rt.alloc(), medium) else {
        return Err(no_memory());
    };
    println!(rt; "list {} {}", start.elapsed(rt)?.as_nanos(), pairs.len())
}

/// Writes an image to a file.
fn print_store<R: Files + AllocGlobal + Print + Clock>(
    rt: &R,
    medium: &Medium,
    path: &str,
) -> io::Result<()>
    requires { IsSoundImage medium.now.geometry medium.now.words }
{
    let start = Instant::now(rt)?;
    let Ok(bytes) = to_bytes(rt.alloc(), medium) else {
        return Err(no_memory());
    };
    println!(rt; "make {}", start.elapsed(rt)?.as_nanos())?;
    let start = Instant::now(rt)?;
    fs::write(rt, path, &bytes)?;
    println!(rt; "write {}", start.elapsed(rt)?.as_nanos())
}

/// Reads the image at one path, tells what it holds, and writes it to the other, and prints what each step took.
pub(crate) fn print_times<R: Files + AllocGlobal + Print + Clock>(
    rt: &R,
    image: &str,
    copy: &str,
) -> io::Result<()> {
    let medium = print_load(rt, image)?;
    print_held(rt, &medium)?;
    print_store(rt, &medium, copy)
}
