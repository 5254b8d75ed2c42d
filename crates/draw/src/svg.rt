//! The picture as an SVG: the directory, with a square for each entry, in the colour of the slot that it names; and a row for each
//! segment, with a square for each bucket, the darker the fuller. The stash stands apart, and a home bucket with records in the
//! stash has a red edge.

ghost use Rattle.std.specs.Prelude.{◌≡◌, ◌+◌, ◌^◌, ◌<◌, ◌≤◌, length};
ghost use Rattle.image_layout.specs.Places.{buckets, most_depth, words_of};
ghost use Rattle.sound_image.specs.Image.{IsSoundImage};

use anyhow::Result;
use bucket_meta::words::SLOTS;
use image_file::Medium;
use image_layout::{BUCKETS, Geometry, HOMES};
use picture::{entries_of, entry, filled, header_fields, root_depth, stashed};
use std::io::Print;

/// The edge of a square and the height of a row.
const EDGE: u64 = 12;

const ROW: u64 = 34;

/// How many entries of the directory stand beside one another.
const BESIDE: u64 = 64;

/// By how much the square of a bucket is darker for each record.
const SHADE: u8 = 18;

/// The hue of a slot, by which its entries and its row are found.
fn hue_of(slot: u64) -> u64 {
    slot % 360 * 47 % 360
}

/// The square of an entry.
fn print_entry<R: Print>(rt: &R, i: u64, slot: u64) -> Result<()>
    requires { i < 2 ^ most_depth }
{
    let left = EDGE + EDGE * (i % BESIDE);
    let top = EDGE * (i / BESIDE) + 8;
    let hue = hue_of(slot);
    println!(rt;
        "<rect x='{left}' y='{top}' width='10' height='10' fill='hsl({hue},70%,60%)'><title>entry {i}: slot {slot}</title></rect>"
    )?;
    Ok(())
}

/// The directory: a square for each entry.
fn print_directory<R: Print>(rt: &R, geometry: &Geometry, words: &[u64]) -> Result<()>
    requires { IsSoundImage geometry.now words.now }
{
    let depth = root_depth(geometry, words);
    for i in 0..entries_of(depth) {
        print_entry(rt, i, entry(geometry, words, depth, i))?;
    }
    Ok(())
}

/// How high the directory is.
fn directory_height(geometry: &Geometry, words: &[u64]) -> u64
    requires { IsSoundImage geometry.now words.now }
    ensures { result ≤ 20000 }
{
    EDGE * (entries_of(root_depth(geometry, words)) / BESIDE + 1) + 8
}

/// The left edge of bucket `b`: behind the home buckets there is room of one.
fn left_of(b: u8) -> u64 {
    let before = u64::from(b) + u64::from(b >= HOMES);
    EDGE + EDGE * before
}

/// The square of a bucket: from white for no record to black for 14.
fn print_bucket<R: Print>(
    rt: &R,
    geometry: &Geometry,
    words: &[u64],
    s: u64,
    b: u8,
    top: u64,
) -> Result<()>
    requires whole { length words.now ≡ words_of geometry.now }
    requires slot { s < geometry.now.segments }
    requires bucket { b < buckets }
{
    let records = filled(geometry, words, s, b);
    let stashed = stashed(geometry, words, s, b);
    let light = SHADE * (SLOTS - records);
    let left = left_of(b);
    let edge = if stashed > 0 { "red" } else { "gray" };
    println!(rt;
        "<rect x='{left}' y='{top}' width='10' height='10' fill='rgb({light},{light},{light})' stroke='{edge}'><title>bucket {b}: {records} records, {stashed} in the stash</title></rect>"
    )?;
    Ok(())
}

/// The row of the segment in slot `s`, from `top` on.
fn print_row<R: Print>(rt: &R, geometry: &Geometry, words: &[u64], s: u64, top: u64) -> Result<()>
    requires whole { length words.now ≡ words_of geometry.now }
    requires slot { s < geometry.now.segments }
    requires room { top + 12 < 2 ^ 64 }
{
    let header = header_fields(geometry, words, s);
    let line = top + 12;
    let hue = hue_of(s);
    println!(rt;
        "<text x='{EDGE}' y='{top}' fill='hsl({hue},70%,30%)'>segment {s}: {header}</text>"
    )?;
    for b in 0..BUCKETS {
        print_bucket(rt, geometry, words, s, b, line)?;
    }
    Ok(())
}

/// Prints the picture of a sound image as an SVG.
pub fn print<R: Print>(rt: &R, medium: &Medium) -> Result<()>
    requires sound { IsSoundImage medium.now.geometry medium.now.words }
{
    let geometry = &medium.geometry;
    let words = medium.words.as_slice();
    let above = directory_height(geometry, words);
    let height = above + ROW * (geometry.segments() + 1);
    println!(rt;
        "<svg xmlns='http://www.w3.org/2000/svg' width='840' height='{height}' font-family='monospace' font-size='11'>"
    )?;
    print_directory(rt, geometry, words)?;
    for s in 0..geometry.segments() {
        print_row(rt, geometry, words, s, above + ROW * s + 20)?;
    }
    println!(rt; "</svg>")?;
    Ok(())
}
