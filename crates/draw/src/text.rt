//! The picture as text: a line for the image, one for its directory, and for each segment a line that says what it is and one
//! with a sign for each bucket.

ghost use Rattle.std.specs.Prelude.{◌≡◌, ◌<◌, length};
ghost use Rattle.image_layout.specs.Places.{words_of};
ghost use Rattle.sound_image.specs.Image.{IsSoundImage};

use anyhow::Result;
use image_file::{Medium, check};
use image_layout::{BUCKETS, Geometry, HOMES};
use picture::{all_stashed, entries_of, entry, filled, header_fields, root_depth, sign};
use std::io::Print;

/// The line of an image: what `check` counts.
fn print_image<R: Print>(rt: &R, medium: &Medium) -> Result<()>
    requires { IsSoundImage medium.now.geometry medium.now.words }
{
    let summary = check(medium);
    let clean = if summary.clean { "clean" } else { "unclean" };
    println!(rt;
        "version {}, depth {}, slots {}, live segments {}, pairs {}, {clean}",
        summary.version,
        summary.depth,
        medium.geometry.segments(),
        summary.live,
        summary.pairs
    )?;
    Ok(())
}

/// The line of the directory: its depth, and the slot that each entry names.
fn print_directory<R: Print>(rt: &R, geometry: &Geometry, words: &[u64]) -> Result<()>
    requires { IsSoundImage geometry.now words.now }
{
    let depth = root_depth(geometry, words);
    print!(rt; "directory of depth {depth}:")?;
    for i in 0..entries_of(depth) {
        let slot = entry(geometry, words, depth, i);
        print!(rt; " {slot}")?;
    }
    println!(rt; "")?;
    Ok(())
}

/// The signs of a segment's buckets: the home buckets, a space, and the stash buckets.
fn print_signs<R: Print>(rt: &R, geometry: &Geometry, words: &[u64], s: u64) -> Result<()>
    requires whole { length words.now ≡ words_of geometry.now }
    requires slot { s < geometry.now.segments }
{
    print!(rt; "  ")?;
    for b in 0..BUCKETS {
        if b == HOMES {
            print!(rt; " ")?;
        }
        let sign = sign(filled(geometry, words, s, b));
        print!(rt; "{sign}")?;
    }
    println!(rt; "")?;
    Ok(())
}

/// The lines of the segment in slot `s`.
fn print_segment<R: Print>(rt: &R, geometry: &Geometry, words: &[u64], s: u64) -> Result<()>
    requires whole { length words.now ≡ words_of geometry.now }
    requires slot { s < geometry.now.segments }
{
    let header = header_fields(geometry, words, s);
    let stashed = all_stashed(geometry, words, s);
    println!(rt; "segment {s}: {header}, {stashed} in the stash by its notes")?;
    if !header.is_free() {
        print_signs(rt, geometry, words, s)?;
    }
    Ok(())
}

/// Prints the picture of a sound image as text.
pub fn print<R: Print>(rt: &R, medium: &Medium) -> Result<()>
    requires sound { IsSoundImage medium.now.geometry medium.now.words }
{
    let geometry = &medium.geometry;
    let words = medium.words.as_slice();
    print_image(rt, medium)?;
    print_directory(rt, geometry, words)?;
    for s in 0..geometry.segments() {
        print_segment(rt, geometry, words, s)?;
    }
    Ok(())
}
