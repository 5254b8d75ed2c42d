//! The program `draw IMAGE [--text]`: prints a picture of the image that a file holds, for people who would rather look. It is an SVG,
//! or text with `--text`. What it counts of each bucket, and where, is what the contracts of `picture` say.
#![tactic(auto)]

ghost use Rattle.std.specs.Prelude.{IfOk};
ghost use Rattle.sound_image.specs.Image.{IsSoundImage};

mod svg;
mod text;

use anyhow::{Context, Result, bail};
use image_file::{Medium, from_bytes};
use std::io::Print;
use std::rt::Files;
use std::{env, fs};

/// The sound image that a file holds.
fn image_at<R: Files + AllocGlobal>(rt: &R, path: &str) -> Result<Medium>
    ensures { IfOk result (λ medium. IsSoundImage medium.geometry medium.words) }
{
    let bytes = fs::read(rt, path).context(format_args!("{path}"))?;
    let medium = from_bytes(rt.alloc(), &bytes).context(format_args!("{path} is no sound image"))?;
    Ok(medium)
}

fn main(rt: HostRuntime) -> Result<()> {
    let arguments: Vec<String> = env::args(&rt)?.collect(rt.alloc())?;
    match arguments.as_slice() {
        [_, path] => svg::print(&rt, &image_at(&rt, path.as_str())?),
        [_, path, option] if option.as_str() == "--text" => text::print(
            &rt,
            &image_at(&rt, path.as_str())?,
        ),
        _ => bail!("usage: draw IMAGE [--text]"),
    }
}
