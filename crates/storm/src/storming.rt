//! Sessions one after another, and what they did.

ghost use Rattle.std.specs.Prelude.{◌≡◌, ◌+◌, ◌^◌, ◌<◌, ◌≤◌, All, IfOk, length};
ghost use Rattle.map_model.specs.Weave.{most_callers};
ghost use Rattle.script_text.specs.Script.{most_script_lines};
ghost use Rattle.sound_image.specs.Image.{IsSoundImage};
ghost use Rattle.script_text.specs.Calls.{IsLineSoFar};
ghost use Rattle.storm.specs.Storm.{most_sessions, most_calls, storm_shape, IsNew, HasPlayed, IsStorm};

use crate::scripts::{closed_script, cut_script};
use image_file::{Medium, check, format};
use image_layout::Geometry;
use map_model::NoMemory;
use play::play;
use reply_text::StormSum;
use script_text::Script;
use std::alloc::Global;

/// A storm has so many sessions at the most.
pub const MOST_SESSIONS: u64 = 1000;
/// The script of a session has so many calls of each caller at the most.
pub const MOST_CALLS: u64 = 10000;
/// How many slots for segments the image has.
const SEGMENTS: u64 = 64;
/// How deep its directory may become.
const DEPTH: u64 = 6;
/// Its keys are mixed.
const KIND: u64 = 1;

/// What sessions have done so far.
#[derive(Drop)]
pub struct Tally {
    /// The image that the last one left.
    pub medium: Medium,
    /// How many calls have their reply.
    pub replies: u64,
    /// How many are open.
    pub opens: u64,
}

/// No session yet, on a new image.
fn begin(alloc: Global) -> Result<Tally, NoMemory>
    ensures is { IfOk result IsNew }
    ensures sound { IfOk result (λ t. IsSoundImage storm_shape t.medium.words) }
{
    let Ok(geometry) = Geometry::new(SEGMENTS, DEPTH, KIND) else {
        unreachable!()
    };
    Ok(Tally {
        medium: format(alloc, geometry)?,
        replies: 0,
        opens: 0,
    })
}

/// Plays one session more.
fn go_on(alloc: Global, before: Tally, script: &Script) -> Result<Tally, NoMemory>
    requires shape { before.medium.geometry ≡ storm_shape }
    requires sound { IsSoundImage storm_shape before.medium.words }
    requires few { length script.now ≤ most_script_lines }
    requires so_far { All IsLineSoFar script.now }
    requires room { (before.replies + most_script_lines < 2 ^ 64) × (before.opens + most_callers < 2 ^ 64) }
    ensures played { IfOk result (HasPlayed before script.now) }
    ensures shape { IfOk result (λ after. after.medium.geometry ≡ storm_shape) }
    ensures sound { IfOk result (λ after. IsSoundImage storm_shape after.medium.words) }
    ensures few_replies { IfOk result (λ after. after.replies ≤ before.replies + most_script_lines) }
    ensures few_opens { IfOk result (λ after. after.opens ≤ before.opens + most_callers) }
{
    let session = play(alloc, before.medium, script)?;
    let replies = before.replies + session.replies();
    let opens = before.opens + session.opens();
    Ok(Tally {
        medium: session.medium,
        replies,
        opens,
    })
}

/// Runs so many sessions one after another on a new image, each by a script with so many calls of each of four callers, and tells what they
/// did.
///
/// There are 1 to [`MOST_SESSIONS`] sessions, and 1 to [`MOST_CALLS`] calls of each caller in a script; any `seed` will do. All calls,
/// schedules and cuts come from one SplitMix64 stream that begins with it. Each session but the last ends with a power cut, so that of its
/// calls those alone are begun to which its schedule comes, and each begins on what the one before has left; the last one makes all of its
/// calls and closes the image.
///
/// # Errors
///
/// `NoMemory` if memory runs out.
pub fn storm(alloc: Global, seed: u64, sessions: u64, calls: u64) -> Result<StormSum, NoMemory>
    requires sessions { (1 ≤ sessions) × (sessions ≤ most_sessions) }
    requires calls { (1 ≤ calls) × (calls ≤ most_calls) }
    ensures { IfOk result (IsStorm seed sessions calls) }
{
    let mut state = seed;
    let mut tally = begin(alloc)?;
    for _cut in 0..sessions - 1 {
        let script = cut_script(alloc, &mut state, calls)?;
        tally = go_on(alloc, tally, &script)?;
    }
    let script = closed_script(alloc, &mut state, calls)?;
    let last = go_on(alloc, tally, &script)?;
    let summary = check(&last.medium);
    Ok(StormSum {
        sessions,
        replies: last.replies,
        opens: last.opens,
        pairs: summary.pairs,
        version: summary.version,
    })
}
