//! What a session left, and what many of them did.

ghost use Rattle.std.specs.Prelude.{◌≡◌, ◌<◌, ◌≤◌, ◌^◌, length};
ghost use Rattle.map_model.specs.Roomed.{lists_of};
ghost use Rattle.map_model.specs.Weave.{most_callers};
ghost use Rattle.session.specs.Callers.{open_count};
ghost use Rattle.reply_text.specs.Told.{left_by, tolds_of, replies_in, opens_in};

use image_file::Medium;
use map_model::{FIRST_CALLER, Lists, MOST_CALLERS, Stop};

/// What a session left: each caller's entries, where callers stopped, the image, and how it ended.
#[derive(Drop)]
pub struct Session {
    /// The entries of each caller.
    pub lists: Lists,
    /// Where each caller stopped, caller `C` at place `C - 1`; `None` if all its calls were answered.
    pub stops: [Option<Stop>; MOST_CALLERS as usize],
    /// The image that is left.
    pub medium: Medium,
    /// Whether the session was cut; else it was closed.
    pub cut: bool,
}

// One where a caller that stopped so has a call open, else none.
fn count_open(stop: Option<Stop>) -> u64
    ensures is { result ≡ open_count (left_by stop) }
    ensures few { result ≤ 1 }
{
    match stop {
        Some(stop) if stop.begun => 1,
        _ => 0,
    }
}

impl Session {
    /// How many of its calls have their reply.
    pub fn replies(&self) -> u64
        requires callers { length self.now.lists ≤ most_callers }
        requires few { replies_in (lists_of self.now.lists) < 2 ^ 64 }
        ensures { result ≡ replies_in (lists_of self.now.lists) }
    {
        let mut replies = 0;
        for i in 0..self.lists.callers() {
            replies += self.lists.of(i as u8 + FIRST_CALLER as u8).len() as u64;
        }
        replies
    }

    /// How many of its calls are open: their lines in the transcript say so.
    pub fn opens(&self) -> u64
        requires callers { length self.now.lists ≤ most_callers }
        ensures is { result ≡ opens_in (tolds_of (lists_of self.now.lists) self.now.stops) }
        ensures few { result ≤ most_callers }
    {
        let mut opens = 0;
        for i in 0..self.lists.callers() {
            opens += count_open(self.stops[i]);
        }
        opens
    }
}

/// What sessions one after another did.
#[derive(Clone, Copy, Debug, PartialEq, Eq)]
pub struct StormSum {
    /// How many sessions there were.
    pub sessions: u64,
    /// How many calls have their reply, in all of them.
    pub replies: u64,
    /// How many calls a power cut left open, in all of them.
    pub opens: u64,
    /// How many pairs the image has that the last one left.
    pub pairs: u64,
    /// The version of that image, 1 to 255.
    pub version: u8,
}
