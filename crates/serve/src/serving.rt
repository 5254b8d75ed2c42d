//! The calls of a script are served by threads.

ghost use Rattle.std.specs.Prelude.{◌≡◌, ℕ, ◌+◌, ◌<◌, ◌≤◌, All, IfOk, IsTrue, [], length, map, vec_capacity};
ghost use Rattle.script_text.specs.Script.{most_script_lines};
ghost use Rattle.script_text.specs.Calls.{IsLineSoFar};
ghost use Rattle.map_model.specs.Roomed.{with_room};
ghost use Rattle.map_model.specs.Weave.{most_callers, first_caller, seat_of};
ghost use Rattle.sound_image.specs.Image.{IsSoundImage};
ghost use Rattle.play.specs.Played.{scripts_to};
ghost use Rattle.shared_image.specs.Powered.{IsOn, IsKeeperOf, callers_left};
ghost use Rattle.serve.specs.Jobs.{IsReadyJob, IsLeftJob, HasRoomAt, IsListed, AreCollected};
ghost use Rattle.serve.specs.Served.{IsServe};

use crate::job::Job;
use crate::making::serve_all;
use image_file::{Medium, Words};
use map_model::{Entry, Lists, MOST_CALLERS, NoMemory};
use play::{calls_of_caller, last_caller, runs_are_sessions};
use reply_text::Session;
use script_text::{Line, Script};
use shared_image::{Keeper, Pass, SharedImage, close, power_on};
use std::alloc::Global;
use std::marker::Sync;
use std::sync::Wait;
use std::thread::Threads;

/// The jobs of callers 1 to `last`, whose calls the lines give.
fn jobs_of(
    alloc: Global,
    image: &SharedImage,
    keeper: &mut Keeper,
    lines: &[Line],
    last: u8,
) -> Result<Vec<Job>, NoMemory>
    requires on { IsOn image.now }
    requires keeper { IsKeeperOf image.now keeper.old }
    requires callers { (callers_left keeper.old ≡ last + 1) × (last ≤ most_callers) }
    requires words { All IsLineSoFar lines.now }
    ensures keeper { IfOk result (λ jobs. IsKeeperOf image.now keeper.new × (callers_left keeper.new ≡ 1)) }
    ensures ready { IfOk result (λ jobs. All (IsReadyJob image.now) jobs.items) }
    ensures calls { IfOk result (λ jobs. map (λ j. j.calls.items) jobs.items ≡ scripts_to last lines.now) }
{
    let mut jobs = Vec::with_capacity(alloc, usize::from(last))?;
    for before in 0..last {
        let calls = calls_of_caller(alloc, lines, before + 1)?;
        let told = Vec::with_capacity(alloc, calls.len())?;
        let pass = image.split_pass(keeper);
        jobs.push_reserved(Job {
            pass: Some(pass),
            number: before + 1,
            calls,
            told,
            all: false,
        });
    }
    Ok(jobs)
}

/// For how many entries each caller needs room.
fn rooms_for(alloc: Global, jobs: &[Job]) -> Result<Vec<u64>, NoMemory>
    ensures { IfOk result (λ rooms. rooms.items ≡ map (λ j. length j.calls.items) jobs.now) }
{
    let mut rooms = Vec::with_capacity(alloc, jobs.len())?;
    for job in jobs {
        rooms.push(job.calls.len() as u64)?;
    }
    Ok(rooms)
}

/// The entries of a caller are listed.
fn list_entries(lists: &mut Lists, number: u8, told: &[Entry])
    requires number { (first_caller ≤ number) × (number ≤ length lists.old) }
    requires room { HasRoomAt lists.old (seat_of number) (length told.now) }
    ensures { IsListed lists.old (seat_of number) told.now lists.new }
{
    for i in 0..told.len() {
        lists.push(number, told[i]);
    }
}

/// Takes the passes and the entries of jobs whose calls are made; whether each call has its entry.
fn collect(image: &SharedImage, jobs: Vec<Job>, passes: &mut Vec<Pass>, lists: &mut Lists) -> bool
    requires jobs { All (IsLeftJob image.now) jobs.items }
    requires few { length jobs.items ≤ most_callers }
    requires passes { (passes.old.items ≡ []) × (length jobs.items ≤ vec_capacity passes.old) }
    requires lists { lists.old ≡ map (λ j. with_room (length j.calls.items)) jobs.items }
    ensures { IsTrue result → AreCollected image.now jobs.items passes.new.items lists.new }
{
    let _ = image;
    for job in jobs {
        let number = passes.len() as u8 + 1;
        let Job {
            pass,
            number: _,
            calls: _,
            told,
            all,
        } = job;
        match pass {
            Some(pass) if all => {
                list_entries(lists, number, told.as_slice());
                passes.push_reserved(pass);
            }
            _ => return false,
        }
    }
    true
}

/// Serves the calls of a script on a sound image: the image is powered on, each caller makes its calls in their order, as many at once as there
/// are threads, and when all have their replies the image is closed. All memory is taken before the first call.
///
/// # Errors
///
/// `NoMemory` if memory runs out. Nobody here turns the power off; a call that found it off would be answered so too.
pub fn serve<R: Threads + Wait + Sync>(
    rt: &R,
    alloc: Global,
    medium: Medium,
    script: &Script,
) -> Result<Session, NoMemory>
    requires sound { IsSoundImage medium.geometry medium.words }
    requires few { length script.now ≤ most_script_lines }
    requires so_far { All IsLineSoFar script.now }
    ensures served { IfOk result (IsServe medium.geometry medium.words script.now) }
    ensures few_lists { IfOk result (λ left. length left.lists ≤ most_callers) }
{
    runs_are_sessions();
    let lines = script.as_slice();
    let last = last_caller(lines);
    let geometry = medium.geometry;
    let (image, mut keeper) = power_on(alloc, &medium, u64::from(last))?;
    let mut jobs = jobs_of(alloc, &image, &mut keeper, lines, last)?;
    let rooms = rooms_for(alloc, jobs.as_slice())?;
    let mut lists = Lists::new(alloc, rooms.as_slice())?;
    let mut passes = Vec::with_capacity(alloc, usize::from(last))?;
    serve_all(rt, &image, jobs.as_mut_slice());
    if !collect(&image, jobs, &mut passes, &mut lists) {
        return Err(NoMemory);
    }
    let words = close(image, keeper, passes);
    Ok(Session {
        lists,
        stops: [None; MOST_CALLERS as usize],
        medium: Medium {
            geometry,
            words: Words::new(words),
        },
        cut: false,
    })
}
