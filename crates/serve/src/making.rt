//! A thread makes the calls of its caller, one after another.

ghost use Rattle.std.specs.Prelude.{◌≡◌, ℕ, ◌≤◌, ◌<◌, All, None, false, [], length, vec_capacity, IsTrue, slice_index_or};
ghost use Rattle.map_model.specs.Map.{is_done};
ghost use Rattle.shared_image.specs.Engines.{IsWordCall};
ghost use Rattle.shared_image.specs.Powered.{IsOn};
ghost use Rattle.shared_image.specs.Calling.{IsCallerOf, Rests};
ghost use Rattle.shared_image.specs.Waiting.{HasFoundOff};
ghost use Rattle.serve.specs.declared.job.Job.{Job};
ghost use Rattle.serve.specs.Jobs.{HasMade, IsReadyJob, ServesJob};

use crate::job::Job;
use map_model::{Call, Entry, MOST_CALLERS, Reply};
use outside::Fuse;
use shared_image::{Caller, Pass, SharedImage};
use std::marker::Sync;
use std::sync::Wait;
use std::thread::{Threads, for_each_mut};

/// The entry of a call that has this reply at this place.
fn entry_of(serial: u64, call: Call, reply: Reply, place: u64) -> Entry
    ensures { result ≡ record { serial = serial; call = call; reply = reply; place = place; drew = is_done reply } }
{
    Entry {
        serial,
        call,
        reply,
        place,
        drew: matches!(reply, Reply::Done),
    }
}

/// Makes calls in their order, by a caller whose gate never cuts the power, and gives the pass back, and whether each has its reply: where one
/// has none, the caller has found the power off.
fn make_all<'a, R: Wait>(
    rt: &R,
    mut caller: Caller<'a, Fuse>,
    calls: &[Call],
    told: &mut Vec<Entry>,
) -> (Pass, bool)
    requires caller { IsCallerOf caller.image.now caller.pass caller.site caller.call }
    requires rests { (caller.off ≡ false) × Rests caller.pass }
    requires gate { caller.gate.left ≡ None }
    requires words { All IsWordCall calls.now }
    requires none { (caller.pass.me.0.view.own ≡ []) × (told.old.items ≡ []) }
    requires room { length calls.now ≤ vec_capacity told.old }
    ensures made { IsTrue result.1 → HasMade caller.entry.image.now calls.now caller.entry.pass.me.0 told.new.items result.0 }
    ensures stopped { result.1 ≡ false → HasFoundOff caller.entry.pass.me.0 result.0.me.0 }
{
    for i in 0..calls.len() {
        let call = calls[i];
        match caller.make(rt, call) {
            Some((reply, place)) => {
                told.push_reserved(entry_of(i as u64 + 1, call, reply, place))
            }
            None => return (caller.into_pass(), false),
        }
    }
    (caller.into_pass(), true)
}

/// Makes the calls of a job.
fn serve_one<R: Wait>(rt: &R, image: &SharedImage, job: &mut Job)
    requires on { IsOn image.now }
    requires ready { IsReadyJob image.now job.old }
    ensures { ServesJob image.now job.old job.new }
{
    if let Some(pass) = job.pass.take() {
        let gate = Fuse {
            left: None,
            cut: false,
        };
        let caller = Caller::new(image, pass, gate, job.number);
        let (pass, all) = make_all(rt, caller, job.calls.as_slice(), &mut job.told);
        job.pass = Some(pass);
        job.all = all;
    }
}

/// How many threads there are at the most: one for each caller.
const MOST_THREADS: usize = MOST_CALLERS as usize;

/// Makes the calls of all jobs, each on a thread of its own where one can be made.
pub(crate) fn serve_all<R: Threads + Wait + Sync>(rt: &R, image: &SharedImage, jobs: &mut [Job])
    requires on { IsOn image.now }
    requires ready { All (IsReadyJob image.now) jobs.old }
    ensures length { length jobs.new ≡ length jobs.old }
    ensures served { (i : ℕ) (d : Job) → i < length jobs.old → ServesJob image.now (slice_index_or jobs.old i d) (slice_index_or jobs.new i d) }
{
    for_each_mut(rt, jobs, MOST_THREADS, &|_, job| serve_one(rt, image, job));
}
