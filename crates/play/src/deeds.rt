//! One event of a run state.

ghost use Rattle.std.specs.Prelude.{◌≡◌, ◌+◌, ◌<◌, Some, slice_get, map};
ghost use Rattle.map_model.specs.Roomed.{Roomed};
ghost use Rattle.map_model.specs.declared.call.Call.{Call as SaidCall};
ghost use Rattle.map_model.specs.Weave.{most_callers, keeper_number};
ghost use Rattle.core_run.specs.declared.keeper.Keeper.TheVariants.{Restarting, Open, Closing};
ghost use Rattle.restart_op.specs.Restart.{wanted as restart_wanted};
ghost use Rattle.restart_op.specs.Close.{wanted as close_wanted};
ghost use Rattle.core_run.specs.Engines.{tries_in_vain, Engine as SaidEngine};
ghost use Rattle.core_run.specs.State.{closing_keeper};
ghost use Rattle.play.specs.Callers.{awoken};
ghost use Rattle.play.specs.declared.caller.Caller.{Caller as SaidCaller};
ghost use Rattle.keeping.specs.Asked.{MayBeAsked};
ghost use Rattle.play.specs.RunStates.{StandsSomewhere};
ghost use Rattle.play.specs.Deeds.{MayGo, HasCome, HasEnded, FollowsRestart, FollowsClose, FollowsCall, FollowsDeed, running_in, restarting_keeper, restarting_callers, lists_with};

use crate::caller::{Caller, RunningCall};
use crate::counting::{ends_call, ends_in_again};
use crate::run_state::RunState;
use core_run::{Deed, Keeper};
use keeping::do_event;
use map_model::{Call, Entry, KEEPER_NUMBER};
use op_core::{Ans, Machine, Want};
use pm_trace::Device;
use restart_op::{CloseOp, RestartOp};

/// What ended with an attempt.
#[derive(Clone, Copy)]
struct Ending {
    /// Its call.
    replied: bool,
    /// That attempt alone, which is to be made again.
    again: bool,
}

/// Lets the callers begin, on an image of this version.
fn wake(callers: &mut [Caller], version: u8)
    ensures { callers.new ≡ map (awoken version) callers.old }
{
    for index in 0..callers.len() {
        callers[index].wake(version);
    }
}

/// The close goes on, or is over.
fn closing(op: CloseOp) -> Keeper
    ensures { result ≡ closing_keeper op (close_wanted op) }
{
    if op.want() == Want::Done {
        Keeper::Closed
    } else {
        Keeper::Closing(op)
    }
}

/// Whether an event with this answer tried in vain for the guard of the directory.
fn tries_in_vain(device: &Device, want: Want, ans: Ans) -> bool
    ensures { result ≡ tries_in_vain device.now.shape want ans }
{
    match (want, ans) {
        (Want::Exchange(word, _, _), Ans::Lost(_)) => word == device.geometry().directory_guard(),
        _ => false,
    }
}

impl RunState {
    /// The restart goes on, or leaves the image to the callers.
    fn continue_restart(&mut self, op: RestartOp)
        ensures keeper { self.new.keeper ≡ restarting_keeper op (restart_wanted op) }
        ensures callers { self.new.callers.items ≡ restarting_callers op (restart_wanted op) self.old.callers.items }
        ensures device { self.new.device ≡ self.old.device }
        ensures lists { self.new.lists ≡ self.old.lists }
    {
        if op.want() == Want::Done {
            wake(&mut self.callers, op.end().version);
            self.keeper = Keeper::Open;
        } else {
            self.keeper = Keeper::Restarting(op);
        }
    }

    /// Does an event of the restart.
    fn do_restart_deed(&mut self, op: RestartOp) -> Deed
        requires { MayBeAsked keeper_number (restart_wanted op) self.old.device }
        ensures { FollowsRestart op self.old result self.new }
    {
        let want = op.want();
        let mut next = op;
        next.take(do_event(&mut self.device, KEEPER_NUMBER, want));
        self.continue_restart(next);
        Deed {
            want,
            replied: false,
            again: false,
            tried: false,
            waits: false,
        }
    }

    /// Does an event of the close.
    fn do_close_deed(&mut self, op: CloseOp) -> Deed
        requires { MayBeAsked keeper_number (close_wanted op) self.old.device }
        ensures { FollowsClose op self.old result self.new }
    {
        let want = op.want();
        let mut next = op;
        next.take(do_event(&mut self.device, KEEPER_NUMBER, want));
        self.keeper = closing(next);
        Deed {
            want,
            replied: false,
            again: false,
            tried: false,
            waits: false,
        }
    }

    /// Does an event of caller 0, if it has one left.
    fn do_keeper_deed(&mut self) -> Option<Deed>
        requires { StandsSomewhere self.old }
        ensures { FollowsDeed keeper_number self.old result self.new }
    {
        core_run::deeds_are_well();
        match self.keeper {
            Keeper::Restarting(op) => Some(self.do_restart_deed(op)),
            Keeper::Closing(op) => Some(self.do_close_deed(op)),
            Keeper::Open | Keeper::Closed => None,
        }
    }

    /// An entry of the caller at an index goes into its list, where there is one.
    fn list_entry(&mut self, index: usize, entry: Option<Entry>)
        requires few { index < most_callers }
        requires room { (kept : Roomed) × (slice_get self.old.lists index ≡ Some kept) × (0 < kept.spare) }
        ensures { self.new ≡ record self.old { lists = lists_with self.old.lists index entry } }
    {
        if let Some(entry) = entry {
            self.lists.push(index as u8 + 1, entry);
        }
    }

    // The next is a call of its own, since the room that it needs for an end and an entry would else be got ready at each event.

    /// The attempt of the caller at an index has ended: the caller goes on to the next, and the entry of its call, if that has ended too, is
    /// listed.
    #[inline(never)]
    fn end_attempt(&mut self, index: usize) -> Ending
        requires few { index < most_callers }
        requires come { (call : SaidCall) × (r : SaidCaller) × (e : SaidEngine) × HasCome index call r e self.old }
        ensures { (call : SaidCall) (r : SaidCaller) (e : SaidEngine) → HasCome index call r e self.old → HasEnded index call r e self.old result self.new }
    {
        let caller = &mut self.callers[index];
        let end = caller.end();
        match caller.current() {
            Some(call) => match end {
                Some(its_end) => {
                    let entry = caller.end_attempt(call, its_end);
                    self.list_entry(index, entry);
                    Ending {
                        replied: ends_call(end),
                        again: ends_in_again(end),
                    }
                }
                None => unreachable!(),
            },
            None => unreachable!(),
        }
    }

    /// Does an event of the engine of the caller at an index, in its call.
    fn do_call_deed(&mut self, index: usize, call: Call, want: Want) -> Deed
        requires runs { MayGo index call want self.old }
        requires few { index < most_callers }
        requires may { MayBeAsked (index + 1) want self.old.device }
        ensures { (runs : MayGo index call want self.old) → FollowsCall index call runs.engine self.old result self.new }
    {
        let ans = do_event(&mut self.device, index as u8 + 1, want);
        let tried = tries_in_vain(&self.device, want, ans);
        let caller = &mut self.callers[index];
        let has_ended = caller.take_answer(call, ans);
        let waits = caller.waits_after(tried);
        if !has_ended {
            return Deed {
                want,
                replied: false,
                again: false,
                tried,
                waits,
            };
        }
        let ending = self.end_attempt(index);
        Deed {
            want,
            replied: ending.replied,
            again: ending.again,
            tried,
            waits,
        }
    }

    /// The call of the caller at an index, and the event that it wants, while there are callers' events.
    fn running(&self, index: usize) -> Option<RunningCall>
        ensures { result ≡ running_in self.now.keeper (slice_get self.now.callers.items index) }
    {
        match (&self.keeper, self.callers.get(index)) {
            (Keeper::Open, Some(caller)) => caller.running(),
            _ => None,
        }
    }

    /// Does an event of the caller at an index, if it has one left.
    fn do_caller_deed(&mut self, index: usize) -> Option<Deed>
        requires { StandsSomewhere self.old }
        ensures { FollowsDeed (index + 1) self.old result self.new }
    {
        core_run::deeds_are_well();
        match self.running(index) {
            Some(running) => Some(self.do_call_deed(index, running.call, running.want)),
            None => None,
        }
    }

    /// Does an event of a caller, if it has one left.
    pub(crate) fn do_deed(&mut self, caller: u8) -> Option<Deed>
        requires { StandsSomewhere self.old }
        ensures { FollowsDeed caller self.old result self.new }
    {
        if caller == KEEPER_NUMBER {
            self.do_keeper_deed()
        } else {
            self.do_caller_deed(caller as usize - 1)
        }
    }
}
