//! What the lines of a schedule do to a run state.

ghost use Rattle.std.specs.Prelude.{◌≡◌, ℕ, None, Some, List};
ghost use Rattle.map_model.specs.Weave.{first_caller};
ghost use Rattle.core_run.specs.Running.{Setup, IsRunning};
ghost use Rattle.core_run.specs.State.{State};
ghost use Rattle.core_run.specs.Run.{drive, restarted, round, rounds, run_out, ready_for, stored_at, line_done, lines_done, closed};
ghost use Rattle.core_run.specs.Wells.{RunsThrough, RunsOut};
ghost use Rattle.play.specs.Callers.{calls_left};
ghost use Rattle.play.specs.RunStates.{Stands, StandsSomewhere, HasTurned, end_state};

use crate::counting::{counts, stops};
use crate::run_state::RunState;
use core_run::{Goal, Keeper};
use map_model::KEEPER_NUMBER;
use restart_op::CloseOp;
use script_text::Line;

impl RunState {
    /// Does one event of a caller, if some are to be counted yet. How many are to be counted then, unless it stops.
    fn take_turn(&mut self, caller: u8, goal: Goal, left: u64) -> Option<u64>
        requires { StandsSomewhere self.old }
        ensures { (t : Setup) (s : State) → Stands t s self.old → HasTurned t s caller goal left result self.new }
    {
        if left == 0 {
            return None;
        }
        let deed = self.do_deed(caller)?;
        if stops(goal, deed) {
            return None;
        }
        let more = if counts(goal, deed) { left - 1 } else { left };
        Some(more)
    }

    /// A caller goes on until so many events are counted, or it stops; at most so many events.
    fn drive(&mut self, most: u64, caller: u8, goal: Goal, n: u64)
        requires { StandsSomewhere self.old }
        ensures { (t : Setup) (s : State) → Stands t s self.old → Stands t (drive t.shape most caller goal n s) self.new }
    {
        let mut left = n;
        for _event in 0..most {
            match self.take_turn(caller, goal, left) {
                Some(more) => left = more,
                None => return,
            }
        }
    }

    /// Brings the restart to its end.
    fn end_restart(&mut self, most: u64)
        requires { StandsSomewhere self.old }
        ensures { (t : Setup) (s : State) → Stands t s self.old → Stands t (restarted t.shape most s) self.new }
    {
        if let Keeper::Restarting(_) = self.keeper {
            self.drive(most, KEEPER_NUMBER, Goal::AnyEvent, most);
        }
    }

    /// Gives each caller a turn, till its call ends, or till it stops.
    fn do_round(&mut self, most: u64)
        requires { StandsSomewhere self.old }
        ensures { (t : Setup) (s : State) → Stands t s self.old → Stands t (round t.shape most first_caller s.core.callers s) self.new }
    {
        for index in 0..self.callers.len() {
            self.drive(most, index as u8 + 1, Goal::Turn, 1);
        }
    }

    /// Whether a caller has a call left.
    fn has_calls(&self) -> bool
        ensures { result ≡ calls_left self.now.callers.items }
    {
        for caller in &self.callers {
            if caller.current().is_some() {
                return true;
            }
        }
        false
    }

    /// Does rounds until no call is left.
    fn do_rounds(&mut self, most: u64)
        requires { StandsSomewhere self.old }
        ensures { (t : Setup) (s : State) → Stands t s self.old → Stands t (rounds t.shape most most s) self.new }
    {
        for _round in 0..most {
            if self.has_calls() {
                self.do_round(most);
            } else {
                return;
            }
        }
    }

    /// The calls run out, and the close begins.
    fn run_out(&mut self, most: u64)
        requires { StandsSomewhere self.old }
        ensures { (t : Setup) (s : State) → Stands t s self.old → IsRunning t (run_out t.shape most s) → Stands t (run_out t.shape most s) self.new }
    {
        self.end_restart(most);
        if let Keeper::Open = self.keeper {
            self.do_rounds(most);
            self.keeper = Keeper::Closing(CloseOp::new(self.device.geometry()));
        }
    }

    /// A line of a caller above 0 lets the restart end first.
    fn make_ready_for(&mut self, most: u64, caller: u8)
        requires { StandsSomewhere self.old }
        ensures { (t : Setup) (s : State) → Stands t s self.old → Stands t (ready_for t.shape most caller s) self.new }
    {
        if caller > KEEPER_NUMBER {
            self.end_restart(most);
        }
    }

    /// A caller that a line names goes on.
    fn go_on(&mut self, most: u64, caller: u8, goal: Goal, n: u64)
        requires { StandsSomewhere self.old }
        ensures { (t : Setup) (s : State) → Stands t s self.old
            → Stands t (drive t.shape most caller goal n (ready_for t.shape most caller s)) self.new }
    {
        self.make_ready_for(most, caller);
        self.drive(most, caller, goal, n);
    }

    /// A caller that a line names goes on to its next store to a word of the image. Behind the image there is no such word, and it
    /// goes on till it stops.
    fn go_to_store(&mut self, most: u64, caller: u8, word: u64)
        requires { StandsSomewhere self.old }
        ensures { (t : Setup) (s : State) → Stands t s self.old
            → Stands t (stored_at t.shape most caller word (ready_for t.shape most caller s)) self.new }
    {
        if word < self.device.geometry().words() {
            self.go_on(most, caller, Goal::StoreTo(word), 1);
        } else {
            self.go_on(most, caller, Goal::AnyEvent, most);
        }
    }

    /// Does one line.
    fn do_line(&mut self, most: u64, line: Line)
        requires { StandsSomewhere self.old }
        ensures { (t : Setup) (s : State) → Stands t s self.old → IsRunning t (line_done t.shape most line s)
            → Stands t (line_done t.shape most line s) self.new }
    {
        match line {
            Line::Step(caller, n) => self.go_on(most, caller, Goal::AnyEvent, n),
            Line::Until(caller, kind, n) => self.go_on(most, caller, Goal::Kind(kind), n),
            Line::At(caller, word) => self.go_to_store(most, caller, word),
            Line::Close => self.run_out(most),
            Line::Call(..) | Line::Fuse(..) | Line::Cut(_) => {}
        }
    }

    /// Does all lines.
    pub(crate) fn do_lines(&mut self, most: u64, lines: &[Line])
        requires { (t : Setup) × (s : State) × Stands t s self.old × RunsThrough t most lines.now s }
        ensures { (t : Setup) (s : State) → Stands t s self.old → RunsThrough t most lines.now s
            → Stands t (lines_done t.shape most lines.now s) self.new }
    {
        for line in lines {
            self.do_line(most, *line);
        }
    }

    /// The calls run out, and the close is brought to its end.
    pub(crate) fn close(&mut self, most: u64)
        requires { (t : Setup) × (s : State) × Stands t s self.old × IsRunning t (run_out t.shape most s) }
        ensures { (t : Setup) (s : State) → Stands t s self.old → IsRunning t (run_out t.shape most s)
            → Stands t (closed t.shape most s) self.new }
    {
        self.run_out(most);
        self.drive(most, KEEPER_NUMBER, Goal::AnyEvent, most);
    }

    /// Ends a run: by a close, where no cut comes before it.
    pub(crate) fn end_run(&mut self, most: u64, cut: Option<u64>)
        requires { (t : Setup) × (s : State) × Stands t s self.old × RunsOut t most cut s }
        ensures { (t : Setup) (s : State) → Stands t s self.old → RunsOut t most cut s → Stands t (end_state t.shape most cut s) self.new }
    {
        match cut {
            None => self.close(most),
            Some(_) => {}
        }
    }
}
