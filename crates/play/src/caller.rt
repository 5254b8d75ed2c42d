//! A caller that runs its calls.

ghost use Rattle.std.specs.Prelude.{◌≡◌, ◌↔◌, ◌&&◌, IsTrue, List, length, slice_get, Some, None, true};
ghost use Rattle.op_core.specs.declared.want.Want.TheVariants as want;
ghost use Rattle.map_model.specs.declared.entry.Entry.{Entry as MadeEntry};
ghost use Rattle.core_run.specs.Engines.{entry_of, engine_for, drawn_by, ended, Engine as SaidEngine, wanted, taken, end_of, reply_of_end, begun, anew, op_part};
ghost use Rattle.core_run.specs.Run.{stop_of};
ghost use Rattle.play.specs.Callers.{caller_of, running_by, taken_to, awoken, told_with, counted_with};

use core_run::{End, Engine};
use map_model::{Call, Entry, Reply, Stop};
use op_core::{Ans, Want};
use world::Site;

/// A caller that runs its calls one after another. Its entries stand in the lists of the run state.
#[derive(Drop)]
pub struct Caller {
    /// Where it runs.
    pub(crate) site: Site,
    /// All its calls.
    pub(crate) calls: Vec<Call>,
    /// How many of them have ended.
    pub(crate) ended: usize,
    /// The engine of the call behind these.
    pub(crate) engine: Option<Engine>,
    /// Whether that call has begun.
    pub(crate) begun: bool,
    /// Its entry, where it drew.
    pub(crate) drew: Option<Entry>,
}

/// A call that runs, and the event that its engine wants.
#[derive(Clone, Copy)]
pub struct RunningCall {
    pub(crate) call: Call,
    pub(crate) want: Want,
}

/// An engine takes the answer to its event, where it stands. Whether that ended its attempt.
fn take(engine: &mut Engine, ans: Ans) -> bool
    ensures engine { engine.new ≡ taken engine.old ans }
    ensures ended { IsTrue result ↔ (wanted (taken engine.old ans) ≡ want.Done) }
{
    engine.take(ans);
    engine.wants_nothing()
}

impl Caller {
    /// The call that is next, or runs.
    pub(crate) fn current(&self) -> Option<Call>
        ensures { result ≡ slice_get self.now.calls.items self.now.ended }
    {
        self.calls.get(self.ended).copied()
    }

    /// Its call and the event that it wants, where it has a call left.
    pub(crate) fn running(&self) -> Option<RunningCall>
        ensures { result ≡ running_by self.now }
    {
        match (self.current(), &self.engine) {
            (Some(call), Some(engine)) => Some(RunningCall {
                call,
                want: engine.next(),
            }),
            _ => None,
        }
    }

    // The next two are calls of their own, since they are made once in a call or less, and what they need would else be got ready at each event.

    /// Its first engine is made, for a call.
    #[inline(never)]
    fn make_engine(&mut self, call: Call)
        ensures { self.new ≡ record self.old { engine = Some (begun self.old.site call) } }
    {
        self.engine = Some(Engine::of(call, self.site));
    }

    /// That call begins, where there is one; else no engine runs any more.
    #[inline(never)]
    fn begin_call(&mut self)
        ensures engine { self.new.engine ≡ engine_for self.old.site (slice_get self.old.calls.items self.old.ended) }
        ensures others { self.new ≡ record self.old { engine = self.new.engine } }
    {
        let site = self.site;
        match self.current() {
            Some(call) => match &mut self.engine {
                Some(engine) => engine.restart(call, site),
                None => self.make_engine(call),
            },
            None => self.engine = None,
        }
    }

    /// The caller begins, on an image of this version.
    pub(crate) fn wake(&mut self, version: u8)
        ensures { self.new ≡ awoken version self.old }
    {
        self.site.version = version;
        self.ended = 0;
        self.begin_call();
        self.begun = false;
        self.drew = None;
    }

    /// The entry of its call.
    fn entry(&self, call: Call, reply: Reply, place: u64) -> Entry
        requires { slice_get self.now.calls.items self.now.ended ≡ Some call }
        ensures { (told : List MadeEntry) → length told ≡ self.now.ended → result ≡ entry_of (caller_of self.now told) call reply place }
    {
        Entry {
            serial: self.ended as u64 + 1,
            call,
            reply,
            place,
            drew: matches!(reply, Reply::Done),
        }
    }

    /// The next attempt of its call begins, after one that ended so.
    fn begin_again(&mut self, call: Call, end: End)
        requires { (e : SaidEngine) × self.old.engine ≡ Some e }
        ensures { self.new ≡ record self.old { engine = Some (anew self.old.site call end); begun = true } }
    {
        let site = self.site;
        match &mut self.engine {
            Some(engine) => engine.renew(call, site, end),
            None => unreachable!(),
        }
        self.begun = true;
    }

    /// An attempt of its call has ended. The entry of the call, if that has ended too.
    pub(crate) fn end_attempt(&mut self, call: Call, end: End) -> Option<Entry>
        requires current { slice_get self.old.calls.items self.old.ended ≡ Some call }
        requires ran { (e : SaidEngine) × self.old.engine ≡ Some e }
        ensures caller { (told : List MadeEntry) → length told ≡ self.old.ended
            → caller_of self.new (told_with result told) ≡ ended (caller_of self.old told) call end (reply_of_end end) }
        ensures count { self.new.ended ≡ counted_with result self.old.ended }
        ensures calls { self.new.calls ≡ self.old.calls }
    {
        self.drew = None;
        match end.reply() {
            Some((reply, place)) => {
                let entry = self.entry(call, reply, place);
                self.ended += 1;
                self.begin_call();
                self.begun = false;
                Some(entry)
            }
            None => {
                self.begin_again(call, end);
                None
            }
        }
    }

    /// Its entry is known, where it drew.
    fn keep_drawn(&mut self, call: Call, ans: Ans)
        requires { slice_get self.old.calls.items self.old.ended ≡ Some call }
        ensures drew { (told : List MadeEntry) → length told ≡ self.old.ended → self.new.drew ≡ drawn_by (caller_of self.old told) call ans }
        ensures others { self.new ≡ record self.old { drew = self.new.drew } }
    {
        if let Ans::Drawn(place) = ans {
            self.drew = Some(self.entry(call, Reply::Done, place));
        }
    }

    /// Its engine takes the answer to its event. Whether that ended its attempt.
    fn answer_engine(&mut self, ans: Ans) -> bool
        requires { (e : SaidEngine) × self.old.engine ≡ Some e }
        ensures taken { (e : SaidEngine) → self.old.engine ≡ Some e → self.new ≡ taken_to (taken e ans) self.old }
        ensures ended { (e : SaidEngine) → self.old.engine ≡ Some e → (IsTrue result ↔ (wanted (taken e ans) ≡ want.Done)) }
    {
        self.begun = true;
        match &mut self.engine {
            Some(engine) => take(engine, ans),
            None => unreachable!(),
        }
    }

    /// Whether its engine waits for the guard of the directory, if its event tried in vain for that.
    pub(crate) fn waits_after(&self, tried: bool) -> bool
        ensures { (e : SaidEngine) → self.now.engine ≡ Some e → result ≡ (tried && op_part.is_waiting e.op) }
    {
        if !tried {
            return false;
        }
        match &self.engine {
            Some(engine) => engine.waits(),
            None => false,
        }
    }

    /// Takes the answer to the event of its engine. Whether that ended its attempt.
    pub(crate) fn take_answer(&mut self, call: Call, ans: Ans) -> bool
        requires current { slice_get self.old.calls.items self.old.ended ≡ Some call }
        requires runs { (e : SaidEngine) × self.old.engine ≡ Some e }
        ensures taken { (e : SaidEngine) → self.old.engine ≡ Some e → self.new ≡ record self.old { engine = Some (taken e ans); begun = true; drew = self.new.drew } }
        ensures drew { (told : List MadeEntry) → length told ≡ self.old.ended → self.new.drew ≡ drawn_by (caller_of self.old told) call ans }
        ensures ended { (e : SaidEngine) → self.old.engine ≡ Some e → (IsTrue result ↔ (wanted (taken e ans) ≡ want.Done)) }
    {
        self.keep_drawn(call, ans);
        self.answer_engine(ans)
    }

    /// How the attempt of its engine ended.
    pub(crate) fn end(&self) -> Option<End>
        requires { (e : SaidEngine) → self.now.engine ≡ Some e → wanted e ≡ want.Done }
        ensures { (e : SaidEngine) → self.now.engine ≡ Some e → result ≡ Some (end_of e) }
    {
        match &self.engine {
            Some(engine) => Some(engine.end()),
            None => None,
        }
    }

    /// Where it stopped, if it has a call left.
    pub(crate) fn stop(&self) -> Option<Stop>
        ensures { (told : List MadeEntry) → length told ≡ self.now.ended → result ≡ stop_of (caller_of self.now told) }
    {
        match self.current() {
            Some(_) => Some(Stop {
                begun: self.begun,
                drew: self.drew,
            }),
            None => None,
        }
    }
}
