//! A small machine, made a part: it reads the commit counter.

ghost use Rattle.std.specs.Prelude.{◌≡◌};
ghost use Rattle.part.specs.Count.{begun, wanted, taken, step_after};

use image_layout::POWER_ON;
use op_core::{Ans, Machine, Want};
use world::Site;

/// How a count ended.
#[derive(Clone, Copy, Debug)]
pub enum CountEnd {
    /// So many changes drew their places since the power came on.
    Counted(u64),
    /// The power is off.
    Off,
}

/// Which event a count does next.
#[derive(Clone, Copy)]
pub enum CountStep {
    /// The power word is to be loaded.
    AskPower,
    /// The commit counter is to be loaded.
    LoadCounter,
    /// Nothing more.
    Ended(CountEnd),
}

/// A count of the changes that drew their places, one attempt. It locks nothing, notes nothing, and gives its caller's call no
/// reply.
#[derive(Clone, Copy)]
pub struct CountOp {
    /// Where the count runs.
    pub site: Site,
    /// Where it stands.
    pub step: CountStep,
}

impl CountOp {
    /// A count that has done nothing yet.
    pub fn new(site: Site) -> CountOp
        ensures { result ≡ begun site }
    {
        CountOp {
            site,
            step: CountStep::AskPower,
        }
    }

    /// The step after a value was loaded.
    fn after(&self, value: u64) -> CountStep
        ensures { result ≡ step_after self.now.step value }
    {
        match self.step {
            CountStep::AskPower if value == POWER_ON => CountStep::LoadCounter,
            CountStep::AskPower => CountStep::Ended(CountEnd::Off),
            CountStep::LoadCounter => CountStep::Ended(CountEnd::Counted(value)),
            CountStep::Ended(_) => self.step,
        }
    }
}

impl Machine for CountOp {
    ghost wanted = { wanted };

    ghost taken = { taken };

    fn want(&self) -> Want {
        match self.step {
            CountStep::AskPower => Want::Power,
            CountStep::LoadCounter => Want::Load(self.site.geometry.counter_word()),
            CountStep::Ended(_) => Want::Done,
        }
    }

    fn take(&mut self, ans: Ans) {
        if let Ans::Value(value) = ans {
            self.step = self.after(value);
        }
    }
}
