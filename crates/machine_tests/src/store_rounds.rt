//! The events of some stores in rounds. Each is told by its word and its value, and `-` is none.
use crate::memory::Memory;
use crate::rows::{Deeds, numbers};
use op_core::{Ans, Want};
use rounds::{RoundStep, Rounds};
use std::alloc::Global;
use std::test::Fail;

/// Rounds, and the store that is to come.
#[derive(Drop)]
pub struct Stores {
    rounds: Rounds,
    next: Option<(u64, u64)>,
}

impl Stores {
    /// Before the first.
    pub fn none() -> Stores {
        Stores {
            rounds: Rounds::begun(),
            next: None,
        }
    }
}

impl Deeds for Stores {
    fn begin(&mut self, _memory: &mut Memory, case: &str) -> Result<(), Fail> {
        self.next = None;
        if case != "-" {
            let [word, value, _, _] = numbers(case)?;
            self.next = Some((word, value));
        }
        Ok(())
    }

    fn event(&mut self, _memory: &mut Memory, _ans: Option<Ans>) -> Want {
        let want = self.rounds.event(self.next);
        match want {
            Want::Done => {}
            _ => self.rounds.take(self.next),
        }
        want
    }

    fn keeps(&mut self, _alloc: Global, _ans: Ans) -> Result<bool, Fail> {
        Ok(false)
    }

    fn told(&mut self, alloc: Global, _what: &str) -> Result<String, Fail> {
        let stores = self.rounds.stores(self.next);
        let stand = (
            stores,
            self.rounds.want(self.next),
            self.rounds.round.count() == 0 && matches!(self.rounds.step, RoundStep::Storing),
        );
        Ok(format!(in alloc; "{stand:?}")?)
    }
}

/// Whether the store that is to come is the next event; that event; and whether the rounds are as they begin.
pub const ROWS: &str = "\
# Two lines in a round.
begin 16 5
stands (true, Some(Store(16, 5)), true)
Store(16, 5)
begin 17 6
stands (true, Some(Store(17, 6)), false)
Store(17, 6)
begin 32 7
stands (true, Some(Store(32, 7)), false)
Store(32, 7)
begin -
stands (false, Some(Flush(2)), false)
Flush(2)
stands (false, Some(Flush(4)), false)
Flush(4)
stands (false, Some(Fence), false)
Fence
stands (false, None, true)
Done
# The ninth line waits for a fence; a word of the eighth does not.
begin 80 0
stands (true, Some(Store(80, 0)), true)
Store(80, 0)
begin 88 1
stands (true, Some(Store(88, 1)), false)
Store(88, 1)
begin 96 2
stands (true, Some(Store(96, 2)), false)
Store(96, 2)
begin 104 3
stands (true, Some(Store(104, 3)), false)
Store(104, 3)
begin 112 4
stands (true, Some(Store(112, 4)), false)
Store(112, 4)
begin 120 5
stands (true, Some(Store(120, 5)), false)
Store(120, 5)
begin 128 6
stands (true, Some(Store(128, 6)), false)
Store(128, 6)
begin 136 7
stands (true, Some(Store(136, 7)), false)
Store(136, 7)
begin 143 1
stands (true, Some(Store(143, 1)), false)
begin 144 9
stands (false, Some(Flush(10)), false)
Flush(10)
stands (false, Some(Flush(11)), false)
Flush(11)
stands (false, Some(Flush(12)), false)
Flush(12)
stands (false, Some(Flush(13)), false)
Flush(13)
stands (false, Some(Flush(14)), false)
Flush(14)
stands (false, Some(Flush(15)), false)
Flush(15)
stands (false, Some(Flush(16)), false)
Flush(16)
stands (false, Some(Flush(17)), false)
Flush(17)
stands (false, Some(Fence), false)
Fence
stands (true, Some(Store(144, 9)), true)
";
