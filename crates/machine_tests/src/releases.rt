//! Releases of the locks of an insert of key 5, whose home bucket is the first of its segment: their events, their ends, and answers
//! that were not asked for.
use crate::memory::Memory;
use crate::rows::Follows;
use map_model::{Change, Effect};
use op_core::{Machine, Want};
use phase::{Buckets, Held, Kept, Role};
use release_op::{ReleaseEnd, ReleaseOp};
use std::test::Fail;

impl Follows for ReleaseOp {
    /// Its end.
    type Stand = Option<ReleaseEnd>;

    fn begun(memory: &mut Memory, case: &str) -> Result<ReleaseOp, Fail> {
        let held = match case {
            "six" => Held {
                home: Some(0),
                probing: Some(4),
                first: Some(8),
                second: Some(2),
                next: Some(6),
                previous: Some(u64::MAX - 3),
            },
            "two" => Held::none().with(Role::Home, 6).with(Role::First, 2),
            "slot 1" => Held::none().with(Role::Previous, 0),
            _ => Held::none(),
        };
        let effect = Effect::Insert(7);
        let kept = memory.kept(Change { key: 5, effect }, held, Buckets::none());
        let segment = if case == "slot 1" { 1 } else { 0 };
        Ok(ReleaseOp::new(Kept { segment, ..kept }))
    }

    fn stands(&self) -> Self::Stand {
        match self.want() {
            Want::Done => Some(self.end()),
            _ => None,
        }
    }
}

/// Releases of six locks, of two, of one in slot 1, and of none.
pub const ROWS: &str = "\
# Six locks are given back.
begin six
stands None
Store(96, 2) = Passed
stands None
Store(128, 6) = Passed
stands None
Store(2144, 10) = Passed
stands None
Store(2176, 4) = Passed
stands None
Store(160, 8) = Passed
stands None
Store(2112, 18446744073709551614) = Passed
stands Some(NeedSplit(0))
# It tells the slot of its segment.
site 2 1 1 1
begin slot 1
Store(4256, 2) = Passed
stands Some(NeedSplit(1))
# Nothing is decided where no lock was kept.
site 1 0 1 1
begin none
stands Some(Off)
# Behind other answers than those of stores the same is wanted, and at the end behind any.
begin two
keeps Value 3
keeps Lost 1
Store(96, 8) = Passed
keeps Won
Store(2144, 4) = Passed
stands Some(NeedSplit(0))
keeps Passed
stands Some(NeedSplit(0))
";
