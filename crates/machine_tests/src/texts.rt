//! All texts, and the test that walks them.
use crate::engines::Attempts;
use crate::rows::{follow, walk};
use crate::store_rounds::Stores;
use crate::whole_segments::Segments;
use crate::{
    changes, closes, directories, enclosings, engines, mends, moves, reads, redirects, releases,
    repairs, restarts, rests, splits, stashes, store_rounds, whole_segments,
};
use directory_op::DirectoryOp;
use enclose_op::EncloseOp;
use mend_op::MendOp;
use move_op::MoveOp;
use read_op::ReadOp;
use redirect_op::RedirectOp;
use release_op::ReleaseOp;
use repair_op::RepairOp;
use rest_op::RestOp;
use restart_op::{CloseOp, RestartOp};
use split_op::SplitOp;
use stash_op::StashOp;
use std::alloc::Global;
use std::test::Fail;
use write_op::WriteOp;

/// How many texts there are.
const TEXTS: u8 = 17;

/// Walks the text of this number.
fn walked(alloc: Global, text: u8) -> Result<(), Fail> {
    match text {
        0 => follow::<ReadOp>(alloc, "reads", reads::ROWS),
        1 => follow::<WriteOp>(alloc, "changes", changes::ROWS),
        2 => follow::<MoveOp>(alloc, "moves", moves::ROWS),
        3 => follow::<StashOp>(alloc, "stashes", stashes::ROWS),
        4 => follow::<ReleaseOp>(alloc, "releases", releases::ROWS),
        5 => follow::<EncloseOp>(alloc, "enclosings", enclosings::ROWS),
        6 => follow::<SplitOp>(alloc, "splits", splits::ROWS),
        7 => follow::<DirectoryOp>(alloc, "directories", directories::ROWS),
        8 => follow::<RestOp>(alloc, "rests", rests::ROWS),
        9 => follow::<RepairOp>(alloc, "repairs", repairs::ROWS),
        10 => follow::<RedirectOp>(alloc, "redirects", redirects::ROWS),
        11 => follow::<MendOp>(alloc, "mends", mends::ROWS),
        12 => follow::<RestartOp>(alloc, "restarts", restarts::ROWS),
        13 => follow::<CloseOp>(alloc, "closes", closes::ROWS),
        14 => walk(alloc, &mut Attempts::none(), "engines", engines::ROWS),
        15 => walk(
            alloc,
            &mut Stores::none(),
            "store_rounds",
            store_rounds::ROWS,
        ),
        _ => walk(
            alloc,
            &mut Segments::blank(),
            "whole_segments",
            whole_segments::ROWS,
        ),
    }
}

#[test]
fn texts_hold(rt: HostRuntime) -> Result<(), Fail> {
    for text in 0..TEXTS {
        walked(rt.alloc(), text)?;
    }
    Ok(())
}
