//! Passes that read and lock one bucket, one after another and beside one another.

ghost use denote.Param.Send.{IsSync};
ghost use Rattle.shared_image.specs.Powered.{IsOn, IsPassOf};
ghost use Rattle.thread_tests.specs.Ready.{IsReady};

use crate::home::{cut_off, has_pair, read_home, shared, take_home};
use shared_image::{Pass, SharedImage};
use std::marker::Sync;
use std::test::Fail;
use std::thread::{Threads, join};
use vlock::ReadReply;

#[test]
fn a_reader_finds_the_pair_but_while_the_bucket_is_locked(rt: HostRuntime) -> Result<(), Fail> {
    let (image, mut keeper) = shared(rt.alloc(), 2)?;
    let mut reader = cut_off(&image, &mut keeper);
    let mut holder = cut_off(&image, &mut keeper);
    let before = read_home(&image, &mut reader);
    let Some(segment) = take_home(&image, &mut holder) else {
        panic!(rt; "the lock was free")
    };
    let meanwhile = read_home(&image, &mut reader);
    image.unlock(&mut holder, segment, 0);
    let after = read_home(&image, &mut reader);
    assert!(rt; has_pair(before, 1));
    assert_eq!(rt; meanwhile, Some(ReadReply::Held { seen: 3 }));
    assert!(rt; has_pair(after, 2));
    Ok(())
}

/// Whether this is what a reader may find beside one who takes the lock once and gives it back.
fn may_be_found(reply: Option<ReadReply>) -> bool {
    match reply {
        Some(ReadReply::Clean { .. }) => has_pair(reply, 1) || has_pair(reply, 2),
        Some(ReadReply::Held { seen }) => seen == 3,
        Some(ReadReply::Moved { before, after }) => before == 2 && after == 4,
        None => false,
    }
}

/// Takes the lock once and gives it back; whether it did.
fn lock_once(image: &SharedImage, mut holder: Pass) -> bool
    requires on { IsOn image.now }
    requires pass { IsPassOf image.now holder }
    requires ready { IsReady holder.me.0.view }
{
    match take_home(image, &mut holder) {
        Some(segment) => {
            image.unlock(&mut holder, segment, 0);
            true
        }
        None => false,
    }
}

/// One reads the bucket beside one who takes its lock once and gives it back; whether the first found what it may, and the second did that.
fn read_beside<R: Threads + Sync>(
    rt: &R,
    image: &SharedImage,
    mut reader: Pass,
    holder: Pass,
) -> (bool, bool)
    requires on { IsOn image.now }
    requires passes { IsPassOf image.now reader × IsPassOf image.now holder }
    requires ready { IsReady reader.me.0.view × IsReady holder.me.0.view }
{
    join(
        rt,
        move || -> bool
            requires { IsOn image.now × IsPassOf image.now reader × IsReady reader.me.0.view }
        { may_be_found(read_home(image, &mut reader)) },
        move || -> bool
            requires { IsOn image.now × IsPassOf image.now holder × IsReady holder.me.0.view }
        { lock_once(image, holder) },
    )
}

#[test]
fn a_reader_finds_what_it_may_beside_one_who_locks(rt: HostRuntime) -> Result<(), Fail> {
    let (image, mut keeper) = shared(rt.alloc(), 3)?;
    let reader = cut_off(&image, &mut keeper);
    let holder = cut_off(&image, &mut keeper);
    let mut last = cut_off(&image, &mut keeper);
    let (found, locked) = read_beside(&rt, &image, reader, holder);
    assert!(rt; found && locked && has_pair(read_home(&image, &mut last), 2));
    Ok(())
}
