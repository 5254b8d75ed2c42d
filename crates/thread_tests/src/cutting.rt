//! Callers whose gate cuts the power: before a call, or in its midst; and one that turns it off for all.

ghost use Rattle.shared_image.specs.Powered.{IsOn, IsPassOf};
ghost use Rattle.shared_image.specs.Calling.{Rests};

use crate::home::{cut_off, shared};
use map_model::Reply;
use outside::Fuse;
use shared_image::{Answer, Caller, Pass, SharedImage};
use std::sync::Wait;
use std::test::Fail;

/// What a caller is told that looks key 5 up, and whose gate lets so many events through: the reply with its place; or, where the call gave
/// up, what its next try is told.
fn look_up<R: Wait>(
    rt: &R,
    image: &SharedImage,
    pass: Pass,
    events: u64,
) -> Result<(Reply, u64), Answer>
    requires on { IsOn image.now }
    requires pass { IsPassOf image.now pass }
    requires rests { Rests pass }
{
    let gate = Fuse {
        left: Some(events),
        cut: false,
    };
    let mut caller = Caller::new(image, pass, gate, 1);
    match caller.get(rt, 5) {
        Some(told) => Ok(told),
        None => Err(caller.try_get(5)),
    }
}

#[test]
fn a_call_that_is_cut_off_gives_up_and_others_go_on(rt: HostRuntime) -> Result<(), Fail> {
    let (image, mut keeper) = shared(rt.alloc(), 3)?;
    let first = cut_off(&image, &mut keeper);
    let second = cut_off(&image, &mut keeper);
    let third = cut_off(&image, &mut keeper);
    let at_once = look_up(&rt, &image, first, 0);
    let in_midst = look_up(&rt, &image, second, 3);
    let whole = look_up(&rt, &image, third, 150);
    assert!(rt; matches!(at_once, Err(Answer::Off)));
    assert!(rt; matches!(in_midst, Err(Answer::Off)));
    assert!(rt; matches!(whole, Ok((Reply::Found(7), 0))));
    Ok(())
}

/// Turns the power off, by a caller that makes no call.
fn turn_off_by(image: &SharedImage, pass: Pass)
    requires on { IsOn image.now }
    requires pass { IsPassOf image.now pass }
    requires rests { Rests pass }
{
    let gate = Fuse {
        left: None,
        cut: false,
    };
    let mut caller = Caller::new(image, pass, gate, 1);
    caller.turn_off();
}

#[test]
fn a_call_gives_up_where_another_caller_has_turned_the_power_off(
    rt: HostRuntime,
) -> Result<(), Fail> {
    let (image, mut keeper) = shared(rt.alloc(), 3)?;
    let first = cut_off(&image, &mut keeper);
    let second = cut_off(&image, &mut keeper);
    let third = cut_off(&image, &mut keeper);
    let before = look_up(&rt, &image, first, 150);
    turn_off_by(&image, second);
    let behind = look_up(&rt, &image, third, 150);
    assert!(rt; matches!(before, Ok((Reply::Found(7), 0))));
    assert!(rt; matches!(behind, Err(Answer::Off)));
    Ok(())
}
