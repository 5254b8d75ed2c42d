//! A small image with the pair 5, 7, and what passes do at the home bucket of key 5.

ghost use Rattle.std.specs.Prelude.{◌≡◌, ℕ, ◌+◌, ◌-◌, ◌<◌, IfOk, IfSome};
ghost use Rattle.world.specs.Ground.{callers_bound};
ghost use Rattle.shared_image.specs.Powered.{IsOn, IsKeeperOf, IsPassOf, ground_in, callers_left};
ghost use Rattle.shared_image.specs.Calling.{Rests};
ghost use Rattle.thread_tests.specs.Ready.{IsReady, HoldsFirst};

use image_file::{Words, from_words};
use shared_image::{Keeper, Pass, SharedImage, power_on};
use std::alloc::Global;
use std::test::Fail;
use vlock::{FindReply, LockReply, ReadReply};

/// How many words an image of one segment has, of depth 0.
const ONE_SEGMENT: usize = 2208;

/// The words, not 0, of a closed image of one segment into which the pair 5, 7 was put.
const PAIR: [(usize, u64); 11] = [
    (0, 0x3130_4845_4853_4144),
    (1, 1),
    (2, 1),
    (16, 257),
    (65, 257),
    (96, 2),
    (97, 1),
    (98, 5),
    (100, 5),
    (101, 7),
    (128, 2),
];

/// That image, powered on for so many callers, with its keeper.
pub(crate) fn shared(alloc: Global, callers: u64) -> Result<(SharedImage, Keeper), Fail>
    requires { callers + 1 < callers_bound }
    ensures on { IfOk result (λ made. IsOn made.0 × IsKeeperOf made.0 made.1) }
    ensures callers { IfOk result (λ made. callers_left made.1 ≡ callers + 1) }
    ensures all { IfOk result (λ made. (ground_in made.0).callers ≡ callers + 1) }
{
    let mut words = vec![in alloc; 0u64; ONE_SEGMENT]?;
    for (at, value) in PAIR {
        if let Some(word) = words.get_mut(at) {
            *word = value;
        }
    }
    let medium = from_words(alloc, Words::new(words))?;
    Ok(power_on(alloc, &medium, callers)?)
}

/// A pass of the image, as it is cut off.
pub(crate) fn cut_off(image: &SharedImage, keeper: &mut Keeper) -> Pass
    requires on { IsOn image.now }
    requires keeper { IsKeeperOf image.now keeper.old }
    requires callers { 1 < callers_left keeper.old }
    ensures keeper { IsKeeperOf image.now keeper.new }
    ensures callers { callers_left keeper.new ≡ callers_left keeper.old - 1 }
    ensures pass { IsPassOf image.now result }
    ensures ready { IsReady result.me.0.view }
    ensures rests { Rests result }
    ensures one { result.me.0.view.callers ≡ 1 }
{
    image.split_pass(keeper)
}

/// What a reader finds of the home bucket of key 5, whose hash is 5; `None` where its segment is not current.
pub(crate) fn read_home(image: &SharedImage, pass: &mut Pass) -> Option<ReadReply>
    requires on { IsOn image.now }
    requires pass { IsPassOf image.now pass.old }
    requires ready { IsReady pass.old.me.0.view }
    ensures pass { IsPassOf image.now pass.new }
    ensures ready { IsReady pass.new.me.0.view }
{
    match image.find_segment(pass, 5) {
        FindReply::Found { segment, .. } => Some(image.read_bucket(pass, segment, 0)),
        FindReply::Astray { .. } | FindReply::Stale { .. } => None,
    }
}

/// Takes the lock of that bucket. It gives the segment of the bucket, where the lock was free.
pub(crate) fn take_home(image: &SharedImage, pass: &mut Pass) -> Option<u64>
    requires on { IsOn image.now }
    requires pass { IsPassOf image.now pass.old }
    requires ready { IsReady pass.old.me.0.view }
    ensures pass { IsPassOf image.now pass.new }
    ensures taken { IfSome result (λ segment. HoldsFirst image.now segment pass.new.me.0.view) }
{
    let FindReply::Found { segment, .. } = image.find_segment(pass, 5) else {
        return None;
    };
    match image.try_lock(pass, segment, 0) {
        LockReply::Locked { .. } => Some(segment),
        LockReply::Held { .. } | LockReply::Moved { .. } | LockReply::Spent => None,
    }
}

/// Whether a bucket has the pair 5, 7 in its first record slot, and had this version.
pub(crate) fn has_pair(reply: Option<ReadReply>, wanted: u64) -> bool {
    match reply {
        Some(ReadReply::Clean { version, words }) => {
            version == wanted && words[4] == 5 && words[5] == 7
        }
        _ => false,
    }
}
