//! Callers that insert a key each, and whose power is cut in the midst of it.

ghost use Rattle.std.specs.Prelude.{◌≡◌, ℕ, ◌<◌};
ghost use Rattle.shared_image.specs.Powered.{IsOn, IsPassOf};
ghost use Rattle.shared_image.specs.Calling.{Rests};

use crate::home::{cut_off, shared};
use image_file::{Words, from_words, list};
use outside::Fuse;
use shared_image::{Caller, Headway, Pass, SharedImage, cut};
use std::alloc::Global;
use std::test::Fail;

/// The pass of a caller that began to insert a key, 1024 or 2048 by its number, with 9, and was cut off behind so many events; and how far
/// that call has come.
fn begin_insert(image: &SharedImage, pass: Pass, number: u8, events: u64) -> (Pass, Headway)
    requires on { IsOn image.now }
    requires pass { IsPassOf image.now pass }
    requires rests { Rests pass }
    requires number { 0 < number }
    ensures pass { IsPassOf image.now result.0 }
    ensures callers { result.0.me.0.view.callers ≡ pass.me.0.view.callers }
{
    let gate = Fuse {
        left: Some(events),
        cut: false,
    };
    let mut caller = Caller::new(image, pass, gate, number);
    let _ = caller.try_insert(1024 * u64::from(number), 9);
    let headway = caller.headway();
    (caller.into_pass(), headway)
}

/// The pairs of the image that a cut leaves, where the first caller had so many events and the second so many.
fn pairs_behind(alloc: Global, first: u64, second: u64) -> Result<Vec<(u64, u64)>, Fail> {
    let (image, mut keeper) = shared(alloc, 2)?;
    let one = cut_off(&image, &mut keeper);
    let two = cut_off(&image, &mut keeper);
    let (one, _) = begin_insert(&image, one, 1, first);
    let (two, _) = begin_insert(&image, two, 2, second);
    let mut passes = Vec::with_capacity(alloc, 2)?;
    passes.push_reserved(one);
    passes.push_reserved(two);
    let words = cut(image, keeper, passes);
    let medium = from_words(alloc, Words::new(words))?;
    Ok(list(alloc, &medium)?)
}

/// Whether these are the pair 5, 7 and, of those that were begun, as many as may be.
fn are_as_begun(pairs: &[(u64, u64)]) -> bool {
    let mut found = false;
    for pair in pairs {
        match *pair {
            (5, 7) => found = true,
            (1024, 9) | (2048, 9) => {}
            _ => return false,
        }
    }
    found
}

#[test]
fn a_cut_leaves_each_insert_whole_or_absent(rt: HostRuntime) -> Result<(), Fail> {
    assert!(rt; pairs_behind(rt.alloc(), 0, 0)?.len() == 1);
    assert!(rt; pairs_behind(rt.alloc(), 150, 150)?.len() == 3);
    for first in 0..40 {
        for second in 0..40 {
            let pairs = pairs_behind(rt.alloc(), first, second)?;
            assert!(rt; are_as_begun(pairs.as_slice()));
        }
    }
    Ok(())
}

/// How far an insert of key 1024 has come that is cut off behind so many events, and the pairs of the image that a cut leaves then.
fn insert_behind(alloc: Global, events: u64) -> Result<(Headway, Vec<(u64, u64)>), Fail> {
    let (image, mut keeper) = shared(alloc, 1)?;
    let pass = cut_off(&image, &mut keeper);
    let (pass, headway) = begin_insert(&image, pass, 1, events);
    let mut passes = Vec::with_capacity(alloc, 1)?;
    passes.push_reserved(pass);
    let words = cut(image, keeper, passes);
    let medium = from_words(alloc, Words::new(words))?;
    Ok((headway, list(alloc, &medium)?))
}

/// Whether the pair 1024, 9 is among these.
fn has_the_insert(pairs: &[(u64, u64)]) -> bool {
    for pair in pairs {
        if pair.0 == 1024 && pair.1 == 9 {
            return true;
        }
    }
    false
}

#[test]
fn an_insert_that_has_its_place_is_there(rt: HostRuntime) -> Result<(), Fail> {
    let mut drawn = false;
    for events in 0..150 {
        let (headway, pairs) = insert_behind(rt.alloc(), events)?;
        assert!(rt; headway.begun == (events > 0));
        match headway.drew {
            Some(place) => {
                assert!(rt; place == 0 && has_the_insert(pairs.as_slice()));
                drawn = true;
            }
            None => assert!(rt; !drawn),
        }
    }
    assert!(rt; drawn);
    Ok(())
}
