//! A bucket is read, locked and unlocked by single events, and no call waits.

ghost use Rattle.std.specs.Prelude.{◌≡◌, ℕ, ◌+◌, ◌<◌, ◌≢◌, None};
ghost use Rattle.op_core.specs.declared.want.Want.TheVariants.{Load};
ghost use Rattle.bucket_meta.specs.Bucket.{lock_place, lock_bit};
ghost use Rattle.image_layout.specs.Places.{bucket_at, block, buckets};
ghost use Rattle.image_layout.specs.Volatile.{all_words_of};
ghost use Rattle.world.specs.Facts.{Lives, Current};
ghost use Rattle.world.specs.Ground.{IsLockWord, spent_lock};
ghost use Rattle.world.specs.Views.{Has};
ghost use Rattle.world.specs.Kinds.{peeks, looks, glances_word, validates, meets_lock};
ghost use Rattle.world.specs.Conditions.{IsKnownLock};
ghost use Rattle.world.specs.StepKinds.{of_call};
ghost use Rattle.vlock.specs.Ruling.{ground_of};
ghost use Rattle.vlock.specs.Plays.{IsSeatOf, MayDo};
ghost use Rattle.vlock.specs.Buckets.{MayCall, Loads, IsBesideNotes, ReadSays, LockSays, LockTook, TakeTook, WasAt, MayUnlock, Unlocks};

use crate::steps::event;
use crate::table::{Acting, Image, ImageSeat};
use bucket_meta::words::{
    LOCK_PLACE, MARK_PLACE, SPENT_LOCK, is_locked, lock_version, locked, unlocked,
};
use image_layout::{BLOCK, Geometry};
use op_core::{Ans, Want};
use std::marker::Brand;

/// What came of reading a bucket.
#[derive(Clone, Copy, Debug, PartialEq, Eq)]
pub enum ReadReply {
    /// The 32 words that loads found, and that the bucket has all at once in words which meet the invariant with this view
    /// there; its lock was free with this version before the loads and behind them.
    Clean {
        version: u64,
        words: [u64; BLOCK as usize],
    },
    /// The lock was free both times, with these two values of its word, so the words that were loaded say nothing.
    Moved {
        before: u64,
        after: u64,
    },
    /// The lock was held, with this value of its word.
    Held {
        seen: u64,
    },
}

/// What came of trying a lock.
#[derive(Clone, Copy, Debug, PartialEq, Eq)]
pub enum LockReply {
    /// The seat holds the lock, which was free with this version.
    Locked { version: u64 },
    /// The lock was held, with this value of its word.
    Held { seen: u64 },
    /// The lock was found free with the first value of its word, and the exchange found it free with the second.
    Moved { before: u64, after: u64 },
    /// The lock was free with the last version, so nobody takes it any more.
    Spent,
}

/// A load, as one step. The looks below differ in the kind of their step alone, that is in why they are made: what a seat
/// knows behind them is another thing each time.
pub(crate) fn load<N: Acting, E>(
    image: &Image,
    geometry: &Geometry,
    seat: &mut ImageSeat,
    word: u64,
    about: &E,
) -> u64
    requires table { IsSeatOf image.now.table_id image.now.key seat.old }
    requires geometry { geometry.now ≡ image.now.key.geometry }
    requires acting { (ground_of image.now.key ≡ N.ground) × (Load word ≡ N.want) }
    requires word { word < all_words_of image.now.key.geometry }
    requires may { MayDo N.ground N.want N.kind seat.old.me.0.view }
    ensures table { IsSeatOf image.now.table_id image.now.key seat.new }
    ensures view { Loads N.ground word N.kind seat.old.me.0 result seat.new.me.0 }
{
    match event::<N, E>(image, geometry, seat, Want::Load(word), about) {
        Ans::Value(found) => found,
        _ => unreachable!(),
    }
}

/// A first look at a lock word, which is noted where the lock is free.
fn look(image: &Image, geometry: &Geometry, seat: &mut ImageSeat, lock: u64) -> u64
    requires table { IsSeatOf image.now.table_id image.now.key seat.old }
    requires geometry { geometry.now ≡ image.now.key.geometry }
    requires lock { IsKnownLock (ground_of image.now.key) seat.old.me.0.view lock × MayCall seat.old.me.0.view }
    ensures table { IsSeatOf image.now.table_id image.now.key seat.new }
    ensures view { Loads (ground_of image.now.key) lock (λ n. of_call (looks lock)) seat.old.me.0 result seat.new.me.0 }
{
    load::<Brand, u64>(image, geometry, seat, lock, &lock)
}

/// A load of a word of a bucket, which is noted.
fn glance(image: &Image, geometry: &Geometry, seat: &mut ImageSeat, lock: u64, i: u64) -> u64
    requires table { IsSeatOf image.now.table_id image.now.key seat.old }
    requires geometry { geometry.now ≡ image.now.key.geometry }
    requires lock { IsLockWord image.now.key.geometry lock × MayCall seat.old.me.0.view }
    requires inside { (lock_place < i) × (i < block) }
    ensures table { IsSeatOf image.now.table_id image.now.key seat.new }
    ensures view { Loads (ground_of image.now.key) (lock + i) (λ n. of_call (glances_word lock (lock + i))) seat.old.me.0 result seat.new.me.0 }
{
    load::<Brand, (u64, u64)>(image, geometry, seat, lock + i, &(lock, i))
}

/// A last look at a lock word.
fn validate(image: &Image, geometry: &Geometry, seat: &mut ImageSeat, lock: u64) -> u64
    requires table { IsSeatOf image.now.table_id image.now.key seat.old }
    requires geometry { geometry.now ≡ image.now.key.geometry }
    requires lock { IsLockWord image.now.key.geometry lock × MayCall seat.old.me.0.view }
    ensures table { IsSeatOf image.now.table_id image.now.key seat.new }
    ensures view { Loads (ground_of image.now.key) lock (λ n. of_call (validates lock)) seat.old.me.0 result seat.new.me.0 }
{
    load::<Brand, u64>(image, geometry, seat, lock, &lock)
}

/// A look at a lock word by who wants the lock.
fn meet(image: &Image, geometry: &Geometry, seat: &mut ImageSeat, lock: u64) -> u64
    requires table { IsSeatOf image.now.table_id image.now.key seat.old }
    requires geometry { geometry.now ≡ image.now.key.geometry }
    requires lock { IsKnownLock (ground_of image.now.key) seat.old.me.0.view lock × MayCall seat.old.me.0.view }
    ensures table { IsSeatOf image.now.table_id image.now.key seat.new }
    ensures view { Loads (ground_of image.now.key) lock (λ n. of_call (meets_lock lock)) seat.old.me.0 result seat.new.me.0 }
{
    load::<Brand, u64>(image, geometry, seat, lock, &lock)
}

/// A look at a lock word by who holds the lock.
fn peek(image: &Image, geometry: &Geometry, seat: &mut ImageSeat, lock: u64) -> u64
    requires table { IsSeatOf image.now.table_id image.now.key seat.old }
    requires geometry { geometry.now ≡ image.now.key.geometry }
    requires lock { IsLockWord image.now.key.geometry lock × MayCall seat.old.me.0.view }
    ensures table { IsSeatOf image.now.table_id image.now.key seat.new }
    ensures view { Loads (ground_of image.now.key) lock (λ n. of_call (peeks lock)) seat.old.me.0 result seat.new.me.0 }
{
    load::<Brand, u64>(image, geometry, seat, lock, &lock)
}

/// Reads bucket `bucket`, 0 to 65 with the stash buckets, of the segment in slot `segment`, which the seat knows to be live
/// and of the image's version. It looks at the lock word, and where the lock is free it loads the 31 words behind it and
/// looks at the lock word again.
pub fn read_bucket(
    image: &Image,
    geometry: &Geometry,
    seat: &mut ImageSeat,
    segment: u64,
    bucket: u8,
) -> ReadReply
    requires table { IsSeatOf image.now.table_id image.now.key seat.old }
    requires geometry { geometry.now ≡ image.now.key.geometry }
    requires place { (segment < image.now.key.geometry.segments) × (bucket < buckets) }
    requires known { Has (Lives segment) seat.old.me.0.view.facts × Has (Current segment) seat.old.me.0.view.facts }
    requires caller { MayCall seat.old.me.0.view × (seat.old.me.0.view.answer ≡ None) }
    ensures table { IsSeatOf image.now.table_id image.now.key seat.new }
    ensures past { seat.new.me.0.past ≡ seat.old.me.0.past }
    ensures view { IsBesideNotes seat.old.me.0.view seat.new.me.0.view }
    ensures read { ReadSays (ground_of image.now.key) (bucket_at image.now.key.geometry segment bucket) seat.old.me.0 result seat.new.me.0 }
{
    let lock = geometry.bucket_at(segment, bucket);
    let before = look(image, geometry, seat, lock);
    if is_locked(before) {
        return ReadReply::Held { seen: before };
    }
    let mut words = [0; BLOCK as usize];
    words[LOCK_PLACE] = before;
    for i in MARK_PLACE..BLOCK as usize {
        words[i] = glance(image, geometry, seat, lock, i as u64);
    }
    let after = validate(image, geometry, seat, lock);
    if is_locked(after) {
        ReadReply::Held { seen: after }
    } else if after == before {
        let version = lock_version(before);
        ReadReply::Clean { version, words }
    } else {
        ReadReply::Moved { before, after }
    }
}

/// Tries to take a lock whose word was found to be `free`.
fn take(image: &Image, geometry: &Geometry, seat: &mut ImageSeat, lock: u64, free: u64) -> LockReply
    requires table { IsSeatOf image.now.table_id image.now.key seat.old }
    requires geometry { geometry.now ≡ image.now.key.geometry }
    requires lock { IsKnownLock (ground_of image.now.key) seat.old.me.0.view lock × MayCall seat.old.me.0.view }
    requires free { (lock_bit free ≡ 0) × (free ≢ spent_lock) × WasAt (ground_of image.now.key) seat.old.me.0.view lock free }
    ensures table { IsSeatOf image.now.table_id image.now.key seat.new }
    ensures past { seat.new.me.0.past ≡ seat.old.me.0.past }
    ensures lock { LockSays (ground_of image.now.key) lock seat.old.me.0.view result seat.new.me.0.view }
    ensures events { TakeTook lock free seat.old.me.0.took result seat.new.me.0.took }
{
    let want = Want::Exchange(lock, free, locked(free));
    match event::<Brand, (u64, u64)>(image, geometry, seat, want, &(lock, free)) {
        Ans::Won => LockReply::Locked {
            version: lock_version(free),
        },
        Ans::Lost(seen) => {
            if is_locked(seen) {
                LockReply::Held { seen }
            } else {
                LockReply::Moved {
                    before: free,
                    after: seen,
                }
            }
        }
        _ => unreachable!(),
    }
}

/// Tries to take the lock whose word is `lock`, of a bucket of a segment that the seat knows to be live and of the image's
/// version: it looks at the word, and where the lock is free, and not of the last version, it tries one exchange.
pub fn try_lock(image: &Image, geometry: &Geometry, seat: &mut ImageSeat, lock: u64) -> LockReply
    requires table { IsSeatOf image.now.table_id image.now.key seat.old }
    requires geometry { geometry.now ≡ image.now.key.geometry }
    requires lock { IsKnownLock (ground_of image.now.key) seat.old.me.0.view lock × MayCall seat.old.me.0.view }
    ensures table { IsSeatOf image.now.table_id image.now.key seat.new }
    ensures past { seat.new.me.0.past ≡ seat.old.me.0.past }
    ensures lock { LockSays (ground_of image.now.key) lock seat.old.me.0.view result seat.new.me.0.view }
    ensures events { LockTook lock seat.old.me.0.took result seat.new.me.0.took }
{
    let free = meet(image, geometry, seat, lock);
    if is_locked(free) {
        LockReply::Held { seen: free }
    } else if free == SPENT_LOCK {
        LockReply::Spent
    } else {
        take(image, geometry, seat, lock, free)
    }
}

/// Gives the lock back whose word is `lock`, with the next version.
pub fn unlock(image: &Image, geometry: &Geometry, seat: &mut ImageSeat, lock: u64)
    requires table { IsSeatOf image.now.table_id image.now.key seat.old }
    requires geometry { geometry.now ≡ image.now.key.geometry }
    requires lock { IsLockWord image.now.key.geometry lock × MayCall seat.old.me.0.view }
    requires held { MayUnlock seat.old.me.0.view lock }
    ensures table { IsSeatOf image.now.table_id image.now.key seat.new }
    ensures view { (x : ℕ) × Has (lock, x) seat.old.me.0.view.held × Unlocks (ground_of image.now.key) lock x seat.old.me.0 seat.new.me.0 }
{
    let held = peek(image, geometry, seat, lock);
    let want = Want::Store(lock, unlocked(held));
    let _ = event::<Brand, (u64, u64)>(image, geometry, seat, want, &(lock, held));
}
