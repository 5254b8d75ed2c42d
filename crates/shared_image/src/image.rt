//! What threads may do with a shared image.

use image_layout::Geometry;
use restart_op::Started;
use vlock::{FindReply, ImageSeat, LockReply, OwnedImage, ReadReply};

/// A token with which a thread works on one image. It has no bytes, stands for one caller, and can be neither made nor copied outside.
pub type Pass = ImageSeat;

/// An image in memory that threads share. Nobody outside steps on its words but by its methods.
#[derive(Drop)]
pub struct SharedImage {
    /// The words, and their rule.
    pub(crate) table: OwnedImage,
    /// How they are laid out.
    pub(crate) geometry: Geometry,
    /// What the restart left.
    pub(crate) started: Started,
    /// Room for the words at the close.
    pub(crate) room: Vec<u64>,
}

/// The token of who powered the image on: it stands for all callers whose passes are not cut off yet, and for itself, and closes
/// the image.
#[derive(Drop)]
pub struct Keeper {
    /// Its seat.
    pub(crate) seat: ImageSeat,
}

impl SharedImage {
    ghost use Rattle.std.specs.Prelude.{◌≡◌, ℕ, ◌+◌, ◌-◌, ◌<◌, None};
    ghost use Rattle.image_layout.specs.Places.{bucket_at, buckets};
    ghost use Rattle.world.specs.Facts.{Lives, Current};
    ghost use Rattle.world.specs.Ground.{IsLockWord};
    ghost use Rattle.world.specs.Views.{Has};
    ghost use Rattle.world.specs.Conditions.{IsKnownLock};
    ghost use Rattle.vlock.specs.Buckets.{MayCall, IsBesideNotes, ReadSays, LockSays, LockTook, MayUnlock, Unlocks};
    ghost use Rattle.vlock.specs.Finding.{IsBesideWay, Finds};
    ghost use Rattle.vlock.specs.Seats.{pass_right, note_left, note_right, both};
    ghost use Rattle.shared_image.specs.Powered.{ground_in, IsPassOf, IsOn, IsKeeperOf, callers_left};

    /// A pass for one caller is cut off the keeper; as many as were asked for at power-on may be.
    pub fn split_pass(&self, keeper: &mut Keeper) -> Pass
        requires on { IsOn self.now }
        requires keeper { IsKeeperOf self.now keeper.old }
        requires callers { 1 < callers_left keeper.old }
        ensures keeper { IsKeeperOf self.now keeper.new }
        ensures callers { callers_left keeper.new ≡ callers_left keeper.old - 1 }
        ensures pass { IsPassOf self.now result }
        ensures view { result.me.0 ≡ pass_right keeper.old.seat.me.0 }
    {
        vlock::split_pass(&self.table.shared, &mut keeper.seat)
    }

    /// Finds the segment of a hash, by three events.
    pub fn find_segment(&self, pass: &mut Pass, hash: u64) -> FindReply
        requires on { IsOn self.now }
        requires pass { IsPassOf self.now pass.old }
        requires caller { MayCall pass.old.me.0.view }
        ensures pass { IsPassOf self.now pass.new }
        ensures past { pass.new.me.0.past ≡ pass.old.me.0.past }
        ensures view { IsBesideWay pass.old.me.0.view pass.new.me.0.view }
        ensures caller { MayCall pass.new.me.0.view × (pass.old.me.0.view.answer ≡ None → pass.new.me.0.view.answer ≡ None) }
        ensures finds { Finds (ground_in self.now) hash pass.old.me.0 result pass.new.me.0 }
    {
        vlock::find_segment(
            &self.table.shared,
            &self.geometry,
            pass,
            self.started.version,
            hash,
        )
    }

    /// Reads bucket `bucket`, 0 to 65 with the stash buckets, of the segment in slot `segment`, which the pass knows to be live and
    /// of the image's version.
    pub fn read_bucket(&self, pass: &mut Pass, segment: u64, bucket: u8) -> ReadReply
        requires on { IsOn self.now }
        requires pass { IsPassOf self.now pass.old }
        requires place { (segment < (ground_in self.now).shape.segments) × (bucket < buckets) }
        requires known { Has (Lives segment) pass.old.me.0.view.facts × Has (Current segment) pass.old.me.0.view.facts }
        requires caller { MayCall pass.old.me.0.view × (pass.old.me.0.view.answer ≡ None) }
        ensures pass { IsPassOf self.now pass.new }
        ensures past { pass.new.me.0.past ≡ pass.old.me.0.past }
        ensures view { IsBesideNotes pass.old.me.0.view pass.new.me.0.view }
        ensures read { ReadSays (ground_in self.now) (bucket_at (ground_in self.now).shape segment bucket) pass.old.me.0 result pass.new.me.0 }
    {
        vlock::read_bucket(&self.table.shared, &self.geometry, pass, segment, bucket)
    }

    /// Tries to take the lock of bucket `bucket` of the segment in slot `segment`, which the pass knows to be live and of the
    /// image's version.
    pub fn try_lock(&self, pass: &mut Pass, segment: u64, bucket: u8) -> LockReply
        requires on { IsOn self.now }
        requires pass { IsPassOf self.now pass.old }
        requires place { (segment < (ground_in self.now).shape.segments) × (bucket < buckets) }
        requires known { Has (Lives segment) pass.old.me.0.view.facts × Has (Current segment) pass.old.me.0.view.facts }
        requires caller { MayCall pass.old.me.0.view }
        ensures pass { IsPassOf self.now pass.new }
        ensures past { pass.new.me.0.past ≡ pass.old.me.0.past }
        ensures lock { LockSays (ground_in self.now) (bucket_at (ground_in self.now).shape segment bucket) pass.old.me.0.view result pass.new.me.0.view }
        ensures events { LockTook (bucket_at (ground_in self.now).shape segment bucket) pass.old.me.0.took result pass.new.me.0.took }
    {
        let lock = self.geometry.bucket_at(segment, bucket);
        vlock::try_lock(&self.table.shared, &self.geometry, pass, lock)
    }

    /// Gives the lock of bucket `bucket` of the segment in slot `segment` back, with the next version.
    pub fn unlock(&self, pass: &mut Pass, segment: u64, bucket: u8)
        requires on { IsOn self.now }
        requires pass { IsPassOf self.now pass.old }
        requires place { (segment < (ground_in self.now).shape.segments) × (bucket < buckets) }
        requires caller { MayCall pass.old.me.0.view }
        requires held { MayUnlock pass.old.me.0.view (bucket_at (ground_in self.now).shape segment bucket) }
        ensures pass { IsPassOf self.now pass.new }
        ensures view { (x : ℕ) × Has (bucket_at (ground_in self.now).shape segment bucket, x) pass.old.me.0.view.held
            × Unlocks (ground_in self.now) (bucket_at (ground_in self.now).shape segment bucket) x pass.old.me.0 pass.new.me.0 }
    {
        let lock = self.geometry.bucket_at(segment, bucket);
        vlock::unlock(&self.table.shared, &self.geometry, pass, lock);
    }

    /// Cuts a note off: a pass that has seen what the other has seen, and stands for nobody.
    pub fn note(&self, pass: &mut Pass) -> Pass
        requires on { IsOn self.now }
        requires pass { IsPassOf self.now pass.old }
        ensures pass { IsPassOf self.now pass.new }
        ensures note { IsPassOf self.now result }
        ensures views { (pass.new.me.0 ≡ note_left pass.old.me.0) × (result.me.0 ≡ note_right pass.old.me.0) }
    {
        vlock::split_note(&self.table.shared, pass)
    }

    /// Takes in a note, or a pass that is done with.
    pub fn meet(&self, pass: &mut Pass, other: Pass)
        requires on { IsOn self.now }
        requires pass { IsPassOf self.now pass.old }
        requires other { IsPassOf self.now other }
        requires callers { 0 < pass.old.me.0.view.callers }
        ensures pass { IsPassOf self.now pass.new }
        ensures views { pass.new.me.0 ≡ both pass.old.me.0 other.me.0 }
    {
        vlock::take_in(&self.table.shared, pass, other);
    }
}
