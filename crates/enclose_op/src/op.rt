//! The machine, its steps, and how it ends.

ghost use Rattle.std.specs.Prelude.{◌≡◌, ◌<◌, ℕ, true, slice_index};
ghost use Rattle.image_layout.specs.Places.{buckets, last_of_buckets};
ghost use Rattle.op_core.specs.declared.want.Want.TheVariants as want;
ghost use Rattle.enclose_op.specs.Whole.{kept_first};
ghost use Rattle.enclose_op.specs.Steps.{begun, giving, next_lock, locked_to, is_followed, headed, word_after, decided, with_word, filled, given_to, wanted, taken, end_at, is_whole};

use crate::enclosed::Enclosed;
use crate::give::{Give, give_from, given};
use bucket_meta::words::{self, MARK_PLACE};
use image_layout::{
    BLOCK_WORDS, BUCKETS, FREE_GUARD, LAST_BUCKET, LAST_OF_BUCKETS, WORDS_OF_BUCKETS,
};
use map_model::{Change, Reply};
use op_core::{Ans, Machine, Want, Why};
use phase::{Take, Taken, take_next, take_want};
use segment_head::word::{depth_of, version_of};
use way::{bucket_word, head_word, is_leading, key_hash};
use world::Site;

/// The lock word of a bucket, by its number in it.
const LOCK_PLACE: u16 = words::LOCK_PLACE as u16;

/// How an attempt is to end once all is given back.
#[derive(Clone, Copy, Debug)]
pub enum NotEnclosed {
    /// It is answered, with its place.
    Replied(Reply, u64),
    /// It is to be made again.
    Again(Why),
    /// There may be room, so that the change is to be tried again.
    Room,
}

/// How an enclosing ends.
#[derive(Clone, Copy, Debug)]
pub enum EncloseEnd {
    /// All is given back.
    Back(NotEnclosed),
    /// The segment is enclosed, and another machine goes on.
    Whole,
    /// It was cut off.
    Off,
}

/// Which event an enclosing does next.
#[derive(Clone, Copy)]
pub enum EncloseStep {
    /// The guard of the segment is to be taken.
    Guard,
    /// The lock of this bucket is to be taken; those of the buckets before it are held.
    Lock(u8, Take),
    /// The header is to be loaded.
    Head,
    /// The word of this number is to be loaded of the words of the buckets.
    Fill(u16),
    /// The commit counter is to be loaded, since the lock word of this bucket is spent; those of the buckets before it are held.
    CountSpent(u8),
    /// The commit counter is to be loaded, since the segment is as deep as the image allows.
    CountDeep,
    /// What is held is given back.
    Give(Give, NotEnclosed),
    /// All is given back.
    Ended(NotEnclosed),
    /// All is held and known, and kept.
    Whole,
}

/// A segment is enclosed that has no room for an insert.
#[derive(Clone, Copy)]
pub struct EncloseOp {
    /// What is enclosed.
    pub enclosed: Enclosed,
    /// Where it stands.
    pub step: EncloseStep,
}

/// The step in which the guard and the locks before a bucket are given back.
fn giving(to: u8, end: NotEnclosed) -> EncloseStep
    ensures { result ≡ giving to end }
{
    EncloseStep::Give(give_from(0, to), end)
}

/// The step after the lock of a bucket was taken.
fn next_lock(bucket: u8) -> EncloseStep
    ensures { result ≡ next_lock bucket }
{
    if bucket < LAST_BUCKET {
        EncloseStep::Lock(bucket + 1, Take::Look)
    } else {
        EncloseStep::Head
    }
}

/// The number of the word that is loaded after one of this number: lock words are left out.
fn word_after(at: u16) -> u16
    requires { at < last_of_buckets }
    ensures { result ≡ word_after at }
{
    if (at + 1) % BLOCK_WORDS == LOCK_PLACE {
        at + (1 + MARK_PLACE as u16)
    } else {
        at + 1
    }
}

impl Enclosed {
    /// Puts a loaded word in its place.
    fn set_word(&mut self, at: u16, seen: u64)
        ensures { self.new ≡ with_word self.old at seen }
    {
        if u64::from(at) < WORDS_OF_BUCKETS {
            self.buckets[usize::from(at)] = seen;
        }
    }

    /// Whether a header is followed: it has the image's version, is that of a normal segment, and covers the hash.
    fn is_followed(&self, head: u64) -> bool
        ensures { result ≡ is_followed self.now head }
    {
        version_of(head) == self.site.version && is_leading(head, self.hash)
    }

    /// What is done once all words are loaded.
    fn decided(&self) -> EncloseStep
        ensures { result ≡ decided self.now }
    {
        if !self.loaded().has_no_room(self.hash) {
            giving(BUCKETS, NotEnclosed::Room)
        } else if u64::from(depth_of(self.head)) == self.site.geometry.depth() {
            EncloseStep::CountDeep
        } else {
            EncloseStep::Whole
        }
    }
}

/// After a look at the lock word of a bucket, or an exchange of it.
fn locked_to(op: &mut EncloseOp, bucket: u8, taken: Taken)
    ensures { op.new ≡ locked_to op.old.enclosed bucket taken }
{
    let word = op.enclosed.lock(bucket);
    match taken {
        Taken::On(take) => op.step = EncloseStep::Lock(bucket, take),
        Taken::Held { free } => {
            if bucket < BUCKETS {
                op.enclosed.locks[usize::from(bucket)] = free;
            }
            op.step = next_lock(bucket);
        }
        Taken::Busy { seen } => {
            op.step = giving(bucket, NotEnclosed::Again(Why::Busy { word, seen }));
        }
        Taken::Moved { before, after } => {
            op.step = giving(
                bucket,
                NotEnclosed::Again(Why::Moved {
                    word,
                    before,
                    after,
                }),
            );
        }
        Taken::Spent => op.step = EncloseStep::CountSpent(bucket),
    }
}

/// After the load of the header.
fn headed(op: &mut EncloseOp, head: u64)
    ensures { op.new ≡ headed op.old.enclosed head }
{
    op.step = if op.enclosed.is_followed(head) {
        EncloseStep::Fill(MARK_PLACE as u16)
    } else {
        giving(BUCKETS, NotEnclosed::Room)
    };
    op.enclosed.head = head;
}

/// After the load of a word of a bucket.
fn filled(op: &mut EncloseOp, at: u16, seen: u64)
    ensures { op.new ≡ filled op.old.enclosed at seen }
{
    op.enclosed.set_word(at, seen);
    op.step = if at < LAST_OF_BUCKETS {
        EncloseStep::Fill(word_after(at))
    } else {
        op.enclosed.decided()
    };
}

/// The step after something was given back.
fn given_to(give: Give, end: NotEnclosed) -> EncloseStep
    ensures { result ≡ given_to give end }
{
    match given(give) {
        Some(more) => EncloseStep::Give(more, end),
        None => EncloseStep::Ended(end),
    }
}

/// What an answer makes of it; one of another kind than was asked for leaves it as it is.
fn take_in(op: &mut EncloseOp, ans: Ans)
    ensures { op.new ≡ taken op.old ans }
{
    match (op.step, ans) {
        (EncloseStep::Guard, Ans::Won) => op.step = EncloseStep::Lock(0, Take::Look),
        (EncloseStep::Guard, Ans::Lost(seen)) => {
            let word = op.enclosed.guard();
            op.step = EncloseStep::Ended(NotEnclosed::Again(Why::Busy { word, seen }));
        }
        (EncloseStep::Lock(bucket, take), ans) => {
            locked_to(op, bucket, take_next(&take, ans));
        }
        (EncloseStep::Head, Ans::Value(head)) => headed(op, head),
        (EncloseStep::Fill(at), Ans::Value(seen)) => filled(op, at, seen),
        (EncloseStep::CountSpent(bucket), Ans::Value(place)) => {
            op.step = giving(bucket, NotEnclosed::Replied(Reply::Spent, place));
        }
        (EncloseStep::CountDeep, Ans::Value(place)) => {
            op.step = giving(BUCKETS, NotEnclosed::Replied(Reply::Deep, place));
        }
        (EncloseStep::Give(give, end), Ans::Passed) => op.step = given_to(give, end),
        _ => {}
    }
}

/// The event that it wants.
fn want_of(op: &EncloseOp) -> Want
    ensures { result ≡ wanted op.now }
{
    let enclosed = &op.enclosed;
    let geometry = &enclosed.site.geometry;
    match &op.step {
        EncloseStep::Guard => {
            Want::Exchange(
                enclosed.guard(),
                FREE_GUARD,
                u64::from(enclosed.site.caller),
            )
        }
        EncloseStep::Lock(bucket, take) => take_want(enclosed.lock(*bucket), take),
        EncloseStep::Head => Want::Load(head_word(geometry, enclosed.segment)),
        EncloseStep::Fill(at) => {
            Want::Load(bucket_word(geometry, enclosed.segment, 0) + u64::from(*at))
        }
        EncloseStep::CountSpent(_) | EncloseStep::CountDeep => Want::Load(geometry.counter_word()),
        EncloseStep::Give(give, _) => enclosed.give(*give),
        EncloseStep::Ended(_) | EncloseStep::Whole => Want::Done,
    }
}

impl EncloseOp {
    /// An enclosing that has done nothing yet, of the segment in which a change found no room.
    pub fn new(site: Site, change: Change, segment: u64) -> EncloseOp
        ensures { result ≡ begun site change segment }
    {
        EncloseOp {
            enclosed: Enclosed {
                site,
                change,
                hash: key_hash(&site.geometry, change.key),
                segment,
                head: 0,
                locks: [0; BUCKETS as usize],
                buckets: [0; WORDS_OF_BUCKETS as usize],
            },
            step: EncloseStep::Guard,
        }
    }

    /// How it ended. It has to want nothing more.
    pub fn end(self) -> EncloseEnd
        requires { wanted self ≡ want.Done }
        ensures { result ≡ end_at self.step }
    {
        match self.step {
            EncloseStep::Ended(end) => EncloseEnd::Back(end),
            EncloseStep::Whole => EncloseEnd::Whole,
            _ => EncloseEnd::Off,
        }
    }

    /// Whether the segment is enclosed: another machine goes on with what is [`enclosed`](EncloseOp::enclosed).
    pub fn hands_on(&self) -> bool
        ensures is { result ≡ is_whole self.now.step }
        ensures no_more { result ≡ true → wanted self.now ≡ want.Done }
    {
        matches!(self.step, EncloseStep::Whole)
    }
}

impl Machine for EncloseOp {
    ghost wanted = { wanted };

    ghost taken = { taken };

    fn want(&self) -> Want {
        want_of(self)
    }

    fn take(&mut self, ans: Ans) {
        take_in(self, ans);
    }
}
