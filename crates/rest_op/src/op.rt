//! The machine, its steps, and how it ends.

ghost use Rattle.std.specs.Prelude.{◌≡◌, ◌<◌, ◌≤◌};
ghost use Rattle.image_layout.specs.Places.{homes, buckets, note_words};
ghost use Rattle.rest_op.specs.Steps.{is_cleared, clear_from, note_home, note_old, note_value, is_noted, note_from, note_word, due, clearing, noting, locks_from, given_to, cleared, begun, begun_in, wanted, taken, end_of};

use bucket_meta::words::{MARK_PLACE, REST_PLACE};
use enclose_op::{Enclosed, Give, given};
use image_layout::{
    BUCKETS, HOMES, NOTE_WORDS, first_among_buckets, home_of_note, is_mark_note, place_of_note,
};
use op_core::{Ans, Machine, Want};
use rounds::Rounds;
use segment_head::split::finished_head;
use trace::line_of;
use way::head_word;
use whole_segment::Notes;

/// How the rest of a split ends.
#[derive(Clone, Copy, Debug)]
pub enum RestEnd {
    /// The split is made, and all is given back.
    Split,
    /// It was cut off.
    Off,
}

/// Which event comes next.
#[derive(Clone, Copy)]
pub enum RestStep {
    /// The records of this bucket that went to the side are cleared next, in rounds; no bucket's are where it is behind the last one.
    Clear(u8, Rounds),
    /// The header is to be stored.
    Head,
    /// Its line is to be flushed.
    HeadFlush,
    /// And that is to be fenced.
    HeadFence,
    /// This word of the notes is to be stored: of each home the first is word 1 and the second word 3.
    Note(u8),
    /// The lock of the first bucket is to be given back.
    Open,
    /// What is still held is given back.
    Give(Give),
    /// All is given back.
    Ended,
}

/// The rest of a split.
#[derive(Clone, Copy)]
pub struct RestOp {
    /// The segment as it was when it was enclosed.
    pub whole: Enclosed,
    /// Word 1 of each bucket without the records that went to the side.
    pub cleared: [u64; BUCKETS as usize],
    /// Words 1 and 3 of each home with the notes of what is left.
    pub notes: Notes,
    /// Where it stands.
    pub step: RestStep,
}

/// The home of a word of the notes, for any number.
fn note_home(number: u8) -> u8
    ensures is { result ≡ note_home number }
    ensures within { result < homes }
{
    home_of_note(number) % HOMES
}

/// One that has stored nothing yet, with these words.
pub(crate) fn begun(whole: Enclosed, cleared: [u64; BUCKETS as usize], notes: Notes) -> RestOp
    ensures { result ≡ begun whole cleared notes }
{
    let op = RestOp {
        whole,
        cleared,
        notes,
        step: RestStep::Ended,
    };
    RestOp {
        step: op.clearing(op.clear_from(0), Rounds::begun()),
        ..op
    }
}

impl RestOp {
    // ---- what is cleared

    /// Whether a bucket has records that are to be cleared.
    fn is_cleared(&self, bucket: u8) -> bool
        requires { bucket < buckets }
        ensures { result ≡ is_cleared self.now bucket }
    {
        self.cleared[usize::from(bucket)]
            != self.whole.buckets[usize::from(first_among_buckets(bucket)) + MARK_PLACE]
    }

    /// The first such bucket from a number on; the number of all buckets where there is none.
    fn clear_from(&self, from: u8) -> u8
        requires { from ≤ buckets }
        ensures is { result ≡ clear_from self.now from }
    {
        for bucket in from..BUCKETS {
            if self.is_cleared(bucket) {
                return bucket;
            }
        }
        BUCKETS
    }

    /// The store that is to come: word 1 of this bucket.
    fn due(&self, bucket: u8) -> Option<(u64, u64)>
        ensures { result ≡ due self.now bucket }
    {
        if bucket < BUCKETS {
            Some((
                self.whole.lock(bucket) + MARK_PLACE as u64,
                self.cleared[usize::from(bucket)],
            ))
        } else {
            None
        }
    }

    /// The step in which a bucket is cleared; where all are, and that is settled, the header is next.
    fn clearing(&self, bucket: u8, rounds: Rounds) -> RestStep
        ensures { result ≡ clearing self.now bucket rounds }
    {
        match rounds.want(self.due(bucket)) {
            Some(_) => RestStep::Clear(bucket, rounds),
            None => RestStep::Head,
        }
    }

    /// After an event of the rounds.
    fn cleared(&self, bucket: u8, mut rounds: Rounds) -> RestStep
        ensures { result ≡ cleared self.now bucket rounds }
    {
        let next = self.due(bucket);
        let bucket = if bucket < BUCKETS && rounds.stores(next) {
            self.clear_from(bucket + 1)
        } else {
            bucket
        };
        rounds.take(next);
        self.clearing(bucket, rounds)
    }

    // ---- notes

    /// What a word of the notes is to be.
    fn note_value(&self, number: u8) -> u64
        ensures { result ≡ note_value self.now number }
    {
        let at = usize::from(note_home(number));
        if is_mark_note(number) {
            self.notes.first[at]
        } else {
            self.notes.third[at]
        }
    }

    /// What it was.
    fn note_old(&self, number: u8) -> u64
        ensures { result ≡ note_old self.now number }
    {
        let home = note_home(number);
        if is_mark_note(number) {
            self.cleared[usize::from(home)]
        } else {
            self.whole.buckets[usize::from(first_among_buckets(home)) + REST_PLACE]
        }
    }

    /// Whether it is another than it was.
    fn is_noted(&self, number: u8) -> bool
        ensures { result ≡ is_noted self.now number }
    {
        self.note_value(number) != self.note_old(number)
    }

    /// The first such word from a number on; the number of all where there is none.
    fn note_from(&self, from: u8) -> u8
        requires { from ≤ note_words }
        ensures is { result ≡ note_from self.now from }
    {
        for number in from..NOTE_WORDS {
            if self.is_noted(number) {
                return number;
            }
        }
        NOTE_WORDS
    }

    /// Where it stands.
    fn note_word(&self, number: u8) -> u64
        ensures { result ≡ note_word self.now number }
    {
        self.whole.lock(note_home(number)) + u64::from(place_of_note(number))
    }

    /// The step in which a word of the notes is stored; where all are, the segment is opened.
    fn noting(&self, number: u8) -> RestStep
        ensures { result ≡ noting number }
    {
        if number < NOTE_WORDS {
            RestStep::Note(number)
        } else {
            RestStep::Open
        }
    }

    // ---- the machine

    /// How it ended.
    pub fn end(&self) -> RestEnd
        ensures { result ≡ end_of self.now }
    {
        match self.step {
            RestStep::Ended => RestEnd::Split,
            _ => RestEnd::Off,
        }
    }
}

/// What is to be given back from the lock of this bucket on.
fn locks_from(bucket: u8) -> Give
    ensures { result ≡ locks_from bucket }
{
    Give::Lock {
        bucket,
        to: BUCKETS,
    }
}

/// After something was given back.
fn given_to(give: Give) -> RestStep
    ensures { result ≡ given_to give }
{
    match given(give) {
        Some(more) => RestStep::Give(more),
        None => RestStep::Ended,
    }
}

/// The event that it wants.
fn want_of(op: &RestOp) -> Want
    ensures { result ≡ wanted op.now }
{
    let whole = &op.whole;
    let head = head_word(&whole.site.geometry, whole.segment);
    match &op.step {
        RestStep::Clear(bucket, rounds) => rounds.event(op.due(*bucket)),
        RestStep::Head => Want::Store(head, finished_head(whole.head)),
        RestStep::HeadFlush => Want::Flush(line_of(head)),
        RestStep::HeadFence => Want::Fence,
        RestStep::Note(number) => Want::Store(op.note_word(*number), op.note_value(*number)),
        RestStep::Open => whole.give(locks_from(0)),
        RestStep::Give(give) => whole.give(*give),
        RestStep::Ended => Want::Done,
    }
}

/// What an answer makes of it; one of another kind than was asked for leaves it as it is.
fn step_after(op: &RestOp, ans: Ans) -> RestStep
    ensures { result ≡ (taken op.now ans).step }
{
    match (op.step, ans) {
        (RestStep::Clear(bucket, rounds), Ans::Passed) => op.cleared(bucket, rounds),
        (RestStep::Head, Ans::Passed) => RestStep::HeadFlush,
        (RestStep::HeadFlush, Ans::Passed) => RestStep::HeadFence,
        (RestStep::HeadFence, Ans::Passed) => op.noting(op.note_from(0)),
        (RestStep::Note(number), Ans::Passed) if number < NOTE_WORDS => {
            op.noting(op.note_from(number + 1))
        }
        (RestStep::Note(_), Ans::Passed) => RestStep::Open,
        (RestStep::Open, Ans::Passed) => RestStep::Give(locks_from(1)),
        (RestStep::Give(give), Ans::Passed) => given_to(give),
        (same, _) => same,
    }
}

impl Machine for RestOp {
    ghost wanted = { wanted };

    ghost taken = { taken };

    fn want(&self) -> Want {
        want_of(self)
    }

    fn take(&mut self, ans: Ans) {
        self.step = step_after(self, ans);
    }
}
