//! The machine, its steps, and how it ends.

ghost use Rattle.std.specs.Prelude.{◌≡◌, ◌<◌, ◌≤◌, ◌↔◌, IsTrue};
ghost use Rattle.image_layout.specs.Places.{note_words};
ghost use Rattle.op_core.specs.declared.want.Want.TheVariants as want;
ghost use Rattle.mend_op.specs.Stages.{most};
ghost use Rattle.mend_op.specs.Steps.{own_head_word, word_at, with_word, with_stored, prepared, is_changed, changed_from, due, noting, noted_from, begin_notes, over, rounding, begin, rounded, loaded_by, filled_to, finished, noted, store_wanted, wanted, taken, begun, end_of};

use crate::heads::renewed_head;
use crate::make::made;
use crate::stage::Stage;
use image_layout::{FREE_GUARD, LAST_OF_BUCKETS, NOTE_WORDS, WORDS_OF_BUCKETS};
use op_core::{Ans, Machine, Want};
use repair_op::Guarded;
use rounds::Rounds;
use segment_head::split::finished_head;
use trace::line_of;
use way::{bucket_word, head_word};

/// How a mending ends.
#[derive(Clone, Copy, Debug)]
pub enum MendEnd {
    /// The segment is current, and its guard is given back.
    Repaired,
}

/// Which event comes next.
#[derive(Clone, Copy)]
pub enum MendStep {
    /// The word of this number is to be loaded of the words of the buckets.
    Fill(u16),
    /// The word of this number of those that a stage may change is stored next, in rounds; none is where it is behind the last one.
    Round(Stage, u8, Rounds),
    /// The header of a split that ends is to be stored.
    Finish,
    /// Its line is to be flushed.
    FinishFlush,
    /// And that is to be fenced.
    FinishFence,
    /// The word of this number of those with notes is to be stored.
    Note(u8),
    /// The header with the image's version is to be stored.
    Renew,
    /// Its line is to be flushed.
    RenewFlush,
    /// And that is to be fenced.
    RenewFence,
    /// The guard of the segment is to be given back.
    Give,
    /// It is given back.
    Ended,
}

/// The mending of a segment.
#[derive(Clone, Copy)]
pub struct MendOp {
    /// The segment, with its header as it stands.
    pub guarded: Guarded,
    /// The words of its buckets as they stand, numbered as `word_among_buckets` says.
    pub words: [u64; WORDS_OF_BUCKETS as usize],
    /// What they are to be when the stage is over.
    pub next: [u64; WORDS_OF_BUCKETS as usize],
    /// Where it stands.
    pub step: MendStep,
}

impl MendOp {
    /// Goes on from a segment whose entries are in order.
    pub fn new(guarded: Guarded) -> MendOp
        ensures { result ≡ begun guarded }
    {
        MendOp {
            guarded,
            words: [0; WORDS_OF_BUCKETS as usize],
            next: [0; WORDS_OF_BUCKETS as usize],
            step: MendStep::Fill(0),
        }
    }

    // ---- where words stand

    /// The header word of the segment.
    fn own_head_word(&self) -> u64
        ensures { result ≡ own_head_word self.now }
    {
        head_word(&self.guarded.site.geometry, self.guarded.segment)
    }

    /// The word of the buckets of this number.
    fn word_at(&self, number: u16) -> u64
        ensures { result ≡ word_at self.now number }
    {
        bucket_word(&self.guarded.site.geometry, self.guarded.segment, 0) + u64::from(number)
    }

    // ---- words that are loaded and stored

    /// A word was loaded.
    fn set_word(&mut self, number: u16, seen: u64)
        ensures { self.new ≡ with_word self.old number seen }
    {
        if number <= LAST_OF_BUCKETS {
            self.words[usize::from(number)] = seen;
        }
    }

    /// A word was stored.
    fn set_stored(&mut self, number: u16)
        ensures { self.new ≡ with_stored self.old number }
    {
        if number <= LAST_OF_BUCKETS {
            self.words[usize::from(number)] = self.next[usize::from(number)];
        }
    }

    /// What a stage makes of the words is to be stored.
    fn prepare(&mut self, stage: Stage)
        ensures { self.new ≡ prepared stage self.old }
    {
        let geometry = &self.guarded.site.geometry;
        self.next = made(stage, &self.words, geometry, self.guarded.head);
    }

    /// Whether a word of a stage is another than it is to be.
    fn is_changed(&self, stage: Stage, number: u8) -> bool
        requires { number < most stage }
        ensures { result ≡ is_changed self.now stage number }
    {
        let at = usize::from(stage.place(number));
        self.words[at] != self.next[at]
    }

    /// The first such word from a number on; the number of all where there is none.
    fn changed_from(&self, stage: Stage, from: u8) -> u8
        requires { from ≤ most stage }
        ensures is { result ≡ changed_from self.now stage from }
    {
        for number in from..stage.most() {
            if self.is_changed(stage, number) {
                return number;
            }
        }
        stage.most()
    }

    /// The store that is to come: the word of this number.
    fn due(&self, stage: Stage, number: u8) -> Option<(u64, u64)>
        ensures { result ≡ due self.now stage number }
    {
        if number < stage.most() {
            let place = stage.place(number);
            Some((self.word_at(place), self.next[usize::from(place)]))
        } else {
            None
        }
    }

    // ---- steps

    /// The step in which a word of the notes is stored; where all are, the header is next.
    fn note(&mut self, number: u8)
        ensures { self.new ≡ noting self.old number }
    {
        self.step = if number < NOTE_WORDS {
            MendStep::Note(number)
        } else {
            MendStep::Renew
        };
    }

    /// That of the first one from a number on.
    fn note_from(&mut self, from: u8)
        requires { from ≤ note_words }
        ensures { self.new ≡ noted_from self.old from }
    {
        let number = self.changed_from(Stage::Note, from);
        self.note(number);
    }

    /// The step behind the rounds of a stage.
    fn go_on(&mut self, stage: Stage)
        ensures { self.new ≡ over stage self.old }
    {
        match stage {
            Stage::Clear => self.step = MendStep::Finish,
            Stage::Mend => {
                self.prepare(Stage::Note);
                self.note_from(0);
            }
            Stage::Note => self.step = MendStep::Renew,
        }
    }

    /// The step in which a word of a stage is stored; where all are, and that is settled, the one behind it.
    fn round(&mut self, stage: Stage, number: u8, rounds: Rounds)
        ensures { self.new ≡ rounding stage number rounds self.old }
    {
        match rounds.want(self.due(stage, number)) {
            Some(_) => self.step = MendStep::Round(stage, number, rounds),
            None => self.go_on(stage),
        }
    }

    /// A stage begins that stores in rounds.
    fn begin(&mut self, stage: Stage)
        ensures { self.new ≡ begin stage self.old }
    {
        self.prepare(stage);
        let number = self.changed_from(stage, 0);
        self.round(stage, number, Rounds::begun());
    }

    /// After an event of the rounds.
    fn rounded(&mut self, stage: Stage, number: u8, mut rounds: Rounds)
        ensures { self.new ≡ rounded stage number rounds self.old }
    {
        let next = self.due(stage, number);
        let stores = rounds.stores(next);
        rounds.take(next);
        let number = if stores && number < stage.most() {
            self.set_stored(stage.place(number));
            self.changed_from(stage, number + 1)
        } else {
            number
        };
        self.round(stage, number, rounds);
    }

    /// After the load of a word.
    fn filled(&mut self, number: u16, seen: u64)
        ensures { self.new ≡ filled_to number (with_word self.old number seen) }
    {
        self.set_word(number, seen);
        if number < LAST_OF_BUCKETS {
            self.step = MendStep::Fill(number + 1);
        } else if self.guarded.side.is_some() {
            self.begin(Stage::Clear);
        } else {
            self.begin(Stage::Mend);
        }
    }

    /// After the store of the header of a split that ends.
    fn finished(&mut self)
        ensures { self.new ≡ finished self.old }
    {
        self.guarded.head = finished_head(self.guarded.head);
        self.step = MendStep::FinishFlush;
    }

    /// After the store of a word of the notes.
    fn noted(&mut self, number: u8)
        ensures { self.new ≡ noted self.old number }
    {
        if number < NOTE_WORDS {
            self.set_stored(Stage::Note.place(number));
            self.note_from(number + 1);
        } else {
            self.step = MendStep::Renew;
        }
    }

    // ---- the machine

    /// Whether it wants nothing more.
    pub fn wants_nothing(&self) -> bool
        ensures { IsTrue result ↔ (wanted self.now ≡ want.Done) }
    {
        want_of(self) == Want::Done
    }

    /// How it ended, once it has.
    pub fn end(&self) -> Option<MendEnd>
        ensures { result ≡ end_of self.now }
    {
        match self.step {
            MendStep::Ended => Some(MendEnd::Repaired),
            _ => None,
        }
    }
}

/// The store that is to come, where one is.
fn store_want(next: Option<(u64, u64)>) -> Want
    ensures { result ≡ store_wanted next }
{
    match next {
        Some((word, value)) => Want::Store(word, value),
        None => Want::Done,
    }
}

/// The event that it wants.
fn want_of(op: &MendOp) -> Want
    ensures { result ≡ wanted op.now }
{
    let head = op.own_head_word();
    match &op.step {
        MendStep::Fill(number) => Want::Load(op.word_at(*number)),
        MendStep::Round(stage, number, rounds) => rounds.event(op.due(*stage, *number)),
        MendStep::Finish => Want::Store(head, finished_head(op.guarded.head)),
        MendStep::FinishFlush | MendStep::RenewFlush => Want::Flush(line_of(head)),
        MendStep::FinishFence | MendStep::RenewFence => Want::Fence,
        MendStep::Note(number) => store_want(op.due(Stage::Note, *number)),
        MendStep::Renew => {
            Want::Store(head, renewed_head(op.guarded.site.version, op.guarded.head))
        }
        MendStep::Give => Want::Store(op.guarded.guard(), FREE_GUARD),
        MendStep::Ended => Want::Done,
    }
}

/// What an answer makes of it; one of another kind than was asked for leaves it as it is.
fn take_in(op: &mut MendOp, ans: Ans)
    ensures { op.new ≡ taken op.old ans }
{
    match (op.step, ans) {
        (MendStep::Fill(number), Ans::Value(seen)) => op.filled(number, seen),
        (MendStep::Round(stage, number, rounds), Ans::Passed) => {
            op.rounded(stage, number, rounds);
        }
        (MendStep::Finish, Ans::Passed) => op.finished(),
        (MendStep::FinishFlush, Ans::Passed) => op.step = MendStep::FinishFence,
        (MendStep::FinishFence, Ans::Passed) => op.begin(Stage::Mend),
        (MendStep::Note(number), Ans::Passed) => op.noted(number),
        (MendStep::Renew, Ans::Passed) => op.step = MendStep::RenewFlush,
        (MendStep::RenewFlush, Ans::Passed) => op.step = MendStep::RenewFence,
        (MendStep::RenewFence, Ans::Passed) => op.step = MendStep::Give,
        (MendStep::Give, Ans::Passed) => op.step = MendStep::Ended,
        _ => {}
    }
}

impl Machine for MendOp {
    ghost wanted = { wanted };

    ghost taken = { taken };

    fn want(&self) -> Want {
        want_of(self)
    }

    fn take(&mut self, ans: Ans) {
        take_in(self, ans);
    }
}
