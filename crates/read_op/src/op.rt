//! The machine.

ghost use Rattle.std.specs.Prelude.{◌≡◌, ◌↔◌, IsTrue, false, ◌<◌, ◌≤◌, ◌^◌};
ghost use Rattle.op_core.specs.declared.want.Want.TheVariants as want;
ghost use Rattle.op_core.specs.declared.want.Ans.TheVariants.{Value};
ghost use Rattle.image_layout.specs.Places.{most_words};
ghost use Rattle.phase.specs.Loads.{load_begun};
ghost use Rattle.read_op.specs.declared.step.ReadStep.TheVariants as steps;
ghost use Rattle.read_op.specs.declared.step.ReadStep.TheVariants.{Ended};
ghost use Rattle.read_op.specs.Steps.{begun, seen_none, wanted, taken, moved, busy, end_of, walked_to, visit_first, visit_second, with_free, looked, with_value, read_home, read_probing, read_all, relook_first, relook_second, relook_next, relooked, backed_to, is_filling, read_on, next_in, lock_of};

use crate::role::{Free, free_at};
use crate::slots::value_of;
use crate::step::{ReadEnd, ReadStep, Seen, Task};
use bucket_meta::words::{
    BUCKET_WORDS, FIRST_STASH_INDEX, MARK_PLACE, REST_PLACE, SECOND_STASH_INDEX, is_locked,
    must_visit,
};
use hash_word::finger;
use op_core::{Ans, Machine, Want, Why};
use phase::{
    Back, Backed, Load, Path, Role, Walk, Walked, back_next, back_want, load_put, load_want,
    lock_word, walk_next, walk_want,
};
use way::key_hash;
use world::Site;

/// A get over the home bucket, the probing bucket and the stash, one attempt.
#[derive(Clone, Copy)]
pub struct ReadOp {
    /// What stays the same.
    pub task: Task,
    /// Where it stands.
    pub step: ReadStep,
}

/// The end of an attempt that found a word changed.
fn moved(word: u64, before: u64, after: u64) -> ReadStep
    ensures { result ≡ moved word before after }
{
    ReadStep::Ended(ReadEnd::Again(Why::Moved {
        word,
        before,
        after,
    }))
}

/// The end of an attempt that found a lock taken.
fn busy(word: u64, seen: u64) -> ReadStep
    ensures { result ≡ busy word seen }
{
    ReadStep::Ended(ReadEnd::Again(Why::Busy { word, seen }))
}

/// What a get ends with if all words were found the same.
fn end_of(value: Option<u64>, place: u64) -> ReadEnd
    ensures { result ≡ end_of value place }
{
    match value {
        Some(value) => ReadEnd::Found(value, place),
        None => ReadEnd::Absent(place),
    }
}

// ---- the way

/// Nothing was seen in a segment yet.
fn seen_none(path: Path) -> Seen
    ensures { result ≡ seen_none path }
{
    Seen {
        path,
        free: Free {
            home: 0,
            probing: 0,
            first: 0,
            second: 0,
        },
        meta: 0,
        fingers: 0,
        first: false,
        second: false,
        value: None,
    }
}

/// The step after a word on the way.
fn walked_to(walked: Walked) -> ReadStep
    ensures { result ≡ walked_to walked }
{
    match walked {
        Walked::On(walk) => ReadStep::Way(walk),
        Walked::There(path) => look(seen_none(path), Role::Home),
        Walked::Off => ReadStep::Ended(ReadEnd::Off),
        Walked::Amiss { word, seen } => moved(word, seen, seen),
        Walked::Stale { segment, version } => ReadStep::Ended(ReadEnd::Stale(segment, version)),
    }
}

// ---- looks at lock words

/// The step that looks at the lock word of a bucket.
fn look(seen: Seen, place: Role) -> ReadStep
    ensures { result ≡ steps.Look seen place }
{
    ReadStep::Look { seen, place }
}

/// The step that begins to load a bucket's words.
fn fill(seen: Seen, place: Role) -> ReadStep
    ensures { result ≡ steps.Fill seen place load_begun }
{
    ReadStep::Fill {
        seen,
        place,
        load: Load::begin(),
    }
}

/// The step where the second stash bucket is next.
fn visit_second(seen: Seen) -> ReadStep
    ensures { result ≡ visit_second seen }
{
    if seen.second {
        look(seen, Role::Second)
    } else {
        ReadStep::Count { seen }
    }
}

/// The step where the first one is next.
fn visit_first(seen: Seen) -> ReadStep
    ensures { result ≡ visit_first seen }
{
    if seen.first {
        look(seen, Role::First)
    } else {
        visit_second(seen)
    }
}

/// What was seen, with the free value of a lock word.
fn with_free(seen: Seen, place: Role, free: u64) -> Seen
    ensures { result ≡ with_free seen place free }
{
    let mut with = seen;
    match place {
        Role::Home => with.free.home = free,
        Role::Probing => with.free.probing = free,
        Role::First => with.free.first = free,
        Role::Second => with.free.second = free,
        Role::Next | Role::Previous => {}
    }
    with
}

/// The step after a lock word that was free: both of home and probing bucket come before the words of either.
fn looked(seen: Seen, place: Role) -> ReadStep
    ensures { result ≡ looked seen place }
{
    match place {
        Role::Home => look(seen, Role::Probing),
        Role::Probing => fill(seen, Role::Home),
        Role::First | Role::Second | Role::Next | Role::Previous => fill(seen, place),
    }
}

// ---- buckets

/// What was seen, with what the key has in a bucket of these words.
fn with_value(seen: Seen, key: u64, words: &[u64; BUCKET_WORDS]) -> Seen
    ensures { result ≡ with_value key seen words.now }
{
    let mut with = seen;
    with.value = value_of(words, key).or(seen.value);
    with
}

/// What was seen, once the home bucket is loaded.
fn read_home(seen: Seen, key: u64, words: &[u64; BUCKET_WORDS]) -> Seen
    ensures { result ≡ read_home key seen words.now }
{
    let mut with = with_value(seen, key, words);
    with.meta = words[MARK_PLACE];
    with.fingers = words[REST_PLACE];
    with
}

/// What was seen, once the probing bucket is loaded too.
fn read_probing(seen: Seen, key: u64, hash: u64, words: &[u64; BUCKET_WORDS]) -> Seen
    ensures { result ≡ read_probing key hash seen words.now }
{
    let mut with = with_value(seen, key, words);
    with.first = must_visit(
        seen.meta,
        seen.fingers,
        words[MARK_PLACE],
        words[REST_PLACE],
        finger(hash),
        FIRST_STASH_INDEX,
    );
    with.second = must_visit(
        seen.meta,
        seen.fingers,
        words[MARK_PLACE],
        words[REST_PLACE],
        finger(hash),
        SECOND_STASH_INDEX,
    );
    with
}

/// The step after the last word of a bucket.
fn read_all(seen: Seen, place: Role, key: u64, hash: u64, words: &[u64; BUCKET_WORDS]) -> ReadStep
    ensures { result ≡ read_all key hash seen place words.now }
{
    match place {
        Role::Home => fill(read_home(seen, key, words), Role::Probing),
        Role::Probing => visit_first(read_probing(seen, key, hash, words)),
        Role::First => visit_second(with_value(seen, key, words)),
        Role::Second | Role::Next | Role::Previous => ReadStep::Count {
            seen: with_value(seen, key, words),
        },
    }
}

// ---- the way again, and lock words again

/// The step that looks at a lock word again.
fn relook(seen: Seen, placed: u64, place: Role) -> ReadStep
    ensures { result ≡ steps.Relook seen placed place }
{
    ReadStep::Relook {
        seen,
        placed,
        place,
    }
}

/// The step after a word on the way that was looked at again.
fn backed_to(seen: Seen, placed: u64, backed: Backed) -> ReadStep
    ensures { result ≡ backed_to seen placed backed }
{
    match backed {
        Backed::On(back) => ReadStep::Check { seen, placed, back },
        Backed::Same => relook(seen, placed, Role::Home),
        Backed::Moved {
            word,
            before,
            after,
        } => moved(word, before, after),
    }
}

/// The end with what was found.
fn answer(seen: &Seen, placed: u64) -> ReadStep
    ensures { result ≡ Ended (end_of seen.now.value placed) }
{
    ReadStep::Ended(end_of(seen.value, placed))
}

/// The step where the second stash bucket's lock word is next to be looked at again.
fn relook_second(seen: Seen, placed: u64) -> ReadStep
    ensures { result ≡ relook_second seen placed }
{
    if seen.second {
        relook(seen, placed, Role::Second)
    } else {
        answer(&seen, placed)
    }
}

/// The step where the first one's is.
fn relook_first(seen: Seen, placed: u64) -> ReadStep
    ensures { result ≡ relook_first seen placed }
{
    if seen.first {
        relook(seen, placed, Role::First)
    } else {
        relook_second(seen, placed)
    }
}

/// The step after a lock word that was the same.
fn relook_next(seen: Seen, placed: u64, place: Role) -> ReadStep
    ensures { result ≡ relook_next seen placed place }
{
    match place {
        Role::Home => relook(seen, placed, Role::Probing),
        Role::Probing => relook_first(seen, placed),
        Role::First => relook_second(seen, placed),
        Role::Second | Role::Next | Role::Previous => answer(&seen, placed),
    }
}

impl Task {
    /// The lock word of a bucket.
    fn lock(&self, seen: &Seen, place: &Role) -> u64
        ensures is { result ≡ lock_of self.now seen.now place.now }
        ensures most { result ≤ most_words }
    {
        lock_word(&self.site, self.hash, seen.path.segment, *place)
    }

    /// The step after a lock word that was looked at.
    fn looked_at(&self, seen: Seen, place: Role, value: u64) -> ReadStep
        ensures { result ≡ next_in self.now (steps.Look seen place) value }
    {
        if is_locked(value) {
            busy(self.lock(&seen, &place), value)
        } else {
            looked(with_free(seen, place, value), place)
        }
    }

    /// The step after a lock word that was looked at again.
    fn relooked(&self, seen: Seen, placed: u64, place: Role, value: u64) -> ReadStep
        ensures { result ≡ relooked self.now seen placed place value }
    {
        let lock = self.lock(&seen, &place);
        let free = free_at(&seen.free, &place);
        if is_locked(value) {
            busy(lock, value)
        } else if value == free {
            relook_next(seen, placed, place)
        } else {
            moved(lock, free, value)
        }
    }
}

impl ReadOp {
    /// A get of a key, which has done nothing yet.
    pub fn new(key: u64, version_v: Site) -> ReadOp
        ensures is { result ≡ begun key version_v }
        ensures fits { result.task.hash < 2 ^ 64 }
    {
        ReadOp {
            task: Task {
                key,
                hash: key_hash(&version_v.geometry, key),
                site: version_v,
            },
            step: ReadStep::Way(Walk::Power),
        }
    }

    /// Whether it wants nothing more.
    pub fn wants_nothing(&self) -> bool
        ensures { IsTrue result ↔ (wanted self.now ≡ want.Done) }
    {
        matches!(self.step, ReadStep::Ended(_))
    }

    /// How it ended, once it wants nothing more.
    pub fn end(self) -> ReadEnd
        requires { wanted self ≡ want.Done }
        ensures { self.step ≡ Ended result }
    {
        match self.step {
            ReadStep::Ended(end) => end,
            _ => unreachable!(),
        }
    }

    // The next two are calls of their own, since what they need to make a step would else be got ready at each word of a
    // bucket too, and these are most events.

    /// All words of a bucket are loaded.
    #[inline(never)]
    fn read_on(&mut self)
        ensures { self.new ≡ record self.old { step = read_on self.old.task self.old.step } }
    {
        if let ReadStep::Fill { seen, place, load } = &self.step {
            self.step = read_all(*seen, *place, self.task.key, self.task.hash, &load.words);
        }
    }

    /// A value was loaded that is no word of a bucket.
    #[inline(never)]
    fn go_on(&mut self, value: u64)
        requires { is_filling self.old.step ≡ false }
        ensures { self.new ≡ taken self.old (Value value) }
    {
        let task = &self.task;
        match &mut self.step {
            ReadStep::Way(walk) => match walk_next(&task.site, task.hash, walk, value) {
                Walked::On(next) => *walk = next,
                walked => self.step = walked_to(walked),
            },
            ReadStep::Look { seen, place } => {
                self.step = task.looked_at(*seen, *place, value);
            }
            ReadStep::Fill { .. } => unreachable!(),
            ReadStep::Count { seen } => {
                self.step = ReadStep::Check {
                    seen: *seen,
                    placed: value,
                    back: Back::Root,
                };
            }
            ReadStep::Check { seen, placed, back } => {
                match back_next(&task.site, task.hash, &seen.path, back, value) {
                    Backed::On(next) => *back = next,
                    backed => self.step = backed_to(*seen, *placed, backed),
                }
            }
            ReadStep::Relook {
                seen,
                placed,
                place,
            } => {
                self.step = task.relooked(*seen, *placed, *place, value);
            }
            ReadStep::Ended(_) => {}
        }
    }
}

impl Machine for ReadOp {
    ghost wanted = { wanted };

    ghost taken = { taken };

    // It is asked at each event of a get, and is put into who asks, since else room for any machine is got ready first.
    #[inline(always)]
    fn want(&self) -> Want {
        let task = &self.task;
        match &self.step {
            ReadStep::Way(walk) => walk_want(&task.site, task.hash, walk),
            ReadStep::Look { seen, place } => Want::Load(task.lock(seen, place)),
            ReadStep::Fill { seen, place, load } => load_want(task.lock(seen, place), load),
            ReadStep::Count { .. } => Want::Load(task.site.geometry.counter_word()),
            ReadStep::Check { seen, back, .. } => {
                back_want(&task.site, task.hash, &seen.path, back)
            }
            ReadStep::Relook { seen, place, .. } => Want::Load(task.lock(seen, place)),
            ReadStep::Ended(_) => Want::Done,
        }
    }

    fn take(&mut self, ans: Ans) {
        if let Ans::Value(value) = ans {
            if let ReadStep::Fill { load, .. } = &mut self.step {
                if !load_put(load, value) {
                    self.read_on();
                }
            } else {
                self.go_on(value);
            }
        }
    }
}
