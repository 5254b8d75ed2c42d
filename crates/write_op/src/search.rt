//! What the loaded words say: where the key stands, which stash buckets are to be visited, where a slot is free, what is stored
//! of a record, and how the note of one is taken away that leaves the stash.

ghost use Rattle.std.specs.Prelude.{◌≡◌, ℕ, ◌<◌, IfSome, slice_index};
ghost use Rattle.bucket_meta.specs.Bucket.{record_slots, mark_place, fingers_place, rest_place};
ghost use Rattle.bucket_meta.specs.MetaWords.{IsMetaOf};
ghost use Rattle.write_op.specs.Search.{spot_or, slot_in, found, room_in, visits, taken_mark, published_word, published_mark, record_in, record_at, leaves_note, freed_or, unnoted_by, unnoted, has_finger};

use crate::step::{Seen, Spot, Task};
use balance::{Choice, choose};
use bucket_meta::Meta;
use bucket_meta::words::{
    BUCKET_WORDS, FINGERS_PLACE, HOME_SIDE, MARK_PLACE, PROBING_SIDE, REST_PLACE, finger_place,
    freed_fingers, freed_mark, inserted_mark, lowered_count, lowest_free, lowest_with, member_mark,
    must_visit, note_place, removed_mark, value_place, with_finger,
};
use hash_word::finger;
use map_model::Effect;
use phase::{Buckets, Record, Role, brought, stash_index};

// ---- where the key stands, and where a slot is free

/// This slot of a bucket, or else what is found behind it.
fn spot_or(place: Role, slot: Option<u8>, rest: Option<Spot>) -> Option<Spot>
    requires slot { IfSome slot (λ slot. slot < record_slots) }
    requires rest { IfSome rest (λ spot. spot.slot < record_slots) }
    ensures is { result ≡ spot_or place slot rest }
    ensures within { IfSome result (λ spot. spot.slot < record_slots) }
{
    match slot {
        Some(slot) => Some(Spot { place, slot }),
        None => rest,
    }
}

/// The slot of a key, in a bucket that is visited.
fn slot_in(visited: bool, words: &[u64; BUCKET_WORDS], key: u64) -> Option<u8>
    ensures is { result ≡ slot_in visited words.now key }
    ensures within { IfSome result (λ slot. slot < record_slots) }
{
    if visited {
        lowest_with(words, key)
    } else {
        None
    }
}

/// The first slot with a key: in the home bucket, the probing bucket, and the stash buckets that are visited.
pub fn found(seen: &Seen, key: u64) -> Option<Spot>
    ensures is { result ≡ found seen.now key }
    ensures within { IfSome result (λ spot. spot.slot < record_slots) }
{
    let second = slot_in(seen.second, &seen.buckets.second, key);
    let first = slot_in(seen.first, &seen.buckets.first, key);
    let probing = slot_in(true, &seen.buckets.probing, key);
    let home = slot_in(true, &seen.buckets.home, key);
    let rest = spot_or(Role::First, first, spot_or(Role::Second, second, None));
    spot_or(Role::Home, home, spot_or(Role::Probing, probing, rest))
}

/// The metadata of a bucket, by its words.
fn meta_of(words: &[u64; BUCKET_WORDS]) -> Meta
    ensures { IsMetaOf result (slice_index words.now mark_place) (slice_index words.now fingers_place) (slice_index words.now rest_place) }
{
    Meta::read([words[MARK_PLACE], words[FINGERS_PLACE], words[REST_PLACE]])
}

/// The slot that a new record takes: the lowest free one of the less full of home and probing bucket, of home where both are as
/// full, and none where both are full.
pub fn room_in(buckets: &Buckets) -> Option<Spot>
    ensures is { result ≡ room_in buckets.now }
    ensures within { IfSome result (λ spot. spot.slot < record_slots) }
{
    match choose(&meta_of(&buckets.home), &meta_of(&buckets.probing)) {
        Choice::Home => spot_or(Role::Home, lowest_free(buckets.home[MARK_PLACE]), None),
        Choice::Probe => spot_or(
            Role::Probing,
            lowest_free(buckets.probing[MARK_PLACE]),
            None,
        ),
        Choice::Neither => None,
    }
}

/// Whether a stash bucket is to be visited, 0 or 1, by the words of home and probing bucket.
pub fn visits(hash: u64, buckets: &Buckets, index: u8) -> bool
    ensures { result ≡ visits hash buckets.now index }
{
    let (home, probing) = (&buckets.home, &buckets.probing);
    must_visit(
        home[MARK_PLACE],
        home[REST_PLACE],
        probing[MARK_PLACE],
        probing[REST_PLACE],
        finger(hash),
        index,
    )
}

// ---- what is stored of a record

/// The metadata word with a slot taken; a record that stands in its probing bucket has the membership bit too.
fn taken_mark(place: Role, w1: u64, slot: u8) -> u64
    ensures { result ≡ taken_mark place w1 slot }
{
    match place {
        Role::Probing => member_mark(w1, slot),
        Role::Home | Role::First | Role::Second | Role::Next | Role::Previous => {
            inserted_mark(w1, slot)
        }
    }
}

/// The word whose store makes the change, by its number in the bucket.
fn published_word(effect: Effect, slot: u8) -> u8
    requires { slot < record_slots }
    ensures { result ≡ published_word effect slot }
{
    match effect {
        Effect::Update(_) => value_place(slot) as u8,
        Effect::Insert(_) | Effect::Remove => MARK_PLACE as u8,
    }
}

/// What is stored there.
fn published_mark(effect: Effect, place: Role, w1: u64, slot: u8) -> u64
    ensures { result ≡ published_mark effect place w1 slot }
{
    match effect {
        Effect::Insert(_) => taken_mark(place, w1, slot),
        Effect::Update(value) => value,
        Effect::Remove => removed_mark(w1, slot),
    }
}

/// What is stored of the record of a change, in a slot of a bucket with these words.
fn record_in(task: &Task, place: Role, words: &[u64; BUCKET_WORDS], slot: u8) -> Record
    requires { slot < record_slots }
    ensures { result ≡ record_in task.now place words.now slot }
{
    let effect = task.change.effect;
    Record {
        slot,
        key: task.change.key,
        value: brought(effect),
        fingers: with_finger(words[finger_place(slot)], slot, finger(task.hash)),
        published: published_word(effect, slot),
        mark: published_mark(effect, place, words[MARK_PLACE], slot),
    }
}

/// What is stored of the record of a change in this spot.
pub fn record_at(task: &Task, buckets: &Buckets, spot: Spot) -> Record
    requires { spot.slot < record_slots }
    ensures { result ≡ record_at task.now buckets.now spot }
{
    let words = buckets.of(spot.place);
    record_in(task, spot.place, &words, spot.slot)
}

// ---- the note of a record that leaves the stash

/// Words 1 and 3 of a bucket in which the note of a record is taken away.
#[derive(Clone, Copy)]
pub struct NoteWords {
    /// Which bucket.
    pub place: Role,
    /// Its metadata word.
    pub mark: u64,
    /// Its word 3, which has the fingerprints of two notes.
    pub fingers: u64,
}

/// Whether a change in this bucket leaves a note that is to be taken away.
pub fn leaves_note(effect: Effect, place: Role) -> bool
    ensures { result ≡ leaves_note effect place }
{
    match (effect, place) {
        (Effect::Remove, Role::First | Role::Second) => true,
        _ => false,
    }
}

/// Words 1 and 3 of a bucket without the note on a note slot, or else what is made instead.
fn freed_or(place: Role, words: &[u64; BUCKET_WORDS], at: Option<u8>, rest: NoteWords) -> NoteWords
    ensures { result ≡ freed_or place words.now at rest }
{
    match at {
        Some(at) => NoteWords {
            place,
            mark: freed_mark(words[MARK_PLACE], at),
            fingers: freed_fingers(words[REST_PLACE], at),
        },
        None => rest,
    }
}

/// What takes away a note of this fingerprint and stash bucket: the lowest one in the home bucket goes, else that in the probing
/// bucket, and else one of those that are counted.
fn unnoted_by(
    home: &[u64; BUCKET_WORDS],
    probing: &[u64; BUCKET_WORDS],
    finger: u8,
    index: u8,
) -> NoteWords
    ensures { result ≡ unnoted_by home.now probing.now finger index }
{
    let counted = NoteWords {
        place: Role::Home,
        mark: lowered_count(home[MARK_PLACE]),
        fingers: home[REST_PLACE],
    };
    let in_probing = note_place(
        probing[MARK_PLACE],
        probing[REST_PLACE],
        PROBING_SIDE,
        finger,
        index,
    );
    let in_home = note_place(home[MARK_PLACE], home[REST_PLACE], HOME_SIDE, finger, index);
    let rest = freed_or(Role::Probing, probing, in_probing, counted);
    freed_or(Role::Home, home, in_home, rest)
}

/// What takes away the note of the record that was removed.
pub fn unnoted(hash: u64, seen: &Seen) -> NoteWords
    ensures { result ≡ unnoted hash seen.now }
{
    let index = stash_index(seen.place);
    unnoted_by(
        &seen.buckets.home,
        &seen.buckets.probing,
        finger(hash),
        index,
    )
}

/// Whether word 3 changes too.
pub fn has_finger(seen: &Seen, note: &NoteWords) -> bool
    ensures { result ≡ has_finger seen.now note.now }
{
    let words = seen.buckets.of(note.place);
    words[REST_PLACE] != note.fingers
}
