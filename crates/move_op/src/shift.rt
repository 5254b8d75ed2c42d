//! Which record moves to make room, and what is stored of it and of the new one.

ghost use Rattle.std.specs.Prelude.{◌≡◌, ◌<◌, IfSome, slice_index};
ghost use Rattle.bucket_meta.specs.Bucket.{record_slots, mark_place};
ghost use Rattle.bucket_meta.specs.Search.{lowest_free};
ghost use Rattle.move_op.specs.Shifts.{source_of, target_of, arrived_mark, moving_slot, copied, cleared, placed, shift_at, shift_by, shift_in, place_of, record_of};

use crate::step::{Direction, Leg, Shift};
use bucket_meta::Meta;
use bucket_meta::words::{
    BUCKET_WORDS, FINGERS_PLACE, MARK_PLACE, REST_PLACE, finger_of, finger_place, inserted_mark,
    key_place, lowest_free, member_mark, removed_mark, value_place, with_finger,
};
use displace::{backward, forward};
use hash_word::finger;
use phase::{Kept, Record, Role, brought};

// ---- the two buckets

/// The bucket that the record leaves.
pub fn source_of(direction: Direction) -> Role
    ensures { result ≡ source_of direction }
{
    match direction {
        Direction::Forward => Role::Probing,
        Direction::Backward => Role::Home,
    }
}

/// The third bucket, to which it comes.
pub fn target_of(direction: Direction) -> Role
    ensures { result ≡ target_of direction }
{
    match direction {
        Direction::Forward => Role::Next,
        Direction::Backward => Role::Previous,
    }
}

// ---- which record moves

/// The slot of the record that moves, by the words of both buckets: none where none can, or where no slot is free for it.
fn moving_slot(
    direction: Direction,
    source: &[u64; BUCKET_WORDS],
    target: &[u64; BUCKET_WORDS],
) -> Option<u8>
    ensures is { result ≡ moving_slot direction (slice_index source.now mark_place) (lowest_free (slice_index target.now mark_place)) }
    ensures within { IfSome result (λ slot. slot < record_slots) }
{
    let from = Meta::read([
        source[MARK_PLACE],
        source[FINGERS_PLACE],
        source[REST_PLACE],
    ]);
    let to = Meta::read([
        target[MARK_PLACE],
        target[FINGERS_PLACE],
        target[REST_PLACE],
    ]);
    match direction {
        Direction::Forward => forward(&from, &to),
        Direction::Backward => backward(&from, &to),
    }
}

// ---- what is stored

/// The metadata word with a slot taken, by the copy or by the new record: forward both stand in their probing bucket, and backward
/// both in their home.
fn arrived_mark(direction: Direction, w1: u64, slot: u8) -> u64
    ensures { result ≡ arrived_mark direction w1 slot }
{
    match direction {
        Direction::Forward => member_mark(w1, slot),
        Direction::Backward => inserted_mark(w1, slot),
    }
}

/// What is stored of the copy of a record of `source` in a slot of `target`.
fn copied(
    direction: Direction,
    source: &[u64; BUCKET_WORDS],
    from: u8,
    target: &[u64; BUCKET_WORDS],
    to: u8,
) -> Record
    requires from { from < record_slots }
    requires to { to < record_slots }
    ensures { result ≡ copied direction source.now from target.now to }
{
    Record {
        slot: to,
        key: source[key_place(from)],
        value: source[value_place(from)],
        fingers: with_finger(
            target[finger_place(to)],
            to,
            finger_of(source[FINGERS_PLACE], source[REST_PLACE], from),
        ),
        published: MARK_PLACE as u8,
        mark: arrived_mark(direction, target[MARK_PLACE], to),
    }
}

/// What is stored where it stood: the metadata word alone.
fn cleared(source: &[u64; BUCKET_WORDS], from: u8) -> Record
    ensures { result ≡ cleared source.now from }
{
    Record {
        slot: from,
        key: 0,
        value: 0,
        fingers: 0,
        published: MARK_PLACE as u8,
        mark: removed_mark(source[MARK_PLACE], from),
    }
}

/// What is stored of the new record, in the slot that was cleared.
fn placed(direction: Direction, kept: &Kept, source: &[u64; BUCKET_WORDS], from: u8) -> Record
    requires { from < record_slots }
    ensures { result ≡ placed direction kept.now source.now from }
{
    Record {
        slot: from,
        key: kept.change.key,
        value: brought(kept.change.effect),
        fingers: with_finger(source[finger_place(from)], from, finger(kept.hash)),
        published: MARK_PLACE as u8,
        mark: arrived_mark(direction, removed_mark(source[MARK_PLACE], from), from),
    }
}

/// The shift of the record of one slot to another.
fn shift_at(kept: &Kept, direction: Direction, from: u8, to: u8) -> Shift
    requires from { from < record_slots }
    requires to { to < record_slots }
    ensures { result ≡ shift_at kept.now direction from to }
{
    let source = kept.buckets.of(source_of(direction));
    let target = kept.buckets.of(target_of(direction));
    Shift {
        direction,
        copy: copied(direction, &source, from, &target, to),
        clearing: cleared(&source, from),
        insert: placed(direction, kept, &source, from),
    }
}

/// The shift, where a record can move and a slot is free for it.
fn shift_by(kept: &Kept, direction: Direction, from: Option<u8>, to: Option<u8>) -> Option<Shift>
    requires from { IfSome from (λ slot. slot < record_slots) }
    requires to { IfSome to (λ slot. slot < record_slots) }
    ensures { result ≡ shift_by kept.now direction from to }
{
    match (from, to) {
        (Some(from), Some(to)) => Some(shift_at(kept, direction, from, to)),
        _ => None,
    }
}

/// The shift that makes room in this direction, by the words that are kept.
pub fn shift_in(kept: &Kept, direction: Direction) -> Option<Shift>
    ensures { result ≡ shift_in kept.now direction }
{
    let source = kept.buckets.of(source_of(direction));
    let target = kept.buckets.of(target_of(direction));
    let from = moving_slot(direction, &source, &target);
    shift_by(kept, direction, from, lowest_free(target[MARK_PLACE]))
}

// ---- one after another

/// The bucket in which this is stored.
pub fn place_of(direction: Direction, leg: Leg) -> Role
    ensures { result ≡ place_of direction leg }
{
    match leg {
        Leg::Copy => target_of(direction),
        Leg::Clear | Leg::Insert => source_of(direction),
    }
}

/// What is stored there.
pub fn record_of(shift: &Shift, leg: Leg) -> Record
    ensures { result ≡ record_of shift.now leg }
{
    match leg {
        Leg::Copy => shift.copy,
        Leg::Clear => shift.clearing,
        Leg::Insert => shift.insert,
    }
}
