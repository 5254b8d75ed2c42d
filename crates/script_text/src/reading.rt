// What one line says.
ghost use Rattle.std.specs.Prelude.{◌≡◌};
ghost use Rattle.script_text.specs.Splits.{words};
ghost use Rattle.script_text.specs.Readings.{says_one, says_two, says_three, says_four, says_words, line_says};
ghost use Rattle.script_text.specs.Order.{in_place};

use crate::call_form::{call_reading, get_of, insert_of, remove_of, update_of};
use crate::line::{Line, Mode};
use crate::number::number_of;
use crate::phase::Phase;
use crate::run_form::{Aim, run_reading, until_reading};
use crate::word::next_word;

const CLOSE: &[u8] = b"close";

const CUT: &[u8] = b"cut";

const STEP: &[u8] = b"step";

const UNTIL: &[u8] = b"until";

const GET: &[u8] = b"get";

const REMOVE: &[u8] = b"remove";

const INSERT: &[u8] = b"insert";

const UPDATE: &[u8] = b"update";

// What a line says: nothing, a line of the grammar, or what is wrong with it.
#[derive(Clone, Copy)]
pub(crate) enum Reading {
    Skipped,
    Says(Line),
    BadWord,
    BadNumber,
    BadCaller,
    BadOrder,
}

// The form of one word: close.
fn one_word(first: &[u8]) -> Reading
    ensures { result ≡ says_one first.now }
{
    if first == CLOSE {
        Reading::Says(Line::Close)
    } else {
        Reading::BadWord
    }
}

// The form of two words: cut c.
fn two_words(first: &[u8], second: &[u8]) -> Reading
    ensures { result ≡ says_two first.now second.now }
{
    if first == CUT {
        match number_of(second) {
            Some(choice) => Reading::Says(Line::Cut(choice)),
            None => Reading::BadNumber,
        }
    } else {
        Reading::BadWord
    }
}

// The forms of three words: step C n, C get K, and C remove K.
fn three_words(first: &[u8], second: &[u8], third: &[u8]) -> Reading
    ensures { result ≡ says_three first.now second.now third.now }
{
    if first == STEP {
        run_reading(Aim::Steps, number_of(second), number_of(third))
    } else if second == GET {
        call_reading(number_of(first), get_of(number_of(third)))
    } else if second == REMOVE {
        call_reading(number_of(first), remove_of(number_of(third)))
    } else {
        Reading::BadWord
    }
}

// The forms of four words: until C KIND n, until C at W, C insert K V, and C update K V.
fn four_words(first: &[u8], second: &[u8], third: &[u8], fourth: &[u8]) -> Reading
    ensures { result ≡ says_four first.now second.now third.now fourth.now }
{
    if first == UNTIL {
        until_reading(third, number_of(second), number_of(fourth))
    } else if second == INSERT {
        call_reading(
            number_of(first),
            insert_of(number_of(third), number_of(fourth)),
        )
    } else if second == UPDATE {
        call_reading(
            number_of(first),
            update_of(number_of(third), number_of(fourth)),
        )
    } else {
        Reading::BadWord
    }
}

// What the words of a line say; their number decides which forms there are.
fn words_reading(line: &[u8]) -> Reading
    ensures { result ≡ says_words (words line.now) }
{
    let Some((first, rest)) = next_word(line) else {
        return Reading::Skipped;
    };
    let Some((second, rest)) = next_word(rest) else {
        return one_word(first);
    };
    let Some((third, rest)) = next_word(rest) else {
        return two_words(first, second);
    };
    let Some((fourth, rest)) = next_word(rest) else {
        return three_words(first, second, third);
    };
    match next_word(rest) {
        Some(_) => Reading::BadWord,
        None => four_words(first, second, third, fourth),
    }
}

// What a line says in a mode.
pub(crate) fn reading_of(mode: Mode, line: &[u8]) -> Reading
    ensures { result ≡ line_says mode line.now }
{
    if let [b'#', ..] = line {
        return Reading::Skipped;
    }
    match mode {
        Mode::Play | Mode::Serve => words_reading(line),
    }
}

// What a line says where it stands: one of the grammar is bad where it may not follow.
pub(crate) fn placed(mode: Mode, phase: Phase, reading: Reading) -> Reading
    ensures { result ≡ in_place mode phase reading }
{
    match reading {
        Reading::Says(line) if !phase.may_follow(mode, line) => Reading::BadOrder,
        _ => reading,
    }
}
