//! Which values of its words a power cut leaves.

ghost use Rattle.std.specs.Prelude.{◌≡◌, ◌≤◌, if◌then◌else◌, length};
ghost use Rattle.pm_trace.specs.Choice.{takes_newest, next_state, number_of, chosen_by_name, chosen_by_stream, chosen};

use hash_word::{Kind, hash};

/// The choice that takes no newest value.
const NO_NEWEST: u64 = 0;
/// The choice that takes each newest value.
pub const ALL_NEWEST: u64 = 1;
/// From this choice on the choice is the state of a stream.
pub const FIRST_STREAM: u64 = 1 << 63;
/// What a SplitMix64 stream adds to its state for each number.
const STRIDE: u64 = 0x9E37_79B9_7F4A_7C15;

/// The value that a choice before the streams takes for a word.
fn picked(choice: u64, word: u64, settled: u64, newest: u64) -> u64
    ensures { result ≡ (if takes_newest choice word then newest else settled) }
{
    let takes_newest = match choice {
        NO_NEWEST => false,
        ALL_NEWEST => true,
        _ => (word == choice / 2 - 1) == (choice % 2 == 0),
    };
    if takes_newest { newest } else { settled }
}

/// Takes the newest values that the choice names by their numbers.
fn pick_by_name(settled: &mut [u64], newest: &[u64], choice: u64)
    requires { length settled.old ≡ length newest.now }
    ensures { settled.new ≡ chosen_by_name choice 0 settled.old newest.now }
{
    for word in 0..settled.len() {
        settled[word] = picked(choice, word as u64, settled[word], newest[word]);
    }
}

/// The next number of a stream with this state.
pub fn next_number(state: &mut u64) -> u64
    ensures state { state.new ≡ next_state state.old }
    ensures number { result ≡ number_of state.new }
{
    *state = state.wrapping_add(STRIDE);
    hash(Kind::Mix, *state)
}

/// Takes the newest values by the numbers of a stream.
fn pick_by_stream(settled: &mut [u64], newest: &[u64], choice: u64)
    requires { length settled.old ≡ length newest.now }
    ensures { settled.new ≡ chosen_by_stream choice settled.old newest.now }
{
    let mut state = choice;
    for word in 0..settled.len() {
        if settled[word] != newest[word] && next_number(&mut state) % 2 == 1 {
            settled[word] = newest[word];
        }
    }
}

/// Takes the newest values that the choice names.
pub(crate) fn pick(settled: &mut [u64], newest: &[u64], choice: u64)
    requires { length settled.old ≡ length newest.now }
    ensures { settled.new ≡ chosen choice settled.old newest.now }
{
    if choice < FIRST_STREAM {
        pick_by_name(settled, newest, choice);
    } else {
        pick_by_stream(settled, newest, choice);
    }
}
