// The forms of calls.
ghost use Rattle.std.specs.Prelude.{◌≡◌};
ghost use Rattle.script_text.specs.Readings.{get_call, remove_call, insert_call, update_call, says_call};

use crate::callers::may_have_calls;
use crate::line::Line;
use crate::reading::Reading;
use map_model::Call;

// The get of a key, where it is a number.
pub(crate) fn get_of(key: Option<u64>) -> Option<Call>
    ensures { result ≡ get_call key }
{
    match key {
        Some(key) => Some(Call::Get(key)),
        None => None,
    }
}

// The remove of a key, where it is a number.
pub(crate) fn remove_of(key: Option<u64>) -> Option<Call>
    ensures { result ≡ remove_call key }
{
    match key {
        Some(key) => Some(Call::Remove(key)),
        None => None,
    }
}

// The insert of a key and a value, where they are numbers.
pub(crate) fn insert_of(key: Option<u64>, value: Option<u64>) -> Option<Call>
    ensures { result ≡ insert_call key value }
{
    match (key, value) {
        (Some(key), Some(value)) => Some(Call::Insert(key, value)),
        _ => None,
    }
}

// The update of a key to a value, where they are numbers.
pub(crate) fn update_of(key: Option<u64>, value: Option<u64>) -> Option<Call>
    ensures { result ≡ update_call key value }
{
    match (key, value) {
        (Some(key), Some(value)) => Some(Call::Update(key, value)),
        _ => None,
    }
}

// A caller's call, where all its numbers are numbers and the caller is in range.
pub(crate) fn call_reading(caller: Option<u64>, call: Option<Call>) -> Reading
    ensures { result ≡ says_call caller call }
{
    match (caller, call) {
        (Some(caller), Some(call)) => {
            if may_have_calls(caller) {
                Reading::Says(Line::Call(caller as u8, call))
            } else {
                Reading::BadCaller
            }
        }
        _ => Reading::BadNumber,
    }
}
