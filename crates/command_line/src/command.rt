// The words of the command line.
ghost use Rattle.std.specs.Prelude.{map, string_bytes, IfSome, IfNone, ◌≡◌, ◌∷◌, [], Some};
ghost use Rattle.image_layout.specs.Places.{Shape, IsShape};
ghost use Rattle.command_line.specs.declared.command.StormSize.{StormSize};
ghost use Rattle.script_text.specs.Readings.{number};
ghost use Rattle.command_line.specs.Commands.{IsStormSize, IsCommand};

use image_layout::Geometry;
use script_text::number_of;
use storm::{MOST_CALLS, MOST_SESSIONS};

/// How much a storm does, and the number that it comes from.
#[derive(Clone, Copy, Debug, PartialEq, Eq)]
pub struct StormSize {
    /// The number that all calls, schedules and cuts come from.
    pub seed: u64,
    /// How many sessions there are, 1 to 1000.
    pub sessions: u64,
    /// How many calls of each of the four callers the script of a session has, 1 to 10000.
    pub calls: u64,
}

/// What the words ask for.
#[derive(Clone, Copy, Debug, PartialEq, Eq)]
pub enum Command {
    /// `format SEGMENTS DEPTH KIND`: the image of an empty table of this geometry.
    Format(Geometry),
    /// `check`: the image in numbers.
    Check,
    /// `list`: the pairs of the image.
    List,
    /// `play`: the script's calls on the image, in turns.
    Play,
    /// `serve`: the script's calls on the image, a thread for each caller.
    Serve,
    /// `storm SEED SESSIONS CALLS`: sessions one after another on a new image in memory.
    Storm(StormSize),
    /// Any other words.
    Unknown,
}

// The geometry that three words say, where each is a number and all are in their ranges.
fn geometry_of(segments: &[u8], depth: &[u8], kind: &[u8]) -> Option<Geometry>
    ensures some { IfSome result (λ geometry. (number segments.now ≡ Some geometry.segments) × (number depth.now ≡ Some geometry.depth)
        × (number kind.now ≡ Some geometry.kind) × IsShape geometry) }
    ensures none { IfNone result ((shape : Shape) → number segments.now ≡ Some shape.segments → number depth.now ≡ Some shape.depth
        → number kind.now ≡ Some shape.kind → IsShape shape → ⊥) }
{
    let (Some(segments), Some(depth), Some(kind)) = (
        number_of(segments),
        number_of(depth),
        number_of(kind),
    ) else {
        return None;
    };
    match Geometry::new(segments, depth, kind) {
        Ok(geometry) => Some(geometry),
        Err(_) => None,
    }
}

// The size of a storm that three words say, where each is a number and all are in their ranges.
fn storm_size_of(seed: &[u8], sessions: &[u8], calls: &[u8]) -> Option<StormSize>
    ensures some { IfSome result (λ size. (number seed.now ≡ Some size.seed) × (number sessions.now ≡ Some size.sessions)
        × (number calls.now ≡ Some size.calls) × IsStormSize size) }
    ensures none { IfNone result ((size : StormSize) → number seed.now ≡ Some size.seed → number sessions.now ≡ Some size.sessions
        → number calls.now ≡ Some size.calls → IsStormSize size → ⊥) }
{
    let (Some(seed), Some(sessions), Some(calls)) = (
        number_of(seed),
        number_of(sessions),
        number_of(calls),
    ) else {
        return None;
    };
    if sessions < 1 || sessions > MOST_SESSIONS || calls < 1 || calls > MOST_CALLS {
        return None;
    }
    Some(StormSize {
        seed,
        sessions,
        calls,
    })
}

// The command that one word is.
fn one_word(word: &str) -> Command
    ensures { IsCommand (word.now ∷ []) result }
{
    match word {
        "check" => Command::Check,
        "list" => Command::List,
        "play" => Command::Play,
        "serve" => Command::Serve,
        _ => Command::Unknown,
    }
}

// The command that four words are.
fn four_words(name: &str, first: &[u8], second: &[u8], third: &[u8]) -> Command
    ensures { IsCommand (name.now ∷ first.now ∷ second.now ∷ third.now ∷ []) result }
{
    match name {
        "format" => match geometry_of(first, second, third) {
            Some(geometry) => Command::Format(geometry),
            None => Command::Unknown,
        },
        "storm" => match storm_size_of(first, second, third) {
            Some(size) => Command::Storm(size),
            None => Command::Unknown,
        },
        _ => Command::Unknown,
    }
}

/// The command that the words say.
pub fn command_of(words: &[String]) -> Command
    ensures { IsCommand (map string_bytes words.now) result }
{
    match words {
        [only] => one_word(only.as_str()),
        [name, first, second, third] => four_words(
            name.as_str(),
            first.as_bytes(),
            second.as_bytes(),
            third.as_bytes(),
        ),
        _ => Command::Unknown,
    }
}
