//! Cases as text, and the loop that walks them: every function is proved, and to that a text adds nothing.
//!
//! A line says what is done, or what has to come then:
//!
//! | Line | What it is |
//! |---|---|
//! | `# ..` | what is meant |
//! | `site 2 1 1 3` | a new memory, for an image of two slots and depth 1, of version 1, where caller 3 runs |
//! | `table 97=1 98=0x5` | these words are so where a case begins, too |
//! | `on 97=1 98=0x5` | a case begins on such a memory, with these words in it; `on -` with none |
//! | `set 96=3` | a word gets its value later |
//! | `other 5 96 3` | another caller stores 3 in word 96 after 5 events |
//! | `begin CASE` | what is tested begins |
//! | `do CASE -> END in 85` | it begins, runs to its end, which is this one, and has done so many events; these may be left out |
//! | `Load(8) = Value 1` | the event that comes next, and the answer that is given |
//! | `Load(8)` | the same, with the answer of the memory; `?` is any event |
//! | `for 97 66 32 31: Load(#)` | events of which `#` is a number: from 97, 66 times, 32 apart, and 31 each time, one after another |
//! | `keeps Passed` | an answer behind which it wants the same and stands as before |
//! | `has 97=0 98=5` | words that are so |
//! | `locks 66` | how many locks of slot 0 are taken |
//! | `stands STAND` | how it stands; the type `Stand` of a machine says what that is |
//! | `reply REPLY` | how the last attempt is answered |
use crate::memory::Memory;
use image_layout::{Geometry, IDENTITY_KIND};
use op_core::{Ans, Machine, Want};
use row_file::{first_word, number_of};
use std::alloc::Global;
use std::fmt::Debug;
use std::test::Fail;
use world::Site;

/// What the lines of a text are about.
pub trait Deeds {
    /// Begins a case on a memory.
    fn begin(&mut self, memory: &mut Memory, case: &str) -> Result<(), Fail>;

    /// Does the event that comes next, with this answer or that of a memory, and says which it is: `Done` behind the last.
    fn event(&mut self, memory: &mut Memory, ans: Option<Ans>) -> Want;

    /// Whether it wants the same behind an answer, and stands as before.
    fn keeps(&mut self, alloc: Global, ans: Ans) -> Result<bool, Fail>;

    /// What is asked of how it stands.
    fn told(&mut self, alloc: Global, what: &str) -> Result<String, Fail>;
}

/// A machine of which cases are told.
pub trait Follows: Machine {
    /// How it stands.
    type Stand: Debug + Drop;

    /// The machine as it begins in a case, on a memory.
    fn begun(memory: &mut Memory, case: &str) -> Result<Self, Fail>;

    /// How it stands.
    fn stands(&self) -> Self::Stand;
}

/// A machine that cases begin.
#[derive(Drop)]
struct Followed<M> {
    op: Option<M>,
}

impl<M: Follows + Drop> Deeds for Followed<M> {
    fn begin(&mut self, memory: &mut Memory, case: &str) -> Result<(), Fail> {
        self.op = Some(M::begun(memory, case)?);
        Ok(())
    }

    fn event(&mut self, memory: &mut Memory, ans: Option<Ans>) -> Want {
        let Some(op) = &mut self.op else {
            return Want::Done;
        };
        let want = op.want();
        match (want, ans) {
            (Want::Done, _) => {}
            (_, Some(ans)) => op.take(ans),
            (_, None) => op.take(memory.answer(want)),
        }
        want
    }

    fn keeps(&mut self, alloc: Global, ans: Ans) -> Result<bool, Fail> {
        let before = self.told(alloc, "stands")?;
        let Some(op) = &mut self.op else {
            return Err(Fail::new("nothing is begun"));
        };
        let want = op.want();
        op.take(ans);
        let same = op.want() == want;
        Ok(same && self.told(alloc, "stands")?.as_str() == before.as_str())
    }

    fn told(&mut self, alloc: Global, _what: &str) -> Result<String, Fail> {
        let Some(op) = &self.op else {
            return Err(Fail::new("nothing is begun"));
        };
        let stand = op.stands();
        Ok(format!(in alloc; "{stand:?}")?)
    }
}

/// Four numbers with spaces between them, of which the last ones may be left out, and are 0 then.
pub fn numbers(text: &str) -> Result<[u64; 4], Fail> {
    let mut numbers = [0; 4];
    let mut place = 0;
    for word in text.split_ascii_whitespace() {
        if place < 4 {
            numbers[place] = number_of(word)?;
            place += 1;
        }
    }
    Ok(numbers)
}

/// A word and its value, with a `=` between them.
fn pair(text: &str) -> Result<(u64, u64), Fail> {
    match text.split_once('=') {
        Some((at, value)) => Ok((number_of(at)?, number_of(value)?)),
        None => Err(Fail::new("a pair has no =")),
    }
}

/// Gives words their values.
fn set(memory: &mut Memory, text: &str) -> Result<(), Fail> {
    if text != "-" {
        for word in text.split_ascii_whitespace() {
            let (at, value) = pair(word)?;
            memory.set(at, value);
        }
    }
    Ok(())
}

/// Whether words have these values.
fn has(memory: &Memory, text: &str) -> Result<bool, Fail> {
    let mut same = true;
    for word in text.split_ascii_whitespace() {
        let (at, value) = pair(word)?;
        same = same && memory.word(at) == value;
    }
    Ok(same)
}

/// A memory for an image of so many slots and of this greatest depth, of this version, where this caller runs.
fn memory_of(text: &str) -> Result<Memory, Fail> {
    let [segments, depth, version, caller] = numbers(text)?;
    Ok(Memory::new(Site {
        geometry: Geometry::new(segments, depth, IDENTITY_KIND)?,
        version: u8::try_from(version)?,
        caller: u8::try_from(caller)?,
    }))
}

/// The answer of these words, as `Value 5` or `Passed`.
fn answer(text: &str) -> Result<Ans, Fail> {
    match first_word(text) {
        ("Value", value) => Ok(Ans::Value(number_of(value)?)),
        ("Lost", value) => Ok(Ans::Lost(number_of(value)?)),
        ("Won", "") => Ok(Ans::Won),
        ("Passed", "") => Ok(Ans::Passed),
        _ => Err(Fail::new("no answer")),
    }
}

/// Does the event that comes next, and says whether it is this one.
fn wants(
    alloc: Global,
    deeds: &mut impl Deeds,
    memory: &mut Memory,
    wanted: &str,
    ans: Option<Ans>,
) -> Result<bool, Fail> {
    let want = deeds.event(memory, ans);
    Ok(wanted == "?" || format!(in alloc; "{want:?}")?.as_str() == wanted)
}

/// The same of a text in which an answer may stand behind the event.
fn event(
    alloc: Global,
    deeds: &mut impl Deeds,
    memory: &mut Memory,
    text: &str,
) -> Result<bool, Fail> {
    match text.split_once(" = ") {
        Some((wanted, ans)) => wants(alloc, deeds, memory, wanted, Some(answer(ans)?)),
        None => wants(alloc, deeds, memory, text, None),
    }
}

/// The same of a text in which a `#` may stand for this number.
fn event_at(
    alloc: Global,
    deeds: &mut impl Deeds,
    memory: &mut Memory,
    text: &str,
    at: u64,
) -> Result<bool, Fail> {
    match text.split_once('#') {
        Some((before, behind)) => {
            let text = format!(in alloc; "{before}{at}{behind}")?;
            event(alloc, deeds, memory, text.as_str())
        }
        None => event(alloc, deeds, memory, text),
    }
}

/// Does the events of a pattern with this number in them, and says whether they are these.
fn events_at(
    alloc: Global,
    deeds: &mut impl Deeds,
    memory: &mut Memory,
    pattern: &str,
    at: u64,
) -> Result<bool, Fail> {
    for part in pattern.split("; ") {
        if !event_at(alloc, deeds, memory, part, at)? {
            return Ok(false);
        }
    }
    Ok(true)
}

/// So with each of the numbers that stand before the pattern.
fn events(
    alloc: Global,
    deeds: &mut impl Deeds,
    memory: &mut Memory,
    text: &str,
) -> Result<bool, Fail> {
    let Some((told, pattern)) = text.split_once(": ") else {
        return Err(Fail::new("no pattern"));
    };
    let [from, times, apart, each] = numbers(told)?;
    for time in 0..times {
        for place in 0..each {
            let at = time
                .wrapping_mul(apart)
                .wrapping_add(from)
                .wrapping_add(place);
            if !events_at(alloc, deeds, memory, pattern, at)? {
                return Ok(false);
            }
        }
    }
    Ok(true)
}

/// Does events until nothing more is wanted, 40000 at the most, and counts them.
fn run(deeds: &mut impl Deeds, memory: &mut Memory) {
    memory.events = 0;
    for _ in 0..40_000u64 {
        if matches!(deeds.event(memory, None), Want::Done) {
            return;
        }
    }
}

/// Whether a case ends so, and in so many events where that is told.
fn ends(
    alloc: Global,
    deeds: &mut impl Deeds,
    memory: &mut Memory,
    text: &str,
) -> Result<bool, Fail> {
    let Some((case, wanted)) = text.split_once(" -> ") else {
        return Err(Fail::new("no end is told"));
    };
    deeds.begin(memory, case)?;
    run(deeds, memory);
    let told = deeds.told(alloc, "end")?;
    match wanted.split_once(" in ") {
        Some((end, events)) => Ok(told.as_str() == end && memory.events == number_of(events)?),
        None => Ok(told.as_str() == wanted),
    }
}

/// Does what a line says of a memory, and says whether it is such a line.
fn lays(memory: &mut Memory, word: &str, rest: &str) -> Result<bool, Fail> {
    match word {
        "site" => *memory = memory_of(rest)?,
        "table" => {
            memory.begin();
            set(memory, rest)?;
            memory.keep();
        }
        "on" => {
            memory.begin();
            set(memory, rest)?;
        }
        "set" => set(memory, rest)?,
        "other" => {
            let [after, at, value, _] = numbers(rest)?;
            memory.other = (after, at, value);
        }
        _ => return Ok(word == "#"),
    }
    Ok(true)
}

/// Does what a line says, and says whether all was as it is there.
fn holds(
    alloc: Global,
    deeds: &mut impl Deeds,
    memory: &mut Memory,
    line: &str,
) -> Result<bool, Fail> {
    let Some((word, rest)) = line.split_once(' ') else {
        return event(alloc, deeds, memory, line);
    };
    if lays(memory, word, rest)? {
        return Ok(true);
    }
    match word {
        "begin" => {
            deeds.begin(memory, rest)?;
            Ok(true)
        }
        "do" => ends(alloc, deeds, memory, rest),
        "for" => events(alloc, deeds, memory, rest),
        "keeps" => deeds.keeps(alloc, answer(rest)?),
        "has" => has(memory, rest),
        "locks" => Ok(memory.locks() == number_of(rest)?),
        "stands" | "reply" => Ok(deeds.told(alloc, word)?.as_str() == rest),
        _ => event(alloc, deeds, memory, line),
    }
}

/// Walks all lines of the text of this name, and fails at the first where something else comes.
pub fn walk(alloc: Global, deeds: &mut impl Deeds, name: &str, text: &str) -> Result<(), Fail> {
    let mut memory = memory_of("1 0 1 1")?;
    for (number, line) in text.lines().enumerate() {
        if !holds(alloc, deeds, &mut memory, line)? {
            return Err(Fail::new(format_args!("{name}, row {number}: {line}")));
        }
    }
    Ok(())
}

/// Walks all lines of a text about a machine.
pub fn follow<M: Follows + Drop>(alloc: Global, name: &str, text: &str) -> Result<(), Fail> {
    walk(alloc, &mut Followed::<M> { op: None }, name, text)
}
