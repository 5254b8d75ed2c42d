//! The scripts of a storm, from the numbers of a stream.

ghost use Rattle.std.specs.Prelude.{◌≡◌, ◌+◌, ◌*◌, ◌≤◌, ◌++◌, All, OnOk, IfOk, length};
ghost use Rattle.script_text.specs.Script.{most_script_lines};
ghost use Rattle.script_text.specs.Calls.{IsCallSoFar, IsLineSoFar};
ghost use Rattle.storm.specs.Stream.{behind, next_of};
ghost use Rattle.storm.specs.Scripts.{storm_callers, storm_steps, call_by, call_at, call_lines, step_at, step_lines, cut_at, numbers_of_calls, numbers_of_steps, numbers_of_session, open_lines, cut_lines};
ghost use Rattle.storm.specs.Storm.{most_calls};

use map_model::{Call, FIRST_CALLER, NoMemory};
use pm_trace::{FIRST_STREAM, next_number};
use script_text::{Line, Script};
use std::alloc::Global;

/// How many callers there are.
const CALLERS: u64 = 4;
/// Keys are below this number.
const KEYS: u64 = 4096;
/// Of so many kinds of calls half are inserts and a quarter gets.
const KINDS: u64 = 8;
/// How many lines of each schedule let a caller go on.
const STEPS: u64 = 16;
/// A step has fewer events than so many.
const MOST_STEP: u64 = 1000;

/// The next number.
fn next(state: &mut u64) -> u64
    ensures state { state.new ≡ behind state.old 1 }
    ensures number { result ≡ next_of state.old }
{
    next_number(state)
}

/// The call of this kind.
fn call_of_kind(kind: u64, key: u64, value: u64) -> Call
    ensures is { result ≡ call_by kind key value }
    ensures so_far { IsCallSoFar result }
{
    match kind {
        0..=3 => Call::Insert(key, value),
        4 => Call::Update(key, value),
        5 => Call::Remove(key),
        _ => Call::Get(key),
    }
}

/// The next call.
fn next_call(state: &mut u64) -> Call
    ensures state { state.new ≡ behind state.old 3 }
    ensures call { result ≡ call_at state.old }
    ensures so_far { IsCallSoFar result }
{
    let kind = next(state) % KINDS;
    let key = next(state) % KEYS;
    let value = next(state);
    call_of_kind(kind, key, value)
}

/// The next line of a schedule.
fn next_step(state: &mut u64) -> Line
    ensures state { state.new ≡ behind state.old 2 }
    ensures line { result ≡ step_at state.old }
    ensures so_far { IsLineSoFar result }
{
    let caller = FIRST_CALLER + next(state) % CALLERS;
    let events = next(state) % MOST_STEP;
    Line::Step(caller as u8, events)
}

/// The next power cut.
fn next_cut(state: &mut u64) -> Line
    ensures state { state.new ≡ behind state.old 1 }
    ensures line { result ≡ cut_at state.old }
    ensures so_far { IsLineSoFar result }
{
    Line::Cut(FIRST_STREAM + next(state) % FIRST_STREAM)
}

/// Adds so many calls of each caller; the callers take turns.
fn add_calls(lines: &mut Vec<Line>, state: &mut u64, calls: u64) -> Result<(), NoMemory>
    requires few { calls ≤ most_calls }
    requires so_far { All IsLineSoFar lines.old.items }
    ensures lines { OnOk result (lines.new.items ≡ lines.old.items ++ call_lines state.old calls) }
    ensures count { OnOk result (length lines.new.items ≡ length lines.old.items + storm_callers * calls) }
    ensures state { OnOk result (state.new ≡ behind state.old (numbers_of_calls calls)) }
    ensures so_far { OnOk result (All IsLineSoFar lines.new.items) }
{
    for turn in 0..CALLERS * calls {
        let caller = FIRST_CALLER + turn % CALLERS;
        lines.push(Line::Call(caller as u8, next_call(state)))?;
    }
    Ok(())
}

/// Adds the lines of a schedule.
fn add_steps(lines: &mut Vec<Line>, state: &mut u64) -> Result<(), NoMemory>
    requires so_far { All IsLineSoFar lines.old.items }
    ensures lines { OnOk result (lines.new.items ≡ lines.old.items ++ step_lines state.old) }
    ensures count { OnOk result (length lines.new.items ≡ length lines.old.items + storm_steps) }
    ensures state { OnOk result (state.new ≡ behind state.old numbers_of_steps) }
    ensures so_far { OnOk result (All IsLineSoFar lines.new.items) }
{
    for _step in 0..STEPS {
        lines.push(next_step(state))?;
    }
    Ok(())
}

/// The lines of a session's script.
fn lines_of(alloc: Global, state: &mut u64, calls: u64) -> Result<Vec<Line>, NoMemory>
    requires few { calls ≤ most_calls }
    ensures lines { IfOk result (λ lines. lines.items ≡ open_lines state.old calls) }
    ensures count { IfOk result (λ lines. length lines.items ≡ storm_callers * calls + storm_steps) }
    ensures state { IfOk result (λ lines. state.new ≡ behind state.old (numbers_of_calls calls + numbers_of_steps)) }
    ensures so_far { IfOk result (λ lines. All IsLineSoFar lines.items) }
{
    let mut lines = Vec::with_capacity(alloc, (CALLERS * calls + STEPS + 1) as usize)?;
    add_calls(&mut lines, state, calls)?;
    add_steps(&mut lines, state)?;
    Ok(lines)
}

/// The script of a session that is closed at its end.
pub(crate) fn closed_script(alloc: Global, state: &mut u64, calls: u64) -> Result<Script, NoMemory>
    requires few { calls ≤ most_calls }
    ensures lines { IfOk result (λ script. script ≡ open_lines state.old calls) }
    ensures few { IfOk result (λ script. length script ≤ most_script_lines) }
    ensures so_far { IfOk result (All IsLineSoFar) }
{
    let lines = lines_of(alloc, state, calls)?;
    Ok(Script::new(lines))
}

/// The script of a session that ends with a power cut.
pub(crate) fn cut_script(alloc: Global, state: &mut u64, calls: u64) -> Result<Script, NoMemory>
    requires few { calls ≤ most_calls }
    ensures lines { IfOk result (λ script. script ≡ cut_lines state.old calls) }
    ensures few { IfOk result (λ script. length script ≤ most_script_lines) }
    ensures so_far { IfOk result (All IsLineSoFar) }
    ensures state { IfOk result (λ script. state.new ≡ behind state.old (numbers_of_session calls)) }
{
    let mut lines = lines_of(alloc, state, calls)?;
    lines.push(next_cut(state))?;
    Ok(Script::new(lines))
}
