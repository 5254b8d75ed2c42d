//! The flushes that their callers have not fenced.

ghost use Rattle.std.specs.Prelude.{◌≡◌, ◌<◌, ◌≤◌, ◌==◌, not, All, filter, map, length, vec_len, vec_capacity};
ghost use Rattle.trace.specs.Events.{HasLine};
ghost use Rattle.pm_trace.specs.Memory.{flushes_of};
ghost use Rattle.pm_trace.specs.FlushLists.{is_of, added, with_line, settled_by, renewed, renewed_by, left_by};

use trace::LINE_WORDS;

/// A line that a caller flushed, with its words then, or with later ones that were settled since.
#[derive(Clone, Copy)]
pub struct Flush {
    pub(crate) caller: u8,
    pub(crate) line: u64,
    pub(crate) words: [u64; LINE_WORDS],
}

/// How many flushes a caller has.
pub(crate) fn count(flushes: &[Flush], caller: u8) -> usize
    ensures { result ≡ length (flushes_of caller flushes.now) }
{
    flushes
        .iter()
        .filter(|flush| flush.caller == caller)
        .count()
}

/// Forgets a caller's flush of a line.
fn forget(flushes: &mut Vec<Flush>, caller: u8, line: u64)
    ensures items { flushes.new.items ≡ filter (λ f. not (is_of caller line f)) flushes.old.items }
    ensures len { vec_len flushes.new ≤ vec_len flushes.old }
    ensures room { vec_capacity flushes.new ≡ vec_capacity flushes.old }
{
    flushes.retain(|flush| !(flush.caller == caller && flush.line == line));
}

/// Adds a flush, in the place of an earlier one of its line by its caller.
pub(crate) fn add(flushes: &mut Vec<Flush>, flush: Flush)
    requires { vec_len flushes.old < vec_capacity flushes.old }
    ensures items { flushes.new.items ≡ added flush flushes.old.items }
    ensures room { vec_capacity flushes.new ≡ vec_capacity flushes.old }
{
    forget(flushes, flush.caller, flush.line);
    flushes.push_reserved(flush);
}

fn settle_line(words: &mut [u64], line: u64, values: &[u64; LINE_WORDS])
    requires { HasLine (length words.old) line }
    ensures { words.new ≡ with_line words.old line values.now }
{
    let at = LINE_WORDS * line as usize;
    words[at..at + LINE_WORDS].copy_from_slice(values);
}

/// Settles what a caller flushed.
pub(crate) fn settle(words: &mut [u64], flushes: &[Flush], caller: u8)
    requires { All (λ f. HasLine (length words.old) f.line) flushes.now }
    ensures { words.new ≡ settled_by caller flushes.now words.old }
{
    for flush in flushes {
        if flush.caller == caller {
            settle_line(words, flush.line, &flush.words);
        }
    }
}

/// The flushes of a line hold these words.
fn renew(flushes: &mut [Flush], line: u64, words: &[u64; LINE_WORDS])
    ensures { flushes.new ≡ map (renewed line words.now) flushes.old }
{
    for at in 0..flushes.len() {
        if flushes[at].line == line {
            flushes[at].words = *words;
        }
    }
}

/// Of each line that a caller flushed, the flushes before that hold its words.
fn renew_older(flushes: &mut [Flush], caller: u8)
    ensures { flushes.new ≡ renewed_by caller flushes.old }
{
    for at in 0..flushes.len() {
        let flush = flushes[at];
        if flush.caller == caller {
            renew(&mut flushes[..at], flush.line, &flush.words);
        }
    }
}

/// Forgets what a caller flushed and has fenced. An earlier flush of such a line by another caller no longer decides:
/// it holds the later words from now on.
pub(crate) fn fence(flushes: &mut Vec<Flush>, caller: u8)
    ensures items { flushes.new.items ≡ left_by caller flushes.old.items }
    ensures room { vec_capacity flushes.new ≡ vec_capacity flushes.old }
{
    renew_older(flushes, caller);
    flushes.retain(|flush| flush.caller != caller);
}
