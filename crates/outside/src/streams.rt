// Std's readers and writers as a source and a sink. They count their faults and keep the reason of the last one; they tell
// no content. What is trusted is named at each; no clause can say what a stream gives and takes.
ghost use Rattle.std.specs.Prelude.{◌≡◌, ◌≤◌, ◌+◌, None, IfOk, length, take};
ghost use Rattle.std.specs.Io.{ReadsAtMost, WritesAtMost};
ghost use Rattle.std.specs.Io.KnownBytes.{Appends, Keeps, ReadConsumes, WriteAppends};
ghost use Rattle.outside.specs.Causes.{HasCause, TakesSome};

use crate::parts::count_one;
use crate::{Failed, Sink, Source};
use std::io;
use std::io::{ErrorKind, Read, Write};

// How often a call that a signal interrupted is made again, at most.
const MOST_TRIES: u32 = 1_000_000;

/// Any reader of std, as standard input. Trusted: that a reader which gives no byte is at its end.
#[derive(Drop)]
pub struct StdSource<R: Read> {
    /// The reader.
    pub inner: R,
    /// How many calls failed.
    pub faults: u64,
    /// Why the last of them failed.
    pub trouble: Option<io::Error>,
}

impl<R: Read> StdSource<R> {
    /// What this reader gives from here on.
    pub fn new(inner: R) -> Self
        ensures inner { result.inner ≡ inner }
        ensures faults { result.faults ≡ 0 }
    {
        StdSource {
            inner,
            faults: 0,
            trouble: None,
        }
    }
}

// A read that a signal interrupts has taken nothing, and is made again.
fn read_through<R: Read>(reader: &mut R, buf: &mut [u8]) -> io::Result<usize>
    ensures bound { ReadsAtMost result buf.new }
    ensures bytes { ReadConsumes (R.remaining reader.old) (R.remaining reader.new) result buf.new }
{
    'tries: for _ in 0..MOST_TRIES {
        match reader.read(buf) {
            Ok(count) => return Ok(count),
            Err(reason) => {
                if reason.kind() != ErrorKind::Interrupted {
                    return Err(reason);
                }
            }
        }
    }
    Err(io::Error::from(ErrorKind::Interrupted))
}

impl<R: Read> Source for StdSource<R> {
    ghost left = { λ s. None };

    ghost faults = { λ s. s.faults };

    fn pull(&mut self, buf: &mut [u8]) -> Result<usize, Failed>
        ensures bound { ReadsAtMost result buf.new }
        ensures cause { HasCause self.old.faults self.new.faults result }

        // What is pulled is what the reader gave, where std knows its bytes.
        ensures bytes { ReadConsumes (R.remaining self.old.inner) (R.remaining self.new.inner) result buf.new }
    {
        match read_through(&mut self.inner, buf) {
            Ok(count) => Ok(count),
            Err(reason) => {
                self.trouble = Some(reason);
                count_one(&mut self.faults);
                Err(Failed)
            }
        }
    }
}

/// Any writer of std, as standard output. Each push is flushed. Trusted: that a writer has passed on what it says
/// that it took.
#[derive(Drop)]
pub struct StdSink<W: Write> {
    /// The writer.
    pub inner: W,
    /// How many calls failed, or took nothing of a piece that is not empty.
    pub faults: u64,
    /// Why the last of them failed, where the writer said it.
    pub trouble: Option<io::Error>,
}

impl<W: Write> StdSink<W> {
    /// What is pushed goes to this writer.
    pub fn new(inner: W) -> Self
        ensures inner { result.inner ≡ inner }
        ensures faults { result.faults ≡ 0 }
    {
        StdSink {
            inner,
            faults: 0,
            trouble: None,
        }
    }
}

// A write that a signal interrupts has passed nothing on, and is made again.
fn write_through<W: Write>(writer: &mut W, buf: &[u8]) -> io::Result<usize>
    ensures bound { WritesAtMost result buf.now }
    ensures bytes { WriteAppends (W.contents writer.old) (W.contents writer.new) result buf.now }
{
    'tries: for _ in 0..MOST_TRIES {
        match writer.write(buf) {
            Ok(count) => return Ok(count),
            Err(reason) => {
                if reason.kind() != ErrorKind::Interrupted {
                    return Err(reason);
                }
            }
        }
    }
    Err(io::Error::from(ErrorKind::Interrupted))
}

fn flush_through<W: Write>(writer: &mut W) -> io::Result<()>
    ensures bytes { Keeps (W.contents writer.old) (W.contents writer.new) }
{
    'tries: for _ in 0..MOST_TRIES {
        match writer.flush() {
            Ok(()) => return Ok(()),
            Err(reason) => {
                if reason.kind() != ErrorKind::Interrupted {
                    return Err(reason);
                }
            }
        }
    }
    Err(io::Error::from(ErrorKind::Interrupted))
}

fn write_and_flush<W: Write>(writer: &mut W, buf: &[u8]) -> io::Result<usize>
    ensures bound { WritesAtMost result buf.now }
    ensures bytes { IfOk result (λ count.
        Appends (W.contents writer.old) (W.contents writer.new) (take count buf.now)) }
{
    let count = write_through(writer, buf)?;
    flush_through(writer)?;
    Ok(count)
}

impl<W: Write> Sink for StdSink<W> {
    ghost taken = { λ s. None };

    ghost faults = { λ s. s.faults };

    fn push(&mut self, buf: &[u8]) -> Result<usize, Failed>
        ensures bound { WritesAtMost result buf.now }
        ensures cause { HasCause self.old.faults self.new.faults result }
        ensures some { TakesSome self.old.faults self.new.faults result buf.now }

        // What is pushed went to the writer, where std knows its bytes. After a flush that failed they may have.
        ensures bytes { IfOk result (λ count.
            Appends (W.contents self.old.inner) (W.contents self.new.inner) (take count buf.now)) }
    {
        match write_and_flush(&mut self.inner, buf) {
            Ok(0) if !buf.is_empty() => {
                count_one(&mut self.faults);
                Ok(0)
            }
            Ok(count) => Ok(count),
            Err(reason) => {
                self.trouble = Some(reason);
                count_one(&mut self.faults);
                Err(Failed)
            }
        }
    }
}
