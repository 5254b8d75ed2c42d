// The outside in memory at the end of its room and at failing calls; and std's readers and writers as a source and a sink, which no clause can
// tell of: pieces of any length, interrupts, a reason that is kept, and a real file.
mod files;

use crate::rows::{Tells, script_of, shown, walk};
use outside::{
    MemSink, MemSource, MemStore, Sink, Source, StdSink, StdSource, Store, StoreFault, put_all,
    take_all,
};
use row_file::{first_word, number_of};
use std::alloc::Global;
use std::io::{BufWriter, ErrorKind, Read, Write};
use std::test::Fail;
use std::{fs, io};

// The bytes as a text, or why there are none.
fn bytes_told(alloc: Global, bytes: Result<Vec<u8>, StoreFault>) -> Result<String, Fail> {
    match bytes {
        Ok(bytes) => Ok(String::from_utf8(bytes)?),
        Err(fault) => shown(alloc, &fault),
    }
}

impl Tells for MemStore {
    fn told(&mut self, alloc: Global, asked: &str) -> Result<String, Fail> {
        let (name, text) = first_word(asked);
        match name {
            "read" => bytes_told(alloc, self.read_all(alloc, number_of(text)?)),
            "write" if self.writes < u64::MAX => shown(alloc, &self.write_all(text.as_bytes())),
            "bytes" => bytes_told(alloc, Ok(self.bytes.as_slice().to_vec(alloc)?)),
            "counts" => shown(alloc, &(self.faults, self.writes)),
            _ => Err(Fail::new(name)),
        }
    }
}

impl Tells for MemSource {
    fn told(&mut self, alloc: Global, asked: &str) -> Result<String, Fail> {
        let (name, text) = first_word(asked);
        match name {
            "pull" => {
                let mut piece = [0; 2];
                let count = self.pull(&mut piece);
                shown(alloc, &(count, piece))
            }
            "take" => bytes_told(alloc, take_all(alloc, self, number_of(text)?)),
            "faults" => shown(alloc, &self.faults),
            _ => Err(Fail::new(name)),
        }
    }
}

impl Tells for MemSink {
    fn told(&mut self, alloc: Global, asked: &str) -> Result<String, Fail> {
        let (name, text) = first_word(asked);
        match name {
            "put" => shown(alloc, &put_all(self, text.as_bytes())),
            "push" => shown(alloc, &self.push(text.as_bytes())),
            "bytes" => bytes_told(alloc, Ok(self.bytes.as_slice().to_vec(alloc)?)),
            "faults" => shown(alloc, &self.faults),
            _ => Err(Fail::new(name)),
        }
    }
}

#[test]
fn store_in_memory(rt: HostRuntime) -> Result<(), Fail> {
    let mut store = MemStore::new(rt.alloc(), b"abc", 4, &[2, 5])?;
    walk(rt.alloc(), &mut store, STORE)
}

#[test]
fn source_in_memory(rt: HostRuntime) -> Result<(), Fail> {
    let fails = [1].to_vec(rt.alloc())?;
    let mut source = MemSource::new(b"abcdef".to_vec(rt.alloc())?, fails);
    walk(rt.alloc(), &mut source, SOURCE)
}

#[test]
fn sink_in_memory(rt: HostRuntime) -> Result<(), Fail> {
    let mut sink = MemSink::new(rt.alloc(), 5, [2].to_vec(rt.alloc())?)?;
    walk(rt.alloc(), &mut sink, SINK)
}

/// A store that holds `abc`, has room for four bytes, and fails at its second and fifth call. `counts` tells the faults and the writes.
const STORE: &str = "\
# All is read, the second call fails, and four bytes fit.
read 9 -> abc
write xy -> Err(Failed)
write defg -> Ok(())
# One byte is read past the limit.
read 1 -> de
# The fifth call fails, and five bytes are past the room. A write that failed leaves what was there.
read 9 -> Failed
write hijkl -> Err(Failed)
bytes -> defg
counts -> (3, 3)
";

/// A source of `abcdef` that fails at its first call. `pull` has room for two bytes, and tells their numbers.
const SOURCE: &str = "\
pull -> (Err(Failed), [0, 0])
faults -> 1
pull -> (Ok(2), [97, 98])
# One byte is taken past the limit, and the last one is left.
take 2 -> cde
take 2 -> f
";

/// A sink that has room for five bytes and fails at its second call.
const SINK: &str = "\
put abc -> Ok(())
put d -> Err(Failed)
# Three more are past the room, and two more fit.
put def -> Err(Failed)
push de -> Ok(2)
bytes -> abcde
faults -> 2
";

// A reader that gives three bytes at a time, is interrupted before each, and fails where it meets an exclamation mark.
#[derive(Drop)]
struct Drip<'a> {
    rest: &'a [u8],
    interrupted: bool,
}

impl<'a> Read for Drip<'a> {
    fn read(&mut self, buf: &mut [u8]) -> io::Result<usize> {
        self.interrupted = !self.interrupted;
        if self.interrupted {
            return Err(io::Error::from(ErrorKind::Interrupted));
        }
        let rest: &[u8] = self.rest;
        if rest.first() == Some(&b'!') {
            return Err(io::Error::other("an exclamation mark"));
        }
        let count = rest.len().min(buf.len()).min(3);
        buf[..count].copy_from_slice(&rest[..count]);
        self.rest = &rest[count..];
        Ok(count)
    }
}

fn dripping(rest: &[u8]) -> Drip<'_> {
    Drip {
        rest,
        interrupted: false,
    }
}

// What is taken of a reader that drips these bytes, how many faults there were, and the reason that is kept.
fn dripped(alloc: Global, bytes: &[u8]) -> Result<String, Fail> {
    let mut source = StdSource::new(dripping(bytes));
    let taken = take_all(alloc, &mut source, 99);
    let reason = source.trouble.map(|reason| reason.kind());
    shown(alloc, &(taken, source.faults, reason))
}

// A writer that takes two bytes at a time, and is interrupted before each, and once in each flush.
#[derive(Drop)]
struct Slow {
    taken: Vec<u8>,
    interrupted: bool,
}

impl Slow {
    fn interrupt(&mut self) -> io::Result<()> {
        self.interrupted = !self.interrupted;
        if self.interrupted {
            Err(io::Error::from(ErrorKind::Interrupted))
        } else {
            Ok(())
        }
    }
}

impl Write for Slow {
    fn write(&mut self, buf: &[u8]) -> io::Result<usize> {
        self.interrupt()?;
        let count = buf.len().min(2);
        self.taken.extend_from_slice(&buf[..count])?;
        Ok(count)
    }

    fn flush(&mut self) -> io::Result<()> {
        self.interrupt()
    }
}

// What comes of a sink over such a writer, whether it took each byte once, and how many faults there were.
fn slowed(alloc: Global, bytes: &[u8]) -> Result<String, Fail> {
    let mut sink = StdSink::new(Slow {
        taken: Vec::new(alloc),
        interrupted: false,
    });
    let put = put_all(&mut sink, bytes);
    let same = sink.inner.taken.as_slice() == bytes;
    shown(alloc, &(put, same, sink.faults))
}

// What comes of a sink over a writer with room for four bytes, and how many faults there were.
fn narrowed(alloc: Global, bytes: &[u8]) -> Result<String, Fail> {
    let mut room = [0u8; 4];
    let mut sink = StdSink::new(room.as_mut_slice());
    let put = put_all(&mut sink, bytes);
    shown(alloc, &(put, sink.faults))
}

// What comes of a sink over a file, and whether what it took is in the file at once.
fn filed(rt: &HostRuntime, bytes: &[u8]) -> Result<String, Fail> {
    let file = fs::create(rt, "sink.img")?;
    let mut sink = StdSink::new(BufWriter::new(rt.alloc(), file)?);
    let put = put_all(&mut sink, bytes);
    let found = fs::read_to_string(rt, "sink.img")?;
    shown(rt.alloc(), &(put, found.as_bytes() == bytes))
}

// Readers and writers of std.
#[derive(Drop)]
struct Streams<'a> {
    rt: &'a HostRuntime,
}

impl<'a> Tells for Streams<'a> {
    fn told(&mut self, alloc: Global, asked: &str) -> Result<String, Fail> {
        let (name, text) = first_word(asked);
        let bytes = script_of(alloc, text)?;
        match name {
            "drip" => dripped(alloc, &bytes),
            "slow" => slowed(alloc, &bytes),
            "narrow" => narrowed(alloc, &bytes),
            "file" => filed(self.rt, &bytes),
            _ => Err(Fail::new(name)),
        }
    }
}

#[test]
fn readers_and_writers_of_std(rt: HostRuntime) -> Result<(), Fail> {
    walk(rt.alloc(), &mut Streams { rt: &rt }, STREAMS)?;
    Ok(fs::remove_file(&rt, "sink.img")?)
}

/// A source or a sink, and its bytes, with a `;` for a line feed.
const STREAMS: &str = "\
# All pieces are taken, and an interrupt is no fault.
drip 1 get 5; -> (Ok([49, 32, 103, 101, 116, 32, 53, 10]), 0, None)
# A reader that fails is told, and its reason is kept.
drip 1 get ! -> (Err(Failed), 1, Some(Other))
# Interrupted writes are made again.
slow 1 1 ABSENT @0; -> (Ok(()), true, 0)
# A sink over a file; and a full writer, where the write that failed is counted.
file 1 1 ABSENT @0; -> (Ok(()), true)
narrow 12345 -> (Err(Failed), 1)
";
