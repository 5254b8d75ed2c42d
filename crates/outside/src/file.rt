// The image's file, as a store. It counts its faults and its writes, and tells no content.
ghost use Rattle.std.specs.Prelude.{◌≡◌, ◌≤◌, ◌+◌, None, IfOk, length, false};
ghost use Rattle.outside.specs.Causes.{Rose};

mod held;
mod opened;
mod rights;
mod second;
mod trouble;

use crate::parts::count_one;
use crate::whole::take_all;
use crate::{Failed, StdSource, Store, StoreFault};
use held::{Held, held_at};
use opened::looked_at;
use second::{put_in_place, second_path, write_second};
use std::alloc::{AllocError, Global};
use std::fs::File;
use std::io::ErrorKind;
use std::rt::Files;
pub use trouble::{Step, Trouble};

/// What a store of a file is for.
#[derive(Clone, Copy, Debug, PartialEq, Eq)]
pub enum Purpose {
    /// It is read, and stays. No lock is taken, so that it may be read while another process writes it.
    Reading,
    /// It is read and written, or written alone. From the read on no other process of this program may write it.
    Writing,
}

// Why bytes were not read.
#[derive(Clone, Copy)]
enum NotRead {
    Because(Trouble),
    NoMemory,
}

impl From<Trouble> for NotRead {
    fn from(trouble: Trouble) -> NotRead {
        NotRead::Because(trouble)
    }
}

// The path with no link in it. Where the system does not tell it, as below a folder that may not be searched, it is as
// it was given, unless it is a link itself.
fn followed<R: Files>(
    rt: &R,
    alloc: Global,
    path: &str,
) -> Result<(String, Option<Trouble>), AllocError> {
    match rt.canonicalize(alloc, path) {
        Ok(real) => Ok((real.into_string(), None)),
        Err(error) if error.kind() == ErrorKind::OutOfMemory => Err(AllocError),
        Err(error) => {
            let given = String::from_str(alloc, path)?;
            match rt.symlink_metadata(path) {
                Ok(found) if found.is_symlink() && error.kind() != ErrorKind::NotFound => {
                    Ok((given, Some(Trouble::Refused(Step::Follow, error))))
                }
                _ => Ok((given, None)),
            }
        }
    }
}

// All bytes from here to the end, or the first `limit + 1`.
fn read_whole(alloc: Global, file: &File, limit: u64) -> Result<Vec<u8>, NotRead>
    ensures { IfOk result (λ bytes. length bytes.items ≤ limit + 1) }
{
    let mut source = StdSource::new(file);
    match take_all(alloc, &mut source, limit) {
        Ok(bytes) => Ok(bytes),
        Err(StoreFault::NoMemory) => Err(NotRead::NoMemory),
        Err(StoreFault::Failed) => Err(NotRead::Because(match source.trouble {
            Some(reason) => Trouble::Refused(Step::Read, reason),
            None => Trouble::Missing,
        })),
    }
}

/// A file. A write goes to a new second file in its folder, which then takes its name.
///
/// A path that is a symbolic link stands for the file that it leads to. Once a call has failed, every later one does.
///
/// Trusted: the bytes that the system reads and writes; that a synced file is on the disk; that a file which is asked
/// for as a new one is new; that a lock is held by one process at a time, where the file system has locks; and that a
/// rename in one folder replaces the first file in one step. So a process that is killed at any time leaves the old
/// file or the new one.
#[derive(Drop)]
pub struct FileStore<'a, R: Files<File = File>> {
    rt: &'a R,
    path: String,
    second: String,
    purpose: Purpose,
    held: Option<Held>,
    trouble: Option<Trouble>,
    /// How many calls failed.
    pub faults: u64,
    /// How many calls were writes.
    pub writes: u64,
    /// Whether the last of these failed.
    pub lost: bool,
}

impl<'a, R: Files<File = File>> FileStore<'a, R> {
    /// The file at this path. The number names the second file.
    ///
    /// # Errors
    ///
    /// `AllocError` if there is no memory for the two paths.
    pub fn new(
        rt: &'a R,
        alloc: Global,
        path: &str,
        purpose: Purpose,
        number: u64,
    ) -> Result<Self, AllocError>
        ensures faults { IfOk result (λ store. store.faults ≡ 0) }
        ensures writes { IfOk result (λ store. store.writes ≡ 0) }
        ensures lost { IfOk result (λ store. store.lost ≡ false) }
    {
        let (path, trouble) = followed(rt, alloc, path)?;
        let second = second_path(alloc, path.as_str(), number)?;
        Ok(FileStore {
            rt,
            path,
            second,
            purpose,
            held: None,
            trouble,
            faults: 0,
            writes: 0,
            lost: false,
        })
    }

    /// Why a call failed, where one did.
    pub fn trouble(&self) -> Option<Trouble> {
        self.trouble
    }

    // Notes the trouble, and counts it.
    fn fail(&mut self, trouble: Trouble) -> Failed
        ensures later { self.old.faults ≤ self.new.faults }
        ensures rose { Rose self.old.faults self.new.faults }
        ensures writes { self.new.writes ≡ self.old.writes }
        ensures lost { self.new.lost ≡ self.old.lost }
    {
        self.trouble = Some(trouble);
        count_one(&mut self.faults);
        Failed
    }

    // The bytes, or the first `limit + 1`. A file that is to be written is locked, and stays so.
    fn bytes(&mut self, alloc: Global, limit: u64) -> Result<Vec<u8>, NotRead>
        ensures bound { IfOk result (λ bytes. length bytes.items ≤ limit + 1) }
        ensures faults { self.new.faults ≡ self.old.faults }
        ensures writes { self.new.writes ≡ self.old.writes }
        ensures lost { self.new.lost ≡ self.old.lost }
    {
        if let Some(trouble) = self.trouble {
            return Err(NotRead::Because(trouble));
        }
        match self.purpose {
            Purpose::Reading => {
                let file = looked_at(self.rt, self.path.as_str())?;
                read_whole(alloc, &file, limit)
            }
            Purpose::Writing => {
                self.held = None;
                let held = Held::take(self.rt, self.path.as_str())?;
                let bytes = read_whole(alloc, &held.file, limit)?;
                self.held = Some(held);
                Ok(bytes)
            }
        }
    }

    // Replaces the file, or makes it where there is none, and gives the lock back.
    fn replace(&mut self, bytes: &[u8]) -> Result<(), Trouble>
        ensures faults { self.new.faults ≡ self.old.faults }
        ensures writes { self.new.writes ≡ self.old.writes }
        ensures lost { self.new.lost ≡ self.old.lost }
    {
        if let Some(trouble) = self.trouble {
            return Err(trouble);
        }
        let (path, second) = (self.path.as_str(), self.second.as_str());
        let before = match self.held.take() {
            Some(held) => Some(held),
            None => held_at(self.rt, path)?,
        };
        write_second(self.rt, second, before.as_ref(), bytes)?;
        put_in_place(self.rt, second, path, before.as_ref())
    }
}

impl<'a, R: Files<File = File>> Store for FileStore<'a, R> {
    ghost contents = { λ s. None };

    ghost faults = { λ s. s.faults };

    ghost writes = { λ s. s.writes };

    ghost lost = { λ s. s.lost };

    fn read_all(&mut self, alloc: Global, limit: u64) -> Result<Vec<u8>, StoreFault> {
        match self.bytes(alloc, limit) {
            Ok(bytes) => Ok(bytes),
            Err(NotRead::NoMemory) => Err(StoreFault::NoMemory),
            Err(NotRead::Because(trouble)) => {
                self.fail(trouble);
                Err(StoreFault::Failed)
            }
        }
    }

    fn write_all(&mut self, bytes: &[u8]) -> Result<(), Failed> {
        self.writes += 1;
        match self.replace(bytes) {
            Ok(()) => {
                self.lost = false;
                Ok(())
            }
            Err(trouble) => {
                self.lost = true;
                Err(self.fail(trouble))
            }
        }
    }
}
