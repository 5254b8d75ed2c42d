// A file that is locked against other processes of this program.
use super::opened::{opened, regular};
use super::trouble::{Step, Trouble};
use std::fs::{File, Metadata, OpenOptions, TryLockError};
use std::io::ErrorKind;
use std::os::unix::fs::MetadataExt;
use std::rt::Files;

/// A file that may be written, with its lock, until it is dropped.
///
/// The lock belongs to the file and not to its name, and the file under a name changes when another process puts a
/// new one in its place. So who has taken the lock looks whether the name still means this file; while he holds it, no
/// other process of this program puts another one there.
#[derive(Drop)]
pub struct Held {
    /// The file, open for reading and writing.
    pub file: File,
    /// What it was like when it was locked.
    pub found: Metadata,
}

impl Held {
    /// Locks the file at this path, or says at once why not. A file system without locks gives none, and refuses nothing.
    pub fn take<R: Files<File = File>>(rt: &R, path: &str) -> Result<Held, Trouble> {
        if regular(rt, path)?.permissions().readonly() {
            return Err(Trouble::ReadOnly);
        }
        let file = match opened(rt, OpenOptions::new().read(true).write(true), path) {
            Ok(file) => file,
            Err(error) => return Err(Trouble::Refused(Step::Open, error)),
        };
        if let Err(TryLockError::WouldBlock) = file.try_lock() {
            return Err(Trouble::Busy);
        }
        let held = match file.metadata() {
            Ok(found) => Held { file, found },
            Err(error) => return Err(Trouble::Refused(Step::Open, error)),
        };
        held.is_named(rt, path)?;
        Ok(held)
    }

    fn is(&self, named: &Metadata) -> bool {
        named.dev() == self.found.dev() && named.ino() == self.found.ino()
    }

    /// Fails where the name at this path does not mean this very file.
    pub fn is_named<R: Files>(&self, rt: &R, path: &str) -> Result<(), Trouble> {
        match rt.symlink_metadata(path) {
            Ok(named) if self.is(&named) => Ok(()),
            Ok(_) => Err(Trouble::Replaced),
            Err(error) if error.kind() == ErrorKind::NotFound => Err(Trouble::Replaced),
            Err(error) => Err(Trouble::Refused(Step::Follow, error)),
        }
    }
}

/// The file at this path, locked; none where nothing has the name.
pub fn held_at<R: Files<File = File>>(rt: &R, path: &str) -> Result<Option<Held>, Trouble> {
    match rt.symlink_metadata(path) {
        Ok(found) if found.is_symlink() => Err(Trouble::LeadsNowhere),
        Ok(_) => Ok(Some(Held::take(rt, path)?)),
        Err(error) if error.kind() == ErrorKind::NotFound => Ok(None),
        Err(error) => Err(Trouble::Refused(Step::Follow, error)),
    }
}
