// A file that was opened, by a descriptor above those of the standard streams.
use super::trouble::{Step, Trouble};
use std::fs::{File, Metadata, OpenOptions};
use std::io;
use std::io::ErrorKind;
use std::os::fd::AsRawFd;
use std::rt::Files;

/// What the name at this path stands for, where it is a regular file.
pub fn regular<R: Files>(rt: &R, path: &str) -> Result<Metadata, Trouble> {
    match rt.metadata(path) {
        Ok(found) if found.is_file() => Ok(found),
        Ok(_) => Err(Trouble::NoFile),
        Err(error) if error.kind() == ErrorKind::NotFound => Err(absent(rt, path)),
        Err(error) => Err(Trouble::Refused(Step::Follow, error)),
    }
}

// Why nothing is found at this path: nothing has the name, or a link that leads to nothing.
fn absent<R: Files>(rt: &R, path: &str) -> Trouble {
    match rt.symlink_metadata(path) {
        Ok(found) if found.is_symlink() => Trouble::LeadsNowhere,
        _ => Trouble::Missing,
    }
}

/// This file by a descriptor above those of the standard streams. What is meant for one of these that is closed must
/// not come to a file that has its descriptor.
pub fn above_streams(file: File) -> io::Result<File> {
    if file.as_raw_fd() <= 2 {
        return file.try_clone();
    }
    Ok(file)
}

/// Opens a file, by a descriptor above those of the standard streams.
pub fn opened<R: Files<File = File>>(rt: &R, how: &OpenOptions, path: &str) -> io::Result<File> {
    above_streams(how.open(rt, path)?)
}

/// Opens a regular file to be read.
pub fn looked_at<R: Files<File = File>>(rt: &R, path: &str) -> Result<File, Trouble> {
    regular(rt, path)?;
    match opened(rt, OpenOptions::new().read(true), path) {
        Ok(file) => Ok(file),
        Err(error) => Err(Trouble::Refused(Step::Open, error)),
    }
}
