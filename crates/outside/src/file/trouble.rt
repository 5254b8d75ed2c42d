// Why a file could not be read or written, in words that tell what to do.
use std::{fmt, io};

/// What was being done when the system refused.
#[derive(Clone, Copy, Debug, PartialEq, Eq)]
pub enum Step {
    /// The path was followed.
    Follow,
    /// The file was opened.
    Open,
    /// The file was read.
    Read,
    /// A second file was made in its folder.
    Make,
    /// The second file was written, or brought to the disk.
    Write,
    /// The second file took the place of the first.
    Rename,
}

/// Why a call on a file failed. With each of these the file is as it was before the call.
#[derive(Clone, Copy, Debug)]
pub enum Trouble {
    /// Nothing has this name.
    Missing,
    /// The name is that of a link which leads to nothing.
    LeadsNowhere,
    /// What has the name is no regular file.
    NoFile,
    /// Nobody is let write the file.
    ReadOnly,
    /// Another process holds the lock.
    Busy,
    /// The name is no longer that of the file that was found there before.
    Replaced,
    /// The system refused this step, for this reason.
    Refused(Step, io::Error),
}

// What a step that the system refused has not done.
fn undone(step: Step) -> &'static str {
    match step {
        Step::Follow => "its path could not be followed",
        Step::Open => "its file could not be opened",
        Step::Read => "its file could not be read",
        Step::Make => "no new file could be made in its folder",
        Step::Write => "the new file in its folder could not be written, and is removed",
        Step::Rename => "the new file in its folder could not take its place, and is removed",
    }
}

// What to do about it.
fn remedy(step: Step) -> &'static str {
    match step {
        Step::Follow => "give the path of a file that this user can reach",
        Step::Open => "see that this user may read it, and for format and play write it",
        Step::Read => "try again, or use an earlier copy of it",
        Step::Make => {
            "nothing was changed: see that the folder is there, and that this user may write in it"
        }
        Step::Write => "nothing was changed: see that its disk has room and is well, and try again",
        Step::Rename => {
            "nothing was changed: see that the path is that of a file which this user may replace"
        }
    }
}

impl fmt::Display for Trouble {
    fn fmt<W: fmt::Write>(&self, f: &mut fmt::Formatter<W>) -> fmt::Result {
        f.write_str(match self {
            Trouble::Missing => {
                "there is no such file: give the path of an image, or make one, by the words `format 1 0 0`"
            }
            Trouble::LeadsNowhere => {
                "this is a symbolic link to a file that is not there: give the path of that file to format, or remove the link"
            }
            Trouble::NoFile => {
                "this is a folder, a device or a pipe: give the path of a regular file"
            }
            Trouble::ReadOnly => {
                "its mode lets nobody write it, so it stays as it is: allow it, as by chmod u+w"
            }
            Trouble::Busy => {
                "another process is at work on this image, so nothing was changed: try again when it has ended"
            }
            Trouble::Replaced => {
                "another process made, replaced or removed this file meanwhile, so nothing was changed: try again"
            }
            Trouble::Refused(step, reason) => {
                return write!(f, "{}: {reason}; {}", undone(*step), remedy(*step));
            }
        })
    }
}
