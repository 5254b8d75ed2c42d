//! Why nothing was measured.

use std::io;

/// The words are none that choose.
pub(crate) fn invalid() -> io::Error {
    io::Error::from(io::ErrorKind::InvalidInput)
}

/// What was read or made is not what it must be.
pub(crate) fn no_data() -> io::Error {
    io::Error::from(io::ErrorKind::InvalidData)
}

/// Memory was wanting.
pub(crate) fn no_memory() -> io::Error {
    io::Error::from(io::ErrorKind::OutOfMemory)
}
