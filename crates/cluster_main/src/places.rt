//! The file descriptors of the standard streams.

use std::fs::{File, Files};
use std::io;

/// Opens the working folder once for each standard stream. A file that is opened takes the lowest file descriptor that is
/// free: where a standard stream is closed, this folder takes its descriptor, and not a journal, into which the stream's bytes
/// would go. A folder can be neither read nor written as a file, so the stream fails as a closed one does.
///
/// # Errors
/// That of the system, where the folder can't be opened; the descriptors are free then, so that no journal may be opened.
pub fn hold_places<R: Files>(rt: &R) -> io::Result<[R::File; 3]> {
    let first = File::open(rt, ".")?;
    let second = File::open(rt, ".")?;
    Ok([first, second, File::open(rt, ".")?])
}
