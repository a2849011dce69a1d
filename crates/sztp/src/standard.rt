//! The descriptors 0, 1 and 2, which are those of standard input, output and errors.

use std::fs::File;
use std::os::fd::{AsRawFd, RawFd};
use std::rt::Files;

/// The last of them.
const STANDARD_ERROR: RawFd = 2;

/// Files that hold those of them that were free when the program began.
pub type Held<F> = [Option<F>; 3];

/// Holds those that are free, so that nothing that is opened later is taken for standard output. `None` where it isn't
/// known that all three are taken. Descriptors are given in order, so behind the first greater one none is free.
pub fn hold_standard<R: Files>(files: &R) -> Option<Held<R::File>>
where
    R::File: AsRawFd,
{
    let mut held = [None, None, None];
    for place in &mut held {
        let file = harmless(files)?;
        if file.as_raw_fd() > STANDARD_ERROR {
            break;
        }
        *place = Some(file);
    }
    Some(held)
}

// A file from which nothing comes: the null device, or the root folder.
fn harmless<R: Files>(files: &R) -> Option<R::File> {
    match File::open(files, "/dev/null") {
        Ok(file) => Some(file),
        Err(_) => File::open(files, "/").ok(),
    }
}
