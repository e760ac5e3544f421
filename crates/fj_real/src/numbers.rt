// The numbers 0, 1 and 2, under which a program has standard input, output and error.
use std::fs::File;
use std::io::Result;
use std::os::fd::{AsRawFd, IntoRawFd};
use std::rt::Files;

/// The number of standard error.
const STANDARD_ERROR: i32 = 2;
/// The number of the system's error where a process may have no more numbers, or none so high (open(2), EMFILE).
const NO_MORE_NUMBERS: i32 = 24;

/// A folder, open for reading: no byte can be read from it or written to it.
fn open_folder<R: Files<File = File>>(rt: &R) -> Result<File> {
    match File::open(rt, "/") {
        Ok(folder) => Ok(folder),
        Err(_) => File::open(rt, "."),
    }
}

/// Whether the lowest number that is free was one of the three, and is taken now.
fn hold_one<R: Files<File = File>>(rt: &R) -> Result<bool> {
    let folder = match open_folder(rt) {
        Err(error) if error.raw_os_error() == Some(NO_MORE_NUMBERS) => return Ok(false),
        opened => opened?,
    };
    if folder.as_raw_fd() > STANDARD_ERROR {
        return Ok(false);
    }
    let _held = folder.into_raw_fd();
    Ok(true)
}

/// Holds each of the numbers 0, 1 and 2 that is free, until the program ends: else the next file that is opened gets the
/// lowest of them, and what goes to standard output goes into that file. A read from a number that is held fails, and a
/// write to it. To be called before any file is opened. Where a process may have no more numbers no file gets one either.
pub fn hold_standard_numbers<R: Files<File = File>>(rt: &R) -> Result<()> {
    for _ in 0..=STANDARD_ERROR {
        if !hold_one(rt)? {
            return Ok(());
        }
    }
    Ok(())
}
