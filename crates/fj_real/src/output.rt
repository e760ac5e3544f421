// Standard output, which may lead into a file.
ghost use Rattle.std.specs.Prelude.{◌≤◌};

use crate::limit::{file_limit, output_place, within};
use std::fs::{self, File};
use std::io::{Error, Result, Write};
use std::rt::Files;

/// The number of the system's error where a file would pass its limit (write(2), EFBIG).
const TOO_LARGE: i32 = 27;

/// Standard output. Where it leads into a file and the process has a limit on a file, a write that would pass it fails, and
/// raises no signal. Without such a limit it costs no more than the plain one.
#[derive(Drop)]
pub struct RealOutput<R: Drop, W: Drop> {
    rt: R,
    plain: W,
    /// The first place that no file may have.
    limit: u64,
}

impl<R: Files<File = File> + Drop, W: Write + Drop> RealOutput<R, W> {
    pub fn new(rt: R, plain: W) -> RealOutput<R, W> {
        let limit = file_limit(&rt);
        RealOutput { rt, plain, limit }
    }

    /// Where the next byte goes in a file that standard output leads into: to the end, or to the place that it has come to.
    /// 0 where it leads elsewhere, or where the system does not say.
    fn place(&self) -> u64 {
        match fs::metadata(&self.rt, "/proc/self/fd/1") {
            Ok(about) if about.is_file() => { about.len().max(output_place(&self.rt)) }
            _ => 0,
        }
    }

    /// How many bytes of so many may be written.
    fn most(&self, count: usize) -> usize
        ensures { result ≤ count }
    {
        if self.limit == u64::MAX {
            return count;
        }
        within(self.limit, self.place(), count)
    }
}

impl<R: Files<File = File> + Drop, W: Write + Drop> Write for RealOutput<R, W> {
    fn write(&mut self, buf: &[u8]) -> Result<usize> {
        let most = self.most(buf.len());
        if most == 0 && !buf.is_empty() {
            return Err(Error::from_raw_os_error(TOO_LARGE));
        }
        self.plain.write(&buf[..most])
    }

    fn flush(&mut self) -> Result<()> {
        self.plain.flush()
    }
}
