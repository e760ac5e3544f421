// A file of the current folder as a source.
ghost use Rattle.std.specs.Prelude.{◌≡◌, ◌<◌, ◌≤◌, [], length, IfOk, OnErr};
ghost use Rattle.fj_outside.specs.Faults.{Rose};

use fj_outside::{Failed, Source};
use std::fs::{self, File};
use std::io::{self, Read};
use std::rt::Files;

/// A file of the current folder as a source, which is opened where it is read first. It tells nothing.
#[derive(Drop)]
pub struct FileSource<R> {
    rt: R,
    name: String,
    file: Option<File>,
    faults: u64,
}

/// Reads of a file, which is opened where it is not yet open.
fn read_of<R: Files<File = File>>(
    rt: &R,
    name: &str,
    file: &mut Option<File>,
    buf: &mut [u8],
) -> io::Result<usize>
    requires { 0 < length buf.old }
    ensures { IfOk result (λ n. n ≤ length buf.old) }
{
    if let Some(open) = file {
        return open.read(buf);
    }
    let mut opened = fs::open(rt, name)?;
    let read = opened.read(buf);
    *file = Some(opened);
    read
}

impl<R: Files<File = File>> FileSource<R> {
    ghost use Rattle.fj_real.specs.FileSource.{file_name, source_count};

    /// The file of that name, which is not opened yet.
    pub fn new(rt: R, name: String) -> FileSource<R>
        ensures name { file_name result ≡ name }
        ensures count { source_count result ≡ 0 }
    {
        FileSource {
            rt,
            name,
            file: None,
            faults: 0,
        }
    }
}

impl<R: Files<File = File>> Source for FileSource<R> {
    ghost use Rattle.fj_real.specs.FileSource.{source_count};

    ghost tells = { λ _. ⊥ };

    ghost left = { λ _. [] };

    ghost count = { source_count };

    /// A file that cannot be opened is a fault at each read.
    fn read(&mut self, buf: &mut [u8]) -> Result<usize, Failed> {
        match read_of(&self.rt, &self.name, &mut self.file, buf) {
            Ok(count) => Ok(count),
            Err(_) => {
                self.faults = self.faults.saturating_add(1);
                Err(Failed)
            }
        }
    }

    fn faults(&self) -> u64 {
        self.faults
    }
}
