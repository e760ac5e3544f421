// Records that are read through a window, and what is asked of the file for them.
ghost use Rattle.std.specs.Prelude.{length, true, refl};

use fj_outside::{Buffered, Failed, FileStore, MemoryFile, Stop, WindowRoom};
use fj_seqrec::{RecordRead, read_record};
use fj_value::Text;
use std::alloc::{AllocError, Global};
use std::test::*;

/// A file in memory that counts its reads, and the bytes that they ask for.
#[derive(Drop)]
struct Counting {
    inner: MemoryFile,
    calls: u64,
    asked: u64,
}

impl FileStore for Counting {
    ghost tells = { λ _. Unit {0} };

    ghost told = { λ _. true };

    ghost decided = { λ _. (λ _. tt, λ _. refl) };

    ghost bytes = { λ file. file.inner };

    ghost size = { λ file. length file.inner };

    ghost count = { λ _. 0 };

    fn len(&self) -> u64 {
        self.inner.len()
    }

    fn read_at(&mut self, at: u64, buf: &mut [u8]) -> Result<usize, Failed> {
        self.calls = self.calls.saturating_add(1);
        self.asked = self.asked.saturating_add(buf.len() as u64);
        self.inner.read_at(at, buf)
    }

    fn write_at(&mut self, at: u64, piece: &[u8]) -> Result<(), Stop> {
        self.inner.write_at(at, piece)
    }

    fn cut(&mut self, len: u64) -> Result<(), Failed> {
        self.inner.cut(len)
    }

    fn faults(&self) -> u64 {
        0
    }
}

/// The characters of a record.
fn characters(number: u32) -> [u8; 100] {
    [b'a' + (number % 26) as u8; 100]
}

/// A file of 10,000 records of 100 characters.
fn written(alloc: Global) -> Result<Counting, AllocError> {
    let mut text = Text::new(alloc);
    for number in 0..10_000u32 {
        text.push_all(&characters(number))?;
        text.push_all(b"\n")?;
    }
    Ok(Counting {
        inner: MemoryFile::from_bytes(alloc, text.bytes())?,
        calls: 0,
        asked: 0,
    })
}

/// Reads the record at a place, and answers the place behind it where it is the one of that number.
fn next<F: FileStore>(
    file: &mut F,
    at: u64,
    number: u32,
    into: &mut Text,
) -> Result<Option<u64>, Stop> {
    if at > file.len() {
        return Ok(None);
    }
    match read_record(file, at, 100, into)? {
        RecordRead::Line { next } if into.bytes() == characters(number).as_slice() => {
            Ok(Some(next))
        }
        _ => Ok(None),
    }
}

/// Reads all records, and answers how many were as they were written.
fn read_all<F: FileStore>(file: &mut F, into: &mut Text) -> Result<u32, Stop> {
    let mut at = 0;
    for number in 0..10_000 {
        match next(file, at, number, into)? {
            Some(behind) => at = behind,
            None => return Ok(number),
        }
    }
    Ok(10_000)
}

/// The file's length, how many of its records were as they were written, how often it was read and how many bytes were asked for.
fn read_through(file: Buffered<Counting>, into: &mut Text) -> (u64, Result<u32, Stop>, u64, u64) {
    let mut file = file;
    let len = file.len();
    let read = read_all(&mut file, into);
    let file = file.into_inner();
    (len, read, file.calls, file.asked)
}

/// The same of that file; nothing where memory is refused.
fn read_through_window(alloc: Global) -> Option<(u64, Result<u32, Stop>, u64, u64)> {
    let (Ok(room), Ok(file)) = (WindowRoom::new(alloc), written(alloc)) else {
        return None;
    };
    let file = Buffered::new(room, file);
    Some(read_through(file, &mut Text::new(alloc)))
}

#[test]
fn a_window_spares_calls(rt: HostRuntime) {
    let (len, read, calls, asked) = read_through_window(rt.alloc()).unwrap_or((0, Ok(0), 0, 0));
    assert!(rt; len == 1_010_000 && read == Ok(10_000));
    assert!(rt;
        calls <= 400 && asked <= 4_000_000,
        "{calls} calls, {asked} bytes"
    );
}
