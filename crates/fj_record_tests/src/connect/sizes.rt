// Files of any length that hold one byte over and over: the longest file, and what is asked of a file.
ghost use Rattle.std.specs.Prelude.{◌≡◌, ◌⊎◌, ◌≤◌, [], length, min, max, IfOk, OnOk, OnErr, false};
ghost use Rattle.std.proofs.Common.{rules};
ghost use Rattle.std.specs.FinMap as map;
ghost use Rattle.std.specs.FinSet as set;

use crate::connect::{Came, KINDS, Kind, Lines, come_to, connect, read_and_write};
use fj_connect::{Connection, OpenFault};
use fj_modes::FileStatus;
use fj_outside::{Disk, Failed, FileStore, Stop};
use fj_seqrec::RecordRead;
use fj_value::{Condition, Text};
use std::alloc::{AllocError, Global};
use std::test::*;

/// A file of which only the length and the number of reads are kept. It tells nothing.
#[derive(Clone, Copy, PartialEq, Eq)]
struct Plain {
    len: u64,
    reads: u64,
}

impl FileStore for Plain {
    ghost tells = { λ _. ⊥ };

    ghost told = { λ _. false };

    ghost decided = { Prim.search rules };

    ghost bytes = { λ _. [] };

    ghost size = { λ file. file.len };

    ghost count = { λ _. 0 };

    fn len(&self) -> u64 {
        self.len
    }

    fn read_at(&mut self, at: u64, buf: &mut [u8]) -> Result<usize, Failed> {
        self.reads = self.reads.saturating_add(1);
        let count = self.len.saturating_sub(at).min(buf.len() as u64) as usize;
        buf[..count].fill(b'x');
        Ok(count)
    }

    fn write_at(&mut self, at: u64, piece: &[u8]) -> Result<(), Stop> {
        match at.checked_add(piece.len() as u64) {
            Some(end) => {
                self.len = self.len.max(end);
                Ok(())
            }
            None => Err(Stop::Memory(AllocError)),
        }
    }

    fn cut(&mut self, len: u64) -> Result<(), Failed> {
        self.len = len;
        Ok(())
    }

    fn faults(&self) -> u64 {
        0
    }
}

/// A disk of one such file, which is at home or out.
#[derive(Drop)]
struct PlainDisk {
    home: Option<Plain>,
}

impl Disk for PlainDisk {
    type File = Plain;

    ghost tells = { λ _. ⊥ };

    ghost told = { λ _. false };

    ghost decided = { Prim.search rules };

    ghost held = { λ _. record { files = map.empty; in_use = set.empty; hurt = set.empty } };

    ghost refusals = { λ _. 0 };

    ghost count = { λ _. 0 };

    fn exists(&mut self, _name: &str) -> Result<bool, Failed> {
        Ok(true)
    }

    fn take(&mut self, _alloc: Global, _name: &str) -> Result<Option<Plain>, Stop> {
        Ok(self.home.take())
    }

    fn create(&mut self, _alloc: Global, _name: &str) -> Result<Plain, Stop> {
        self.home = None;
        Ok(Plain { len: 0, reads: 0 })
    }

    fn give(&mut self, _name: &str, file: Plain) {
        self.home = Some(file);
    }

    fn remove(&mut self, _name: &str) -> Result<(), Failed> {
        self.home = None;
        Ok(())
    }

    fn faults(&self) -> u64 {
        0
    }
}

fn of_length(len: u64) -> PlainDisk {
    PlainDisk {
        home: Some(Plain { len, reads: 0 }),
    }
}

/// What OPEN of a file of that length comes to, and the length of the file that is at home then.
fn opens(
    alloc: Global,
    kind: Kind,
    status: FileStatus,
    len: u64,
) -> (Result<Came, OpenFault>, u64) {
    let mut disk = of_length(len);
    let came = come_to(alloc, &mut disk, read_and_write(kind, status), &[], true);
    match disk.home {
        Some(file) => (came, file.len),
        None => (came, 0),
    }
}

/// A status and the length of a file, what OPEN comes to, and the length then.
type Length = (FileStatus, u64, Result<Came, OpenFault>, u64);

const REFUSED: OpenFault = OpenFault::Refused(Condition::Error(27));

// The longest file is connected to; a longer one is not, and stays as it is.
static LENGTHS: [Length; 4] = [
    (FileStatus::Old, 268_435_456, Ok((0, 0, false)), 268_435_456),
    (FileStatus::Old, 268_435_457, Err(REFUSED), 268_435_457),
    (FileStatus::Unknown, 268_435_457, Err(REFUSED), 268_435_457),
    (FileStatus::Replace, 268_435_457, Ok((0, 0, false)), 0),
];

#[test]
fn the_longest_file(rt: HostRuntime) {
    for kind in KINDS.iter() {
        for (number, (status, len, came, left)) in LENGTHS.iter().enumerate() {
            assert!(rt;
                opens(rt.alloc(), *kind, *status, *len) == (*came, *left),
                "{number}"
            );
        }
    }
}

/// Looks at the record at the start from so many positions inside it, and answers how often it was there.
fn looked_at<F: FileStore>(c: &mut Connection<F>, times: u64) -> Result<u64, Stop> {
    let mut found: u64 = 0;
    for count in 0..times {
        let len = c.file_len();
        if c.look_at_record(0)? == (RecordRead::Line { next: len }) && count <= len {
            c.go_into_record(0, count);
            found = found.saturating_add(1);
        }
    }
    Ok(found)
}

/// Takes only what may go to another thread.
fn sent<T: Send>(value: T) -> T {
    value
}

/// How often a record of 65,536 characters was there, and the file with the number of its reads then.
fn read_in_pieces(alloc: Global) -> Option<(Result<u64, Stop>, Option<Plain>)> {
    let mut disk = of_length(65_536);
    let Ok(c) = connect(alloc, &mut disk, read_and_write(Lines, FileStatus::Old)) else {
        return None;
    };
    let mut c = sent(c);
    let found = looked_at(&mut c, 65_536);
    match c.close_file(&mut disk, true) {
        Ok(()) => Some((found, disk.home)),
        Err(_) => None,
    }
}

// A record that is read in as many pieces as it has characters is taken from the file once: 8,192 bytes by a read.
#[test]
fn a_record_is_read_once(rt: HostRuntime) {
    let file = Plain {
        len: 65_536,
        reads: 8,
    };
    assert!(rt; read_in_pieces(rt.alloc()) == Some((Ok(65_536), Some(file))));
}

/// Puts records one behind the other, looks behind each at the last byte of the file, and answers the last of those.
fn put_and_look<F: FileStore>(c: &mut Connection<F>, byte: &mut Text) -> Result<Option<u8>, Stop> {
    for _ in 0..3 {
        if c.spot().at < 1000 {
            c.put_records(b"ab\n")?;
        }
        let end = c.file_len();
        if end > 0 {
            c.read_bytes(end - 1, 1, byte)?;
        }
    }
    Ok(byte.bytes().first().copied())
}

/// The last byte that was looked at, and the file with the number of its reads then.
fn reads_between(alloc: Global) -> Option<(Result<Option<u8>, Stop>, Option<Plain>)> {
    let mut disk = of_length(0);
    let Ok(mut c) = connect(alloc, &mut disk, read_and_write(Lines, FileStatus::Old)) else {
        return None;
    };
    let last = put_and_look(&mut c, &mut Text::new(alloc));
    match c.close_file(&mut disk, true) {
        Ok(()) => Some((last, disk.home)),
        Err(_) => None,
    }
}

// What was written last stands at hand: the next record finds the line feed before it without a read.
#[test]
fn a_record_behind_another_reads_nothing(rt: HostRuntime) {
    let file = Plain { len: 9, reads: 0 };
    assert!(rt; reads_between(rt.alloc()) == Some((Ok(Some(b'\n')), Some(file))));
}
