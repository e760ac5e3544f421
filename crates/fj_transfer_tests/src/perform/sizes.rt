// Outputs to files of any length, up to the limit of a file and past it, and how often each writes.
ghost use Rattle.std.specs.Prelude.{◌≡◌, ◌⊎◌, ◌≤◌, [], length, min, max, IfOk, OnOk, OnErr, false};
ghost use Rattle.std.proofs.Common.{rules};
ghost use Rattle.std.specs.FinMap as map;
ghost use Rattle.std.specs.FinSet as set;

use crate::perform::{A, Form, Opening, Said, Verb, leaves};
use fj_connect::OpenFault;
use fj_modes::{Access, Action};
use fj_outside::{Disk, Failed, FileStore, Stop};
use fj_value::Condition;
use std::alloc::{AllocError, Global};

/// A file of which only the length and the number of writes are kept. It tells nothing, and reads as zeros.
#[derive(Clone, Copy, PartialEq, Eq)]
struct Plain {
    len: u64,
    writes: u64,
}

impl FileStore for Plain {
    ghost tells = { λ _. ⊥ };

    ghost told = { λ _. false };

    ghost decided = { Prim.search rules };

    ghost bytes = { λ _. [] };

    ghost size = { λ file. file.len };

    ghost count = { λ _. 0 };

    fn len(&self) -> u64 {
        self.len
    }

    fn read_at(&mut self, at: u64, buf: &mut [u8]) -> Result<usize, Failed> {
        let count = self.len.saturating_sub(at).min(buf.len() as u64) as usize;
        buf[..count].fill(0);
        Ok(count)
    }

    fn write_at(&mut self, at: u64, piece: &[u8]) -> Result<(), Stop> {
        self.writes = self.writes.saturating_add(1);
        match at.checked_add(piece.len() as u64) {
            Some(end) => {
                self.len = self.len.max(end);
                Ok(())
            }
            None => Err(Stop::Memory(AllocError)),
        }
    }

    fn cut(&mut self, len: u64) -> Result<(), Failed> {
        self.len = len;
        Ok(())
    }

    fn faults(&self) -> u64 {
        0
    }
}

/// A disk of one such file, which is at home or out.
#[derive(Drop)]
struct PlainDisk {
    home: Option<Plain>,
}

impl Disk for PlainDisk {
    type File = Plain;

    ghost tells = { λ _. ⊥ };

    ghost told = { λ _. false };

    ghost decided = { Prim.search rules };

    ghost held = { λ _. record { files = map.empty; in_use = set.empty; hurt = set.empty } };

    ghost refusals = { λ _. 0 };

    ghost count = { λ _. 0 };

    fn exists(&mut self, _name: &str) -> Result<bool, Failed> {
        Ok(true)
    }

    fn take(&mut self, _alloc: Global, _name: &str) -> Result<Option<Plain>, Stop> {
        Ok(self.home.take())
    }

    fn create(&mut self, _alloc: Global, _name: &str) -> Result<Plain, Stop> {
        Ok(Plain { len: 0, writes: 0 })
    }

    fn give(&mut self, _name: &str, file: Plain) {
        self.home = Some(file);
    }

    fn remove(&mut self, _name: &str) -> Result<(), Failed> {
        self.home = None;
        Ok(())
    }

    fn faults(&self) -> u64 {
        0
    }
}

use Access::{Direct, Sequential, Stream};
use Condition::{Error, Fine};
use Form::{Format, Stored};
use Verb::{OpenOutput, Output};

const LIMIT: u64 = 268_435_456;

/// The last record of eight bytes that a file may have.
const LAST: i64 = 33_554_432;

/// Access, FORM='FORMATTED', how many bytes fewer than the limit the file has, behind which the statement begins; the statement;
/// and the condition, how many bytes fewer than the limit the file has then, and how often it was written. Records have at
/// most six bytes, in direct access eight.
type Row = ((Access, bool, u64), Said, (Condition, u64, u64));

static ROWS: [Row; 18] = [
    // What ends at the limit, and what is one byte longer.
    (
        (Stream, false, 0),
        (Output, Stored, Some(LAST * 8), b"x"),
        (Fine, 0, 1),
    ),
    (
        (Stream, false, 0),
        (Output, Stored, Some(LAST * 8), b"xy"),
        (Error(25), 0, 0),
    ),
    (
        (Stream, true, 2),
        (Output, A, Some(LAST * 8 - 1), b"x"),
        (Fine, 0, 1),
    ),
    (
        (Stream, true, 2),
        (Output, A, Some(LAST * 8 - 1), b"xy"),
        (Error(25), 2, 0),
    ),
    ((Sequential, true, 3), (Output, A, None, b"x"), (Fine, 0, 1)),
    (
        (Sequential, true, 3),
        (Output, A, None, b"xy"),
        (Error(25), 3, 0),
    ),
    (
        (Sequential, false, 9),
        (Output, Stored, None, b"x"),
        (Fine, 0, 1),
    ),
    (
        (Sequential, false, 9),
        (Output, Stored, None, b"xy"),
        (Error(25), 9, 0),
    ),
    (
        (Direct, true, 8),
        (Output, A, Some(LAST), b"x"),
        (Fine, 0, 1),
    ),
    (
        (Direct, true, 8),
        (Output, A, Some(LAST + 1), b"x"),
        (Error(25), 8, 0),
    ),
    (
        (Direct, true, 8),
        (Output, Format(b"(A/)"), Some(LAST), b"x"),
        (Error(25), 8, 0),
    ),
    (
        (Direct, false, 8),
        (Output, Stored, Some(LAST), b"x"),
        (Fine, 0, 1),
    ),
    (
        (Direct, false, 8),
        (Output, Stored, Some(LAST + 1), b"x"),
        (Error(25), 8, 0),
    ),
    // A record that stays open has room for its line feed.
    (
        (Stream, true, 2),
        (OpenOutput, A, Some(LAST * 8 - 1), b"x"),
        (Fine, 1, 1),
    ),
    (
        (Stream, true, 2),
        (OpenOutput, A, Some(LAST * 8 - 1), b"xy"),
        (Error(25), 2, 0),
    ),
    // A record that is too long comes before a file that is.
    (
        (Sequential, true, 0),
        (Output, A, None, b"1234567"),
        (Error(15), 0, 0),
    ),
    (
        (Sequential, false, 0),
        (Output, Stored, None, b"1234567"),
        (Error(15), 0, 0),
    ),
    (
        (Direct, false, 0),
        (Output, Stored, Some(LAST + 1), b"123456789"),
        (Error(15), 0, 0),
    ),
];

/// What a statement behind the last byte of a file of that length answers, and the file then.
fn left_by(
    alloc: Global,
    (access, formatted, recl): (Access, bool, u32),
    len: u64,
    said: Said,
) -> Result<(Result<Condition, Stop>, Option<Plain>), OpenFault> {
    let opening = Opening {
        access,
        formatted,
        action: Some(Action::ReadWrite),
        recl,
    };
    let mut disk = PlainDisk {
        home: Some(Plain { len, writes: 0 }),
    };
    let ((answer, _), _) = leaves(alloc, &mut disk, &opening, len, (said, 0), (None, None))?;
    Ok((answer, disk.home))
}

/// Whether a statement comes to what its row says.
fn holds(alloc: Global, row: &Row) -> Result<bool, OpenFault> {
    let ((access, formatted, fewer), said, (condition, after, writes)) = *row;
    let recl = if access == Direct { 8 } else { 6 };
    let len = LIMIT.saturating_sub(fewer);
    let file = Plain {
        len: LIMIT.saturating_sub(after),
        writes,
    };
    let came = left_by(alloc, (access, formatted, recl), len, said)?;
    Ok(came == (Ok(condition), Some(file)))
}

#[test]
fn the_limit_of_a_file(rt: HostRuntime) {
    for (number, row) in ROWS.iter().enumerate() {
        assert!(rt; holds(rt.alloc(), row) == Ok(true), "row {number}");
    }
}

static LONG: [u8; 5_000] = [b'x'; 5_000];

/// Access, and how long the file is, behind which the statement begins; the number of REC= and the length of an unformatted
/// output, with RECL=5000 where there are records; and how long the file is then, and how often it was written.
type Written = ((Access, u64), (Option<i64>, usize), (u64, u64));

static WRITTEN: [Written; 7] = [
    ((Sequential, 0), (None, 5_000), (5_008, 1)),
    ((Sequential, 7_000), (None, 5_000), (12_008, 1)),
    ((Stream, 7_000), (None, 5_000), (12_000, 1)),
    // A direct record inside the file and behind it, and one that is filled up.
    ((Direct, 10_000), (Some(1), 5_000), (10_000, 1)),
    ((Direct, 10_000), (Some(3), 5_000), (15_000, 1)),
    ((Direct, 10_000), (Some(2), 1), (10_000, 1)),
    // A gap of 2,100 bytes takes three writes more.
    ((Direct, 2_900), (Some(2), 5_000), (10_000, 4)),
];

/// Whether an output comes to what its row says.
fn is_written(alloc: Global, row: &Written) -> Result<bool, OpenFault> {
    let ((access, len), (at, count), (after, writes)) = *row;
    let said = (Output, Stored, at, &LONG[..count.min(5_000)]);
    let file = Plain { len: after, writes };
    let came = left_by(alloc, (access, false, 5_000), len, said)?;
    Ok(came == (Ok(Fine), Some(file)))
}

#[test]
fn one_write_for_a_statement(rt: HostRuntime) {
    for (number, row) in WRITTEN.iter().enumerate() {
        assert!(rt; is_written(rt.alloc(), row) == Ok(true), "row {number}");
    }
}
