// Statements of which each call on the file fails in turn, with the calls and the bytes that stay worked out by hand.
ghost use Rattle.std.specs.Prelude.{◌≡◌, IfOk};
ghost use Rattle.std.specs.FinSet as set;
ghost use Rattle.fj_outside.specs.FailingDisk.{disk_held};

use crate::perform::{
    A, Form, NAME, Opening, Said, Verb, connect, disk_of, leaves, perform_again, transfer,
};
use fj_connect::{Connection, OpenFault};
use fj_modes::{Access, Action};
use fj_outside::{Disk, FailingDisk, FileStore, Stop};
use fj_value::Condition;
use std::alloc::{AllocError, Global};

/// A disk that holds the file, of which the call with this number fails.
fn failing(alloc: Global, bytes: &[u8], call: u64) -> Result<FailingDisk, AllocError>
    ensures { IfOk result (λ disk. (disk_held disk).in_use ≡ set.empty) }
{
    let inner = disk_of(alloc, bytes)?;
    let mut disk = FailingDisk::new(alloc, inner, &[])?;
    disk.fail_file(NAME, &[call])?;
    Ok(disk)
}

use Access::{Direct, Sequential, Stream};
use Form::{Format, Listed, Stored};
use Verb::{Input, OpenOutput, Output};

/// Access, FORM='FORMATTED', the file and the place where the statement begins; the statement; how many calls it makes on
/// the file, and how many bytes stand before the first that it changes; and what SIZE= gets, the file, the position (in
/// direct access the next record's number) and the item then.
type Row = (
    (Access, bool, &'static [u8], u64),
    Said,
    (u32, usize),
    (Option<u64>, &'static [u8], u64, &'static [u8]),
);

/// More than the window of a connection holds.
const LONG: &[u8] = &[b'x'; 9000];

static ROWS: [Row; 16] = [
    // Sequential output looks for the line feed before it, writes its records, and cuts what stands behind them.
    (
        (Sequential, true, b"a\nbcd\nef\n", 2),
        (Output, A, None, b"xy"),
        (3, 2),
        (None, b"a\nxy\n", 5, b"xy"),
    ),
    (
        (Sequential, true, b"a\nbcd\n", 2),
        (Output, Listed, None, b"xy"),
        (2, 2),
        (None, b"a\n xy\n", 6, b"xy"),
    ),
    (
        (
            Sequential,
            false,
            b"\x01\0\0\0a\x01\0\0\0\x03\0\0\0bcd\x03\0\0\0",
            9,
        ),
        (Output, Stored, None, b"xy"),
        (2, 9),
        (
            None,
            b"\x01\0\0\0a\x01\0\0\0\x02\0\0\0xy\x02\0\0\0",
            19,
            b"xy",
        ),
    ),
    (
        (Stream, true, b"abcdef", 0),
        (Output, A, Some(3), b"X"),
        (2, 2),
        (None, b"abX\n", 4, b"X"),
    ),
    // The records of a direct output are written at once, and a gap before them is filled up first.
    (
        (Direct, true, b"AAAAAABBBBBB", 0),
        (Output, Format(b"(A/)"), Some(2), b"xy"),
        (1, 6),
        (None, b"AAAAAAxy          ", 4, b"xy"),
    ),
    (
        (Direct, true, b"AAAAAA", 0),
        (Output, A, Some(3), b"xy"),
        (2, 6),
        (None, b"AAAAAA      xy    ", 4, b"xy"),
    ),
    (
        (Direct, false, b"AAAAAABBBBBBCCCCCC", 0),
        (Output, Stored, Some(2), b"xy"),
        (1, 6),
        (None, b"AAAAAAxy\0\0\0\0CCCCCC", 3, b"xy"),
    ),
    (
        (Stream, false, b"abcdef", 0),
        (Output, Stored, Some(3), b"XY"),
        (1, 2),
        (None, b"abXYef", 4, b"XY"),
    ),
    // An input reads as much in one call as a window holds.
    (
        (Stream, true, LONG, 0),
        (Input, A, Some(1), b"__"),
        (2, 9000),
        (Some(2), LONG, 9000, b"xx"),
    ),
    (
        (Sequential, true, b"a\nbcd\nef\n", 2),
        (Input, A, None, b"__"),
        (1, 9),
        (Some(2), b"a\nbcd\nef\n", 6, b"bc"),
    ),
    (
        (Sequential, true, b"a\nbc d\n", 2),
        (Input, Listed, None, b"__"),
        (1, 7),
        (None, b"a\nbc d\n", 7, b"bc"),
    ),
    (
        (
            Sequential,
            false,
            b"\x01\0\0\0a\x01\0\0\0\x03\0\0\0bcd\x03\0\0\0",
            9,
        ),
        (Input, Stored, None, b"__"),
        (1, 20),
        (
            None,
            b"\x01\0\0\0a\x01\0\0\0\x03\0\0\0bcd\x03\0\0\0",
            20,
            b"bc",
        ),
    ),
    (
        (Stream, true, b"ab\ncde\n", 0),
        (Input, A, Some(4), b"__"),
        (1, 7),
        (Some(2), b"ab\ncde\n", 7, b"cd"),
    ),
    (
        (Direct, true, b"AAAAAABBBBBB", 0),
        (Input, Format(b"(/A)"), Some(1), b"__"),
        (1, 12),
        (Some(2), b"AAAAAABBBBBB", 3, b"BB"),
    ),
    (
        (Direct, false, b"AAAAAABBBBBB", 0),
        (Input, Stored, Some(2), b"__"),
        (1, 12),
        (None, b"AAAAAABBBBBB", 3, b"BB"),
    ),
    (
        (Stream, false, b"abcdef", 0),
        (Input, Stored, Some(3), b"__"),
        (1, 6),
        (None, b"abcdef", 4, b"cd"),
    ),
];

/// Whether the bytes before the first that was to change are as before, and all where none was.
fn is_kept(now: Option<&[u8]>, before: &[u8], after: &[u8], kept: usize) -> bool {
    match now {
        Some(now) if before == after => now == before,
        Some(now) => now.get(..kept) == before.get(..kept),
        None => false,
    }
}

fn opening(access: Access, formatted: bool) -> Opening {
    Opening {
        access,
        formatted,
        action: Some(Action::ReadWrite),
        recl: 6,
    }
}

/// Whether the file is as the row says behind a statement of which a call with this number fails.
fn is_left(row: &Row, call: u64, now: Option<&[u8]>) -> bool {
    let ((_, _, before, _), _, (calls, kept), (_, after, _, _)) = *row;
    if call <= u64::from(calls) {
        return is_kept(now, before, after, kept);
    }
    now == Some(after)
}

/// Whether a statement stops by failure where a call with this number fails, and else comes to what its row says.
fn holds(alloc: Global, row: &Row, call: u64) -> Result<bool, OpenFault> {
    let ((access, formatted, before, place), said, (calls, _), (count, _, at, item)) = *row;
    let opening = opening(access, formatted);
    let left = (count, Some(item));
    let mut disk = failing(alloc, before, call)?;
    let came = leaves(alloc, &mut disk, &opening, place, (said, 0), left);
    let is_left = is_left(row, call, disk.bytes_of(NAME));
    drop(disk);
    let (came, is_so) = came?;
    if call <= u64::from(calls) {
        return Ok(came.0 == Err(Stop::Failed) && is_left);
    }
    Ok(came == (Ok(Condition::Fine), at) && is_so && is_left)
}

#[test]
fn each_call_fails_in_turn(rt: HostRuntime) {
    for (number, row) in ROWS.iter().enumerate() {
        let (calls, _) = row.2;
        for call in 1..u64::from(calls) + 2 {
            assert!(rt;
                holds(rt.alloc(), row, call) == Ok(true),
                "row {number}, call {call}"
            );
        }
    }
}

/// Carries out a statement.
fn once<F: FileStore>(alloc: Global, c: &mut Connection<F>, said: Said) -> Result<Condition, Stop>
    ensures { c.new.name ≡ c.old.name }
{
    let mut job = transfer(alloc, said, Sequential)?;
    let answer = perform_again(alloc, c, 0, &mut job);
    drop(job);
    answer
}

/// Carries out an output that leaves a record open and then an input, and answers the condition of the last.
fn both<F: FileStore>(alloc: Global, c: &mut Connection<F>) -> Result<Condition, Stop>
    ensures { c.new.name ≡ c.old.name }
{
    once(alloc, c, (OpenOutput, A, None, b"ab"))?;
    once(alloc, c, (Input, A, None, b"_"))
}

/// The same on a new connection, which is closed then.
fn one_by_one<D: Disk>(alloc: Global, disk: &mut D) -> Result<Result<Condition, Stop>, OpenFault>
    requires { D.tells disk.old → (D.held disk.old).in_use ≡ set.empty }
{
    let mut c = connect(alloc, disk, &opening(Sequential, true))?;
    let answer = both(alloc, &mut c);
    c.close_file(disk, true).map_err(Stop::from)?;
    Ok(answer)
}

/// The call that fails, the last condition, and the file then.
type Cut = (u64, Result<Condition, Stop>, &'static [u8]);

/// The input ends the record, which is one call more.
static OPEN: [Cut; 3] = [
    (1, Err(Stop::Failed), b""),
    (2, Err(Stop::Failed), b"ab"),
    (3, Ok(Condition::EndOfFile), b"ab\n"),
];

/// Whether both come to what their row says.
fn come_so(alloc: Global, row: &Cut) -> Result<bool, OpenFault> {
    let (call, answer, after) = *row;
    let mut disk = failing(alloc, b"", call)?;
    let came = one_by_one(alloc, &mut disk);
    let is_left = disk.bytes_of(NAME) == Some(after);
    drop(disk);
    Ok(came? == answer && is_left)
}

#[test]
fn an_input_writes_a_line_feed(rt: HostRuntime) {
    for (number, row) in OPEN.iter().enumerate() {
        assert!(rt; come_so(rt.alloc(), row) == Ok(true), "row {number}");
    }
}
