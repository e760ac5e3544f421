// Each call where the k-th call on the disk, or on the file, fails.
ghost use Rattle.std.specs.Prelude.{◌≡◌};
ghost use Rattle.std.specs.FinSet as set;

use crate::connect::{
    At, Direct, End, Frames, Go, Kind, Lines, Open, PastEnd, Put, Statement, Step, Stream,
    StreamLines, connect, done, read_and_write,
};
use crate::disks::{NAME, begin_alike, failed, failing};
use fj_connect::Positioning::{Backspace, Endfile, Rewind};
use fj_connect::{Connection, OpenFault};
use fj_modes::{Access, FileStatus};
use fj_outside::{Disk, FileStore, Stop};
use fj_value::Text;
use std::alloc::{AllocError, Global};
use std::test::*;

// A status, the file that is there, and how many calls of the disk OPEN makes.
static OPENINGS: [(FileStatus, Option<&[u8]>, u64); 6] = [
    (FileStatus::Old, Some(b"ab\n"), 1),
    (FileStatus::New, None, 2),
    (FileStatus::Scratch, None, 1),
    (FileStatus::Replace, Some(b"ab\n"), 1),
    (FileStatus::Unknown, Some(b"ab\n"), 1),
    (FileStatus::Unknown, None, 2),
];

/// Opens the file and closes it to be removed, and answers whether CLOSE failed.
fn opens_on<D: Disk>(alloc: Global, disk: &mut D, opening: Statement) -> Result<bool, OpenFault>
    requires { D.tells disk.old → (D.held disk.old).in_use ≡ set.empty }
{
    match connect(alloc, disk, opening) {
        Ok(c) => Ok(c.close_file(disk, false).is_err()),
        Err(fault) => Err(fault),
    }
}

/// Whether OPEN failed, whether CLOSE did, and whether the file is as it was.
fn opens(
    alloc: Global,
    row: (FileStatus, Option<&[u8]>),
    k: u64,
) -> Result<(bool, bool, bool), AllocError> {
    let (status, there) = row;
    let mut disk = failing(alloc, there, k, 0)?;
    let came = opens_on(alloc, &mut disk, read_and_write(Lines, status));
    let left = disk.bytes_of(NAME);
    let answer = match came {
        Ok(failed) => (false, failed, left.is_some()),
        Err(fault) => (fault == OpenFault::Stop(Stop::Failed), false, left == there),
    };
    drop(disk);
    Ok(answer)
}

/// What that is to be: an OPEN that fails leaves the file at home, and a CLOSE that cannot remove the file leaves it there.
fn due_of(calls: u64, k: u64) -> (bool, bool, bool) {
    if k <= calls {
        return (true, false, true);
    }
    let close_fails = k == calls.saturating_add(1);
    (false, close_fails, close_fails)
}

#[test]
fn the_kth_call_on_the_disk_fails(rt: HostRuntime) {
    for (status, there, calls) in OPENINGS.iter() {
        for k in 1..5u64 {
            assert!(rt;
                opens(rt.alloc(), (*status, *there), k) == Ok(due_of(*calls, k)),
                "{calls} {k}"
            );
        }
    }
}

/// A call on a connection.
#[derive(Clone, Copy)]
enum Call {
    Step(Step),
    Look(u64),
    Foresee(u64),
    ReadFrame,
    PutFrame(&'static [u8]),
    ReadDirect(u64),
    PutDirect(u64, &'static [u8]),
    ReadBytes(u64, u32),
    PutBytes(&'static [u8]),
}

use Call::{Foresee, Look, PutBytes, PutDirect, PutFrame, ReadBytes, ReadDirect, ReadFrame};

/// Makes a call that reads, where it can be made there, and answers whether the outside failed.
fn read_by<F: FileStore>(c: &mut Connection<F>, call: Call, into: &mut Text) -> bool
    ensures { c.new.name ≡ c.old.name }
{
    let len = c.file_len();
    match call {
        Look(place) if place <= len => failed(c.look_at_record(place)),
        Foresee(place) if place <= len => failed(c.look_as_ended(place)),
        ReadFrame => failed(c.read_frame(into)),
        ReadBytes(place, want) if place <= len => failed(c.read_bytes(place, want, into)),
        ReadDirect(number) if number > 0 => failed(c.read_direct(number, into)),
        _ => false,
    }
}

/// Makes any call, where it can be made there, and answers whether the outside failed.
fn call_on<F: FileStore>(c: &mut Connection<F>, call: Call, into: &mut Text) -> bool
    ensures { c.new.name ≡ c.old.name }
{
    let at = c.spot().at;
    match call {
        Call::Step(step) => failed(done(c, step)),
        PutFrame(frame) if frame.len() < 100 && at < 1000 => failed(c.put_records(frame)),
        PutBytes(piece) if piece.len() < 100 && at < 1000 => failed(c.put_bytes(piece)),
        PutDirect(number, record) => failed(put_direct(c, number, record)),
        _ => read_by(c, call, into),
    }
}

/// Puts a whole direct record.
fn put_direct<F: FileStore>(c: &mut Connection<F>, number: u64, record: &[u8]) -> Result<(), Stop>
    ensures { c.new.name ≡ c.old.name }
{
    let recl = u64::from(c.modes().recl);
    let whole = record.len() as u64 == recl && number > 0 && number < 100 && recl < 100;
    if c.modes().access == Access::Direct && whole {
        return c.put_direct_run((number - 1) * recl, record, number, b' ');
    }
    Ok(())
}

// Two lines, and two frames of one byte.
const LINES: &[u8] = b"ab\ncd\n";

const FRAMES: &[u8] = b"\x01\0\0\0A\x01\0\0\0\x01\0\0\0B\x01\0\0\0";

/// A connection, where it stands, a call, how many calls of the file it makes, and up to where the file is as before
/// where one of them fails: to the first byte that the call changes (a gap is filled first).
type Row = (Kind, &'static [u8], Step, Call, u64, usize);

static CALLS: [Row; 21] = [
    (Lines, LINES, At(6), Call::Step(Go(Backspace)), 1, 6),
    (Lines, LINES, At(6), Call::Step(Go(Rewind)), 0, 6),
    (Lines, LINES, At(6), Call::Step(Go(Endfile)), 0, 6),
    (Lines, LINES, At(3), Call::Step(Go(Endfile)), 1, 3),
    (Lines, LINES, PastEnd, Call::Step(Go(Backspace)), 0, 6),
    (Frames, FRAMES, At(18), Call::Step(Go(Backspace)), 2, 18),
    (Frames, FRAMES, At(9), Call::Step(Go(Endfile)), 1, 9),
    (Lines, LINES, Open(b"x", 0), Call::Step(End), 1, 1),
    (Lines, LINES, Open(b"x", 0), Call::Step(Go(Backspace)), 2, 1),
    (Lines, LINES, Open(b"x", 0), Call::Step(Go(Rewind)), 1, 1),
    (Lines, LINES, Open(b"x", 0), Call::Step(Go(Endfile)), 1, 1),
    (Lines, LINES, At(3), Call::Step(Put(b"xyz\n")), 1, 3),
    (Lines, LINES, At(3), Call::Step(Open(b"x", 0)), 2, 3),
    (Lines, LINES, At(0), Look(3), 1, 6),
    (StreamLines, LINES, Open(b"x", 0), Foresee(0), 1, 1),
    (Frames, FRAMES, At(9), ReadFrame, 1, 18),
    (
        Frames,
        FRAMES,
        At(9),
        PutFrame(b"\x01\0\0\0C\x01\0\0\0"),
        1,
        9,
    ),
    (Direct, LINES, At(0), ReadDirect(1), 1, 6),
    (Direct, LINES, At(0), PutDirect(4, b"wxyz"), 2, 6),
    (Stream, LINES, At(0), ReadBytes(2, 3), 1, 6),
    (Stream, LINES, At(2), PutBytes(b"xyz"), 1, 2),
];

/// Stands somewhere and makes a call, and answers whether that failed and how many faults the file has then.
fn made_from<F: FileStore>(
    alloc: Global,
    c: &mut Connection<F>,
    from: Step,
    call: Call,
) -> Result<(bool, u64), Stop>
    ensures { c.new.name ≡ c.old.name }
{
    match done(c, from) {
        Ok(_) => {
            let failed = call_on(c, call, &mut Text::new(alloc));
            Ok((failed, c.faults()))
        }
        Err(stop) => Err(stop),
    }
}

/// The same of a new connection, which is closed then.
fn made_on<D: Disk>(
    alloc: Global,
    disk: &mut D,
    opening: Statement,
    from: Step,
    call: Call,
) -> Result<(bool, u64), OpenFault>
    requires { D.tells disk.old → (D.held disk.old).in_use ≡ set.empty }
{
    let mut c = connect(alloc, disk, opening)?;
    let made = made_from(alloc, &mut c, from, call);
    match (c.close_file(disk, true), made) {
        (Ok(()), Ok(made)) => Ok(made),
        (Err(failed), _) => Err(OpenFault::Stop(Stop::from(failed))),
        (_, Err(stop)) => Err(OpenFault::Stop(stop)),
    }
}

/// Whether the call failed at the k-th call on the file, how many faults the file has then, and whether it begins as before.
fn fails(alloc: Global, row: Row, k: u64) -> Result<(bool, u64, bool), OpenFault> {
    let (kind, bytes, from, call, _, kept) = row;
    // An open record at the start takes two calls, and is all that the file holds then.
    let (made, old) = match from {
        Open(text, _) => (2, text),
        _ => (0, bytes),
    };
    let mut disk = failing(alloc, Some(bytes), 0, k.saturating_add(made))?;
    let opening = read_and_write(kind, FileStatus::Old);
    let made = made_on(alloc, &mut disk, opening, from, call);
    let alike = begin_alike(disk.bytes_of(NAME), old, kept);
    drop(disk);
    match made {
        Ok((failed, faults)) => Ok((failed, faults, alike)),
        Err(fault) => Err(fault),
    }
}

#[test]
fn the_kth_call_on_the_file_fails(rt: HostRuntime) {
    for (number, row) in CALLS.iter().enumerate() {
        for k in 1..5u64 {
            let fails_then = k <= row.4;
            let due = (fails_then, u64::from(fails_then), true);
            assert!(rt; fails(rt.alloc(), *row, k) == Ok(due), "{number} {k}");
        }
    }
}
