// OPEN and CLOSE: each status, each position, scratch files.
use crate::connect::{
    Came, Direct, DirectLines, KINDS, Kind, Lines, Put, come_and_leave, read_and_write,
};
use fj_connect::OpenFault;
use fj_modes::{Action, FileStatus, Start};
use fj_value::Condition;
use std::alloc::Global;
use std::test::*;

/// A status, the file that is there, and the bytes that OPEN connects to or its error.
type Row = (FileStatus, Option<&'static [u8]>, Result<&'static [u8], u8>);

// (9.4.5.15)
static STATUSES: [Row; 10] = [
    (FileStatus::Old, None, Err(5)),
    (FileStatus::Old, Some(b"abcd\n"), Ok(b"abcd\n")),
    (FileStatus::New, None, Ok(b"")),
    (FileStatus::New, Some(b"abcd\n"), Err(6)),
    (FileStatus::Scratch, None, Ok(b"")),
    (FileStatus::Scratch, Some(b"abcd\n"), Ok(b"")),
    (FileStatus::Replace, None, Ok(b"")),
    (FileStatus::Replace, Some(b"abcd\n"), Ok(b"")),
    (FileStatus::Unknown, None, Ok(b"")),
    (FileStatus::Unknown, Some(b"abcd\n"), Ok(b"abcd\n")),
];

/// Whether OPEN by that status does so, and leaves the file where it is in error.
fn opens(alloc: Global, row: Row, kind: Kind, action: Action) -> bool {
    let (status, there, want) = row;
    let mut opening = read_and_write(kind, status);
    opening.action = action;
    let left = match want {
        Ok(bytes) => Some(bytes),
        Err(_) => there,
    };
    let (came, holds) = come_and_leave(alloc, opening, there, &[], left);
    match (came, want) {
        (Ok(_), Ok(_)) => holds,
        (Err(OpenFault::Refused(Condition::Error(code))), Err(due)) => code == due && holds,
        _ => false,
    }
}

#[test]
fn each_status(rt: HostRuntime) {
    for (number, row) in STATUSES.iter().enumerate() {
        for kind in KINDS.iter() {
            assert!(rt;
                opens(rt.alloc(), *row, *kind, Action::Read)
                    && opens(rt.alloc(), *row, *kind, Action::ReadWrite),
                "{number}"
            );
        }
    }
}

/// Whether a file that is written on a new connection holds this, or is gone, behind CLOSE.
fn leaves(alloc: Global, status: FileStatus, left: Option<&[u8]>) -> bool {
    let opening = read_and_write(Lines, status);
    come_and_leave(alloc, opening, None, &[Put(b"ab\n")], left) == (Ok((0, 3, false)), true)
}

#[test]
fn kept_or_gone(rt: HostRuntime) {
    for status in [FileStatus::Scratch, FileStatus::Unknown] {
        assert!(rt; leaves(rt.alloc(), status, Some(b"ab\n")));
        assert!(rt; leaves(rt.alloc(), status, None));
    }
}

// POSITION=, the file, and where a connection stands then (9.4.5.11).
static STARTS: [(Option<Start>, &[u8], u64); 7] = [
    (None, b"abcd\n", 0),
    (Some(Start::AsIs), b"abcd\n", 0),
    (Some(Start::Rewind), b"abcd\n", 0),
    (Some(Start::Append), b"abcd\n", 5),
    (Some(Start::Append), b"abcd", 4),
    (Some(Start::Append), b"", 0),
    (Some(Start::Rewind), b"", 0),
];

/// What OPEN with that POSITION= comes to. Direct access has none (error 3).
fn due(kind: Kind, start: Option<Start>, place: u64) -> Result<Came, OpenFault> {
    if matches!(kind, Direct | DirectLines) && start.is_some() {
        return Err(OpenFault::Refused(Condition::Error(3)));
    }
    Ok((0, place, false))
}

/// Whether it comes to that, and leaves the file.
fn stands(alloc: Global, kind: Kind, start: Option<Start>, bytes: &[u8], place: u64) -> bool {
    let mut opening = read_and_write(kind, FileStatus::Old);
    opening.start = start;
    let came = come_and_leave(alloc, opening, Some(bytes), &[], Some(bytes));
    came == (due(kind, start, place), true)
}

#[test]
fn each_position(rt: HostRuntime) {
    for (number, (start, bytes, place)) in STARTS.iter().enumerate() {
        for kind in KINDS.iter() {
            assert!(rt;
                stands(rt.alloc(), *kind, *start, bytes, *place),
                "{number}"
            );
        }
    }
}
