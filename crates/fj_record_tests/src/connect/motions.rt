// BACKSPACE, REWIND and ENDFILE from each place, on each access and form, and with an open record (9.7).
use crate::connect::{
    At, Came, Direct, DirectLines, End, Frames, Go, In, Kind, Lines, Open, PastEnd, Statement,
    Step, Stream, StreamLines, come_and_leave, read_and_write,
};
use fj_connect::Positioning;
use fj_connect::Positioning::{Backspace, Endfile, Rewind};
use fj_modes::{Action, FileStatus};
use std::alloc::Global;
use std::test::*;

const LINES: &[u8] = b"ab\ncd\n";
// Two records of one byte, and a byte behind them.
const FRAMES: &[u8] = b"\x01\0\0\0A\x01\0\0\0\x01\0\0\0B\x01\0\0\0";

const BROKEN: &[u8] = b"\x01\0\0\0A\x01\0\0\0\x01";

// A connection and where it stands, then what BACKSPACE, REWIND and ENDFILE come to, and how many bytes ENDFILE leaves.
static MOTIONS: [(Kind, &[u8], Step, Came, Came, Came, usize); 32] = [
    (
        Lines,
        LINES,
        At(0),
        (0, 0, false),
        (0, 0, false),
        (0, 0, true),
        0,
    ),
    (
        Lines,
        LINES,
        In(0, 0),
        (0, 0, false),
        (0, 0, false),
        (0, 0, true),
        0,
    ),
    (
        Lines,
        LINES,
        In(0, 1),
        (0, 0, false),
        (0, 0, false),
        (0, 1, true),
        1,
    ),
    (
        Lines,
        LINES,
        At(3),
        (0, 0, false),
        (0, 0, false),
        (0, 3, true),
        3,
    ),
    (
        Lines,
        LINES,
        In(3, 1),
        (0, 3, false),
        (0, 0, false),
        (0, 4, true),
        4,
    ),
    (
        Lines,
        LINES,
        In(3, 2),
        (0, 3, false),
        (0, 0, false),
        (0, 5, true),
        5,
    ),
    (
        Lines,
        LINES,
        At(6),
        (0, 3, false),
        (0, 0, false),
        (0, 6, true),
        6,
    ),
    (
        Lines,
        LINES,
        PastEnd,
        (0, 6, false),
        (0, 0, false),
        (20, 6, true),
        6,
    ),
    (
        Lines,
        b"ab\ncd",
        At(5),
        (0, 3, false),
        (0, 0, false),
        (0, 5, true),
        5,
    ),
    (
        Lines,
        b"ab\ncd",
        PastEnd,
        (0, 5, false),
        (0, 0, false),
        (20, 5, true),
        5,
    ),
    (
        Lines,
        b"\n\n",
        At(2),
        (0, 1, false),
        (0, 0, false),
        (0, 2, true),
        2,
    ),
    (
        Lines,
        b"",
        At(0),
        (0, 0, false),
        (0, 0, false),
        (0, 0, true),
        0,
    ),
    (
        Frames,
        FRAMES,
        At(0),
        (0, 0, false),
        (0, 0, false),
        (0, 0, true),
        0,
    ),
    (
        Frames,
        FRAMES,
        At(9),
        (0, 0, false),
        (0, 0, false),
        (0, 9, true),
        9,
    ),
    (
        Frames,
        FRAMES,
        At(18),
        (0, 9, false),
        (0, 0, false),
        (0, 18, true),
        18,
    ),
    (
        Frames,
        FRAMES,
        PastEnd,
        (0, 18, false),
        (0, 0, false),
        (20, 18, true),
        18,
    ),
    (
        Frames,
        BROKEN,
        At(10),
        (18, 10, false),
        (0, 0, false),
        (0, 10, true),
        10,
    ),
    (
        Frames,
        BROKEN,
        PastEnd,
        (0, 10, false),
        (0, 0, false),
        (20, 10, true),
        10,
    ),
    (
        Frames,
        b"",
        At(0),
        (0, 0, false),
        (0, 0, false),
        (0, 0, true),
        0,
    ),
    (
        Direct,
        LINES,
        At(0),
        (28, 0, false),
        (28, 0, false),
        (28, 0, false),
        6,
    ),
    (
        DirectLines,
        LINES,
        At(0),
        (28, 0, false),
        (28, 0, false),
        (28, 0, false),
        6,
    ),
    (
        Stream,
        LINES,
        At(0),
        (28, 0, false),
        (0, 0, false),
        (0, 0, false),
        0,
    ),
    (
        Stream,
        LINES,
        At(4),
        (28, 4, false),
        (0, 0, false),
        (0, 4, false),
        4,
    ),
    (
        Stream,
        LINES,
        At(6),
        (28, 6, false),
        (0, 0, false),
        (0, 6, false),
        6,
    ),
    (
        Stream,
        LINES,
        PastEnd,
        (28, 6, false),
        (0, 0, false),
        (0, 6, false),
        6,
    ),
    (
        StreamLines,
        LINES,
        At(0),
        (0, 0, false),
        (0, 0, false),
        (0, 0, false),
        0,
    ),
    (
        StreamLines,
        LINES,
        At(3),
        (0, 0, false),
        (0, 0, false),
        (0, 3, false),
        3,
    ),
    (
        StreamLines,
        LINES,
        At(4),
        (0, 3, false),
        (0, 0, false),
        (0, 4, false),
        4,
    ),
    (
        StreamLines,
        LINES,
        In(4, 1),
        (0, 4, false),
        (0, 0, false),
        (0, 5, false),
        5,
    ),
    (
        StreamLines,
        LINES,
        At(6),
        (0, 3, false),
        (0, 0, false),
        (0, 6, false),
        6,
    ),
    (
        StreamLines,
        LINES,
        PastEnd,
        (0, 3, false),
        (0, 0, false),
        (0, 6, false),
        6,
    ),
    (
        StreamLines,
        b"",
        PastEnd,
        (0, 0, false),
        (0, 0, false),
        (0, 0, false),
        0,
    ),
];

/// Whether steps from the start of a file come to that, and leave these bytes of it.
fn comes(
    alloc: Global,
    opening: Statement,
    bytes: &[u8],
    steps: &[Step],
    came: Came,
    left: &[u8],
) -> bool {
    come_and_leave(alloc, opening, Some(bytes), steps, Some(left)) == (Ok(came), true)
}

/// The same of one motion, which leaves so many bytes.
fn moves(
    alloc: Global,
    row: &(Kind, &[u8], Step, Came, Came, Came, usize),
    how: Positioning,
) -> bool {
    let (kind, bytes, from, back, rewind, endfile, size) = *row;
    let (came, left) = match how {
        Backspace => (back, bytes),
        Rewind => (rewind, bytes),
        Endfile => (endfile, bytes.get(..size).unwrap_or(&[])),
    };
    let steps = [from, Go(how)];
    let opening = read_and_write(kind, FileStatus::Old);
    comes(alloc, opening, bytes, &steps, came, left)
}

#[test]
fn each_motion_from_each_place(rt: HostRuntime) {
    for (number, row) in MOTIONS.iter().enumerate() {
        for how in [Backspace, Rewind, Endfile] {
            assert!(rt; moves(rt.alloc(), row, how), "{number} {how:?}");
        }
    }
}

// ENDFILE of a file that is only read: 28 is told before 10, and 10 before 20.
static ONLY_READ: [(Kind, Step, Came); 8] = [
    (Lines, At(0), (10, 0, false)),
    (Lines, At(6), (10, 6, false)),
    (Lines, PastEnd, (10, 6, true)),
    (Frames, PastEnd, (10, 6, true)),
    (Stream, At(3), (10, 3, false)),
    (StreamLines, At(3), (10, 3, false)),
    (Direct, At(0), (28, 0, false)),
    (DirectLines, At(0), (28, 0, false)),
];

/// Whether a row of that table holds.
fn is_only_read(alloc: Global, kind: Kind, from: Step, came: Came) -> bool {
    let mut opening = read_and_write(kind, FileStatus::Old);
    opening.action = Action::Read;
    comes(alloc, opening, LINES, &[from, Go(Endfile)], came, LINES)
}

#[test]
fn endfile_where_only_read(rt: HostRuntime) {
    for (number, (kind, from, came)) in ONLY_READ.iter().enumerate() {
        assert!(rt; is_only_read(rt.alloc(), *kind, *from, *came), "{number}");
    }
}

// An open record, what ends it, where the connection is then, and the file.
static ENDED: [(Kind, &[Step], Came, &[u8]); 15] = [
    (
        Lines,
        &[At(6), Open(b"ef", 2)],
        (0, 8, false),
        b"ab\ncd\nef",
    ),
    (
        Lines,
        &[At(6), Open(b"ef", 2), End],
        (0, 9, false),
        b"ab\ncd\nef\n",
    ),
    (
        Lines,
        &[At(6), Open(b"ef", 2), End, End],
        (0, 9, false),
        b"ab\ncd\nef\n",
    ),
    (
        Lines,
        &[At(6), Open(b"ef", 2), Go(Backspace)],
        (0, 6, false),
        b"ab\ncd\nef\n",
    ),
    (
        Lines,
        &[At(6), Open(b"ef", 2), Go(Rewind)],
        (0, 0, false),
        b"ab\ncd\nef\n",
    ),
    (
        Lines,
        &[At(3), Open(b"ef", 2), End],
        (0, 6, false),
        b"ab\nef\n",
    ),
    (
        Lines,
        &[At(6), Open(b"e", 1), Open(b"f", 2), End],
        (0, 9, false),
        b"ab\ncd\nef\n",
    ),
    (
        Lines,
        &[At(6), Open(b"e\nf", 1), Go(Backspace)],
        (0, 8, false),
        b"ab\ncd\ne\nf\n",
    ),
    (
        Lines,
        &[At(6), Open(b"", 0), End],
        (0, 7, false),
        b"ab\ncd\n\n",
    ),
    (
        Lines,
        &[At(6), Open(b"", 0), Go(Backspace)],
        (0, 6, false),
        b"ab\ncd\n\n",
    ),
    (
        Lines,
        &[In(3, 1), Open(b"x", 2), End],
        (0, 6, false),
        b"ab\ncx\n",
    ),
    (Lines, &[At(0), End], (0, 0, false), b"ab\ncd\n"),
    (Lines, &[In(3, 1), End], (0, 4, false), b"ab\ncd\n"),
    (
        Lines,
        &[At(6), Open(b"ef", 2), Go(Endfile)],
        (0, 9, true),
        b"ab\ncd\nef\n",
    ),
    (
        StreamLines,
        &[At(6), Open(b"ef", 2), Go(Endfile)],
        (0, 9, false),
        b"ab\ncd\nef\n",
    ),
];

#[test]
fn what_ends_an_open_record(rt: HostRuntime) {
    for (number, (kind, steps, came, left)) in ENDED.iter().enumerate() {
        let opening = read_and_write(*kind, FileStatus::Old);
        assert!(rt;
            comes(rt.alloc(), opening, LINES, steps, *came, left),
            "{number}"
        );
    }
}
