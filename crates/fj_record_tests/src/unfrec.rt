// Worked cases of unformatted records. The bytes of `WRITTEN` are those that gfortran writes.
ghost use Rattle.std.specs.Prelude.{◌≡◌};
ghost use Rattle.fj_unfrec.specs.Stored.{stored_width};

use fj_outside::{FileStore, MemoryFile, Stop};
use fj_unfrec::FrameRead::{Broken, End, Frame, TooLong};
use fj_unfrec::{FrameRead, append_frame, backspace_frame, get_value, put_value, read_frame};
use fj_value::{Kind, Text, Value};
use std::alloc::{AllocError, Global};
use std::test::*;

// WRITE(10) 5 / WRITE(10) -2_8 / WRITE(10) .TRUE. / WRITE(10) .FALSE., 'abc' / WRITE(10)
const WRITTEN: [u8; 63] = [
    4, 0, 0, 0, 5, 0, 0, 0, 4, 0, 0, 0, // 5
    8, 0, 0, 0, 0xfe, 0xff, 0xff, 0xff, 0xff, 0xff, 0xff, 0xff, 8, 0, 0, 0, // -2
    4, 0, 0, 0, 1, 0, 0, 0, 4, 0, 0, 0, // true
    7, 0, 0, 0, 0, 0, 0, 0, b'a', b'b', b'c', 7, 0, 0, 0, // false, abc
    0, 0, 0, 0, 0, 0, 0, 0, // an empty record
];

// A place in that file and a limit, what is read there, and the bytes of `WRITTEN` that are its body, from one to another.
static READS: [(u64, u32, FrameRead, usize, usize); 9] = [
    (0, 4, Frame { next: 12 }, 4, 8),
    (0, 3, TooLong, 0, 0),
    (12, 99, Frame { next: 28 }, 16, 24),
    (28, 99, Frame { next: 40 }, 32, 36),
    (40, 7, Frame { next: 55 }, 44, 51),
    (40, 6, TooLong, 0, 0),
    (55, 0, Frame { next: 63 }, 0, 0),
    (63, 0, End, 0, 0),
    (1, 99, Broken, 0, 0),
];

/// The bytes of `WRITTEN` from one place to another.
fn written(from: usize, to: usize) -> &'static [u8] {
    WRITTEN.get(from..to).unwrap_or(&[])
}

/// Reads a frame at a place that is in the file.
fn read_at<F: FileStore>(
    file: &mut F,
    at: u64,
    limit: u32,
    into: &mut Text,
) -> Result<FrameRead, Stop> {
    if at > file.len() {
        return Err(Stop::Failed);
    }
    read_frame(file, at, limit, into)
}

/// Goes back from a place that is in the file.
fn back_from<F: FileStore>(file: &mut F, at: u64) -> Result<Option<u64>, Stop> {
    if at > file.len() {
        return Err(Stop::Failed);
    }
    Ok(backspace_frame(file, at)?)
}

/// How many rows of that table hold, up to the first that does not.
fn rows_read<F: FileStore>(file: &mut F, into: &mut Text) -> usize {
    for (row, (at, limit, answer, from, to)) in READS.iter().enumerate() {
        let read = read_at(file, *at, *limit, into);
        if read != Ok(*answer) || into.bytes() != written(*from, *to) {
            return row;
        }
    }
    READS.len()
}

/// The same in that file.
fn rows_read_in_file(alloc: Global) -> usize {
    let mut into = Text::new(alloc);
    match MemoryFile::from_bytes(alloc, &WRITTEN) {
        Ok(mut file) => rows_read(&mut file, &mut into),
        Err(_) => 0,
    }
}

#[test]
fn reads_frames(rt: HostRuntime) {
    assert_eq!(rt; rows_read_in_file(rt.alloc()), READS.len());
}

/// Whether a file that begins with a frame, or is to, is read as that.
fn is_read_as(alloc: Global, bytes: &[u8], answer: FrameRead) -> bool {
    let mut into = Text::new(alloc);
    match MemoryFile::from_bytes(alloc, bytes) {
        Ok(mut file) => read_at(&mut file, 0, 99, &mut into) == Ok(answer),
        Err(_) => false,
    }
}

// Each cut of the first frame.
#[test]
fn reads_cut_frames(rt: HostRuntime) {
    for end in 0..12 {
        let answer = if end == 0 { End } else { Broken };
        assert!(rt;
            is_read_as(rt.alloc(), written(0, end), answer),
            "cut to {end}"
        );
    }
}

// The first frame with another first or last length.
static WRONG: [[u8; 12]; 3] = [
    [5, 0, 0, 0, 5, 0, 0, 0, 4, 0, 0, 0],
    [4, 0, 0, 0, 5, 0, 0, 0, 5, 0, 0, 0],
    [4, 0, 0, 0x80, 5, 0, 0, 0, 4, 0, 0, 0x80],
];

/// Whether the frame before a place begins there.
fn begins_at(alloc: Global, bytes: &[u8], at: u64, start: Option<u64>) -> bool {
    match MemoryFile::from_bytes(alloc, bytes) {
        Ok(mut file) => back_from(&mut file, at) == Ok(start),
        Err(_) => false,
    }
}

#[test]
fn wrong_lengths_are_no_frame(rt: HostRuntime) {
    for (number, bytes) in WRONG.iter().enumerate() {
        assert!(rt;
            is_read_as(rt.alloc(), bytes, Broken) && begins_at(rt.alloc(), bytes, 12, None),
            "row {number}"
        );
    }
}

// A place, and where the frame before it begins.
static BACK: [(u64, Option<u64>); 11] = [
    (0, Some(0)),
    (12, Some(0)),
    (28, Some(12)),
    (40, Some(28)),
    (55, Some(40)),
    (63, Some(55)),
    (62, Some(54)),
    (59, None),
    (11, None),
    (7, None),
    (1, None),
];

#[test]
fn goes_back(rt: HostRuntime) {
    for (at, start) in BACK.iter() {
        assert!(rt; begins_at(rt.alloc(), &WRITTEN, *at, *start), "at {at}");
    }
}

/// Appends a frame at a place that is in the file, near its start.
fn append_at<F: FileStore>(file: &mut F, at: u64, body: &[u8]) -> Result<u64, Stop> {
    if at > file.len() || at > 99 || body.len() > 3000 {
        return Err(Stop::Failed);
    }
    append_frame(file, at, body)
}

// The bodies of `WRITTEN`, from one place to another.
static BODIES: [(usize, usize); 5] = [(4, 8), (16, 24), (32, 36), (44, 51), (0, 0)];

/// Appends them one behind the other.
fn append_all<F: FileStore>(file: &mut F) -> Result<(), Stop> {
    let mut at = 0;
    for (from, to) in BODIES.iter() {
        at = append_at(file, at, written(*from, *to))?;
    }
    Ok(())
}

/// Whether they are that file then.
fn are_appended(alloc: Global) -> bool {
    let mut file = MemoryFile::new(alloc);
    append_all(&mut file).is_ok() && file.bytes() == WRITTEN.as_slice()
}

#[test]
fn appends_frames(rt: HostRuntime) {
    assert!(rt; are_appended(rt.alloc()));
}

const LONG: [u8; 3000] = [7; 3000];

/// Whether a body that is not gathered is put over the second frame, and read there.
fn puts_long<F: FileStore>(file: &mut F, into: &mut Text) -> bool {
    append_at(file, 12, &LONG) == Ok(3020)
        && file.len() == 3020
        && read_at(file, 12, 3000, into) == Ok(Frame { next: 3020 })
        && into.bytes() == LONG.as_slice()
}

// The first frame, and a short one over the second.
const SHORT: &[u8] = b"\x04\0\0\0\x05\0\0\0\x04\0\0\0\x02\0\0\0ab\x02\0\0\0";

/// Whether that is done in that file, and a short body put over the long one then.
fn puts_long_and_short(alloc: Global) -> bool {
    let mut into = Text::new(alloc);
    match MemoryFile::from_bytes(alloc, &WRITTEN) {
        Ok(mut file) => {
            puts_long(&mut file, &mut into)
                && append_at(&mut file, 12, b"ab") == Ok(22)
                && file.bytes() == SHORT
        }
        Err(_) => false,
    }
}

#[test]
fn appends_long_frames(rt: HostRuntime) {
    assert!(rt; puts_long_and_short(rt.alloc()));
}

/// What a value is to be.
#[derive(Clone, Copy)]
enum Due {
    Int(i64),
    Log(bool),
    Chars(&'static [u8]),
}

// Values of each kind, and the bytes that they are put as one behind the other.
static PUTS: [(Kind, Due); 4] = [
    (Kind::Int4, Due::Int(5)),
    (Kind::Int8, Due::Int(-2)),
    (Kind::Logical, Due::Log(true)),
    (Kind::Chars(3), Due::Chars(b"abc")),
];

const STORED: &[u8] = b"\x05\0\0\0\xfe\xff\xff\xff\xff\xff\xff\xff\x01\0\0\0abc";

fn value_of(alloc: Global, due: Due) -> Result<Value, AllocError> {
    match due {
        Due::Int(number) => Ok(Value::Int(number)),
        Due::Log(truth) => Ok(Value::Log(truth)),
        Due::Chars(text) => Value::of_text(Text::from_bytes(alloc, text)?),
    }
}

/// Whether a value is put behind others.
fn puts_one(alloc: Global, kind: Kind, due: Due, out: &mut Text) -> bool {
    match value_of(alloc, due) {
        Ok(value) => put_value(kind, &value, out).is_ok(),
        Err(_) => false,
    }
}

/// Whether they are put so.
fn puts_all(alloc: Global) -> bool {
    let mut out = Text::new(alloc);
    let mut put = true;
    for (kind, due) in PUTS.iter() {
        put &= puts_one(alloc, *kind, *due, &mut out);
    }
    put && out.bytes() == STORED
}

#[test]
fn puts_values(rt: HostRuntime) {
    assert!(rt; puts_all(rt.alloc()));
}

// A kind, the bytes of a value, and the value.
static GETS: [(Kind, &[u8], Due); 5] = [
    (Kind::Int4, b"\xff\xff\xff\xff", Due::Int(-1)),
    (Kind::Int8, b"\0\0\0\0\x01\0\0\0", Due::Int(4294967296)),
    (Kind::Logical, b"\0\x02\0\0", Due::Log(true)),
    (Kind::Logical, b"\0\0\0\0", Due::Log(false)),
    (Kind::Chars(2), b"ab", Due::Chars(b"ab")),
];

/// How many bytes a value takes.
fn width(kind: Kind) -> usize
    ensures { result ≡ stored_width kind }
{
    match kind {
        Kind::Int4 | Kind::Logical => 4,
        Kind::Int8 => 8,
        Kind::Chars(count) => count as usize,
    }
}

fn is_due(value: &Value, due: Due) -> bool {
    match (value, due) {
        (Value::Int(number), Due::Int(other)) => *number == other,
        (Value::Log(truth), Due::Log(other)) => *truth == other,
        (Value::Chars(text), Due::Chars(other)) => text.bytes() == other,
        _ => false,
    }
}

/// How many rows of that table hold, up to the first that does not, where each value comes over the one before.
fn rows_gotten(alloc: Global, value: &mut Value) -> usize {
    for (row, (kind, bytes, due)) in GETS.iter().enumerate() {
        if bytes.len() != width(*kind)
            || get_value(alloc, *kind, bytes, value).is_err()
            || !is_due(value, *due)
        {
            return row;
        }
    }
    GETS.len()
}

fn all_gotten(alloc: Global) -> usize {
    let mut value = Value::Undefined;
    rows_gotten(alloc, &mut value)
}

#[test]
fn gets_values(rt: HostRuntime) {
    assert_eq!(rt; all_gotten(rt.alloc()), GETS.len());
}
