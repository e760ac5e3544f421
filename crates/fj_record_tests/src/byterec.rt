// Worked cases of direct and stream access.
use fj_byterec::{read_direct, read_stream, write_direct, write_stream};
use fj_outside::{FileStore, MemoryFile, Stop};
use fj_value::Text;
use std::alloc::{AllocError, Global};
use std::test::*;

// The length and the number of a record of ten bytes, whether it is there, and what it has.
static RECORDS: [(u32, u64, bool, &[u8]); 8] = [
    (4, 1, true, b"abcd"),
    (4, 2, true, b"efgh"),
    (4, 3, false, b""),
    (5, 2, true, b"fghij"),
    (10, 1, true, b"abcdefghij"),
    (11, 1, false, b""),
    (1, 10, true, b"j"),
    (4, u64::MAX, false, b""),
];

/// Whether a record is there; none has no length or no number.
fn read_at_number<F: FileStore>(
    file: &mut F,
    recl: u32,
    number: u64,
    into: &mut Text,
) -> Result<bool, Stop> {
    if recl == 0 || number == 0 {
        return Err(Stop::Failed);
    }
    read_direct(file, recl, number, into)
}

/// Whether that is what was to be found, with these bytes.
fn is_found(found: Result<bool, Stop>, there: bool, into: &Text, bytes: &[u8]) -> bool {
    found == Ok(there) && into.bytes() == bytes
}

/// How many rows of that table hold, up to the first that does not.
fn rows_read<F: FileStore>(file: &mut F, into: &mut Text) -> usize {
    for (row, (recl, number, there, record)) in RECORDS.iter().enumerate() {
        let found = read_at_number(file, *recl, *number, into);
        if !is_found(found, *there, into, record) {
            return row;
        }
    }
    RECORDS.len()
}

/// The same in a file of ten bytes.
fn rows_read_in_file(alloc: Global) -> usize {
    let mut into = Text::new(alloc);
    match MemoryFile::from_bytes(alloc, b"abcdefghij") {
        Ok(mut file) => rows_read(&mut file, &mut into),
        Err(_) => 0,
    }
}

#[test]
fn reads_records(rt: HostRuntime) {
    assert_eq!(rt; rows_read_in_file(rt.alloc()), RECORDS.len());
}

// A file, the number of a record of four bytes, what is put there and what fills it up, and the file then.
static PUT: [(&[u8], u64, &[u8], u8, &[u8]); 7] = [
    (b"", 2, b"\x05\0\0\0", 0, b"\0\0\0\0\x05\0\0\0"),
    (b"", 1, b"ab", b' ', b"ab  "),
    (b"abcdefghij", 2, b"XY", b' ', b"abcdXY  ij"),
    (b"abcdefghij", 3, b"XY", b' ', b"abcdefghXY  "),
    (b"abcdefghij", 5, b"WXYZ", b' ', b"abcdefghij      WXYZ"),
    (b"abcdefghij", 1, b"", 0, b"\0\0\0\0efghij"),
    (b"ab", 1, b"c", b' ', b"c   "),
];

/// Puts a record of four bytes, where there is one.
fn put_at_number<F: FileStore>(
    file: &mut F,
    number: u64,
    piece: &[u8],
    fill: u8,
) -> Result<(), Stop> {
    if number == 0 || number > 8 || piece.len() > 4 {
        return Err(Stop::Failed);
    }
    write_direct(file, 4, number, piece, fill)
}

/// Whether a row of that table holds.
fn puts(alloc: Global, row: &(&[u8], u64, &[u8], u8, &[u8])) -> bool {
    let (bytes, number, piece, fill, after) = *row;
    match MemoryFile::from_bytes(alloc, bytes) {
        Ok(mut file) => {
            let put = put_at_number(&mut file, number, piece, fill);
            put.is_ok() && file.bytes() == after
        }
        Err(_) => false,
    }
}

#[test]
fn writes_records(rt: HostRuntime) {
    for (row, put) in PUT.iter().enumerate() {
        assert!(rt; puts(rt.alloc(), put), "row {row}");
    }
}

/// Puts the second record of 3,000 bytes, and answers whether it is there then.
fn put_long<F: FileStore>(file: &mut F, into: &mut Text) -> Result<bool, Stop> {
    write_direct(file, 3000, 2, b"cd", b'.')?;
    read_direct(file, 3000, 2, into)
}

/// Whether that record is there, behind a gap of several pieces; it is not gathered.
fn puts_long(alloc: Global) -> bool {
    let mut into = Text::new(alloc);
    match MemoryFile::from_bytes(alloc, b"ab") {
        Ok(mut file) => {
            let there = put_long(&mut file, &mut into) == Ok(true);
            there && file.len() == 6000 && into.len() == 3000 && into.bytes().starts_with(b"cd.")
        }
        Err(_) => false,
    }
}

#[test]
fn writes_long_records(rt: HostRuntime) {
    assert!(rt; puts_long(rt.alloc()));
}

// A place in a stream of six bytes and how many are wanted, whether they are there, and what they are.
static PIECES: [(u64, u32, bool, &[u8]); 6] = [
    (0, 6, true, b"abXYef"),
    (0, 7, false, b""),
    (2, 3, true, b"XYe"),
    (6, 0, true, b""),
    (6, 1, false, b""),
    (5, u32::MAX, false, b""),
];

/// Whether the bytes are there; none are behind the end.
fn read_from<F: FileStore>(
    file: &mut F,
    at: u64,
    want: u32,
    into: &mut Text,
) -> Result<bool, Stop> {
    if at > file.len() {
        return Err(Stop::Failed);
    }
    read_stream(file, at, want, into)
}

/// Writes at a place of a short stream, and answers the place behind.
fn write_from<F: FileStore>(file: &mut F, at: u64, piece: &[u8]) -> Result<u64, Stop> {
    if at > file.len() || at > 9 || piece.len() > 9 {
        return Err(Stop::Failed);
    }
    write_stream(file, at, piece)
}

/// How many rows of that table hold, up to the first that does not.
fn pieces_read<F: FileStore>(file: &mut F, into: &mut Text) -> usize {
    for (row, (at, want, there, bytes)) in PIECES.iter().enumerate() {
        let found = read_from(file, *at, *want, into);
        if !is_found(found, *there, into, bytes) {
            return row;
        }
    }
    PIECES.len()
}

/// Whether two bytes are written at a place, up to another, and the file is this then.
fn writes(file: &mut MemoryFile, at: u64, piece: &[u8], behind: u64, after: &[u8]) -> bool {
    write_from(file, at, piece) == Ok(behind) && file.bytes() == after
}

/// How many rows hold behind a first write, and whether that and one behind the rows are as they are to be.
fn written_and_read(alloc: Global) -> Result<(bool, usize, bool), AllocError> {
    let mut into = Text::new(alloc);
    let mut file = MemoryFile::from_bytes(alloc, b"abcdef")?;
    let first = writes(&mut file, 2, b"XY", 4, b"abXYef");
    let rows = pieces_read(&mut file, &mut into);
    let unchanged = file.bytes() == b"abXYef".as_slice();
    let second = writes(&mut file, 6, b"gh", 8, b"abXYefgh");
    Ok((first, rows, unchanged && second))
}

#[test]
fn reads_and_writes_bytes(rt: HostRuntime) {
    let due = (true, PIECES.len(), true);
    assert_eq!(rt; written_and_read(rt.alloc()), Ok(due));
}
