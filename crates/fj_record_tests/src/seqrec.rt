// Worked cases of formatted records.
use fj_outside::{FileStore, MemoryFile, Stop};
use fj_seqrec::RecordRead::{End, Line, TooLong};
use fj_seqrec::{RecordRead, append_records, backspace_line, read_record};
use fj_value::Text;
use std::alloc::{AllocError, Global};
use std::test::*;

const LONG: [u8; 2500] = [b'x'; 2500];

/// A file, a place and a limit, and what is read there.
type Read = (&'static [u8], u64, u32, RecordRead, &'static [u8]);

static READS: [Read; 24] = [
    (b"", 0, 9, End, b""),
    (b"ab\ncd\n", 0, 9, Line { next: 3 }, b"ab"),
    (b"ab\ncd\n", 3, 9, Line { next: 6 }, b"cd"),
    (b"ab\ncd\n", 6, 9, End, b""),
    (b"ab\ncd\n", 1, 9, Line { next: 3 }, b"b"),
    (b"ab\ncd", 3, 9, Line { next: 5 }, b"cd"),
    (b"ab\r\ncd\r\n", 0, 9, Line { next: 4 }, b"ab"),
    (b"ab\r\ncd\r\n", 4, 9, Line { next: 8 }, b"cd"),
    (b"ab\r\r\n", 0, 9, Line { next: 5 }, b"ab\r"),
    (b"a\rb\n", 0, 9, Line { next: 4 }, b"a\rb"),
    (b"ab\r", 0, 9, Line { next: 3 }, b"ab\r"),
    (b"\n\n", 0, 9, Line { next: 1 }, b""),
    (b"\n\n", 1, 9, Line { next: 2 }, b""),
    (b"\r\n", 0, 0, Line { next: 2 }, b""),
    (b"\n", 0, 0, Line { next: 1 }, b""),
    (b"a\n", 0, 0, TooLong, b""),
    (b"a\n", 0, 1, Line { next: 2 }, b"a"),
    (b"abc\n", 0, 3, Line { next: 4 }, b"abc"),
    (b"abc\n", 0, 2, TooLong, b""),
    (b"abc\r\n", 0, 3, Line { next: 5 }, b"abc"),
    (b"abc\r\n", 0, 2, TooLong, b""),
    (b"abc", 0, 3, Line { next: 3 }, b"abc"),
    (b"abc", 0, 2, TooLong, b""),
    (b"abc", 3, 0, End, b""),
];

/// Reads a record at a place that is in the file.
fn read_at<F: FileStore>(
    file: &mut F,
    at: u64,
    limit: u32,
    into: &mut Text,
) -> Result<RecordRead, Stop> {
    if at > file.len() {
        return Err(Stop::Failed);
    }
    read_record(file, at, limit, into)
}

/// Goes back from a place that is in the file.
fn back_from<F: FileStore>(file: &mut F, at: u64) -> Option<u64> {
    if at > file.len() {
        return None;
    }
    backspace_line(file, at).ok()
}

/// Whether a row of that table holds.
fn reads(alloc: Global, row: &Read) -> bool {
    let (bytes, at, limit, answer, text) = *row;
    let mut into = Text::new(alloc);
    match MemoryFile::from_bytes(alloc, bytes) {
        Ok(mut file) => {
            let read = read_at(&mut file, at, limit, &mut into);
            read == Ok(answer) && into.bytes() == text
        }
        Err(_) => false,
    }
}

#[test]
fn reads_records(rt: HostRuntime) {
    for (number, row) in READS.iter().enumerate() {
        assert!(rt; reads(rt.alloc(), row), "row {number}");
    }
}

/// A file with a record of 2,500 characters, which takes several pieces, with a carriage return and a line feed.
fn long(alloc: Global) -> Result<MemoryFile, AllocError> {
    let mut bytes = Text::from_bytes(alloc, &LONG)?;
    bytes.push_all(b"\r\nab\n")?;
    MemoryFile::from_bytes(alloc, bytes.bytes())
}

// A limit, what is read of that record, and its length.
static LONG_READS: [(u32, RecordRead, usize); 3] = [
    (2500, Line { next: 2502 }, 2500),
    (2499, TooLong, 0),
    (1, TooLong, 0),
];

// A place, and where the record before it begins.
static LONG_BACK: [(u64, u64); 5] = [(2505, 2502), (2502, 0), (2501, 0), (2000, 0), (1, 0)];

/// How many rows of the first table hold, up to the first that does not.
fn long_reads<F: FileStore>(file: &mut F, into: &mut Text) -> usize {
    for (row, (limit, answer, width)) in LONG_READS.iter().enumerate() {
        let read = read_at(file, 0, *limit, into);
        if read != Ok(*answer) || into.len() != *width {
            return row;
        }
    }
    LONG_READS.len()
}

/// How many rows of the second.
fn long_back<F: FileStore>(file: &mut F) -> usize {
    for (row, (at, start)) in LONG_BACK.iter().enumerate() {
        if back_from(file, *at) != Some(*start) {
            return row;
        }
    }
    LONG_BACK.len()
}

/// How many of each.
fn long_rows(alloc: Global) -> Result<(usize, usize), AllocError> {
    let mut into = Text::new(alloc);
    let mut file = long(alloc)?;
    let read = long_reads(&mut file, &mut into);
    Ok((read, long_back(&mut file)))
}

#[test]
fn reads_long_records(rt: HostRuntime) {
    let due = (LONG_READS.len(), LONG_BACK.len());
    assert_eq!(rt; long_rows(rt.alloc()), Ok(due));
}

// A file, a place, and where the record before it begins.
static BACK: [(&[u8], u64, u64); 10] = [
    (b"", 0, 0),
    (b"ab\ncd\n", 0, 0),
    (b"ab\ncd\n", 3, 0),
    (b"ab\ncd\n", 6, 3),
    (b"ab\ncd\n", 5, 3),
    (b"ab\ncd\n", 4, 3),
    (b"ab\ncd", 5, 3),
    (b"ab\r\ncd\r\n", 8, 4),
    (b"\n\n", 2, 1),
    (b"\n\n", 1, 0),
];

/// Where the record before a place begins.
fn before(alloc: Global, bytes: &[u8], at: u64) -> Option<u64> {
    match MemoryFile::from_bytes(alloc, bytes) {
        Ok(mut file) => back_from(&mut file, at),
        Err(_) => None,
    }
}

#[test]
fn goes_back(rt: HostRuntime) {
    for (number, (bytes, at, start)) in BACK.iter().enumerate() {
        assert!(rt;
            before(rt.alloc(), bytes, *at) == Some(*start),
            "row {number}"
        );
    }
}

/// A file, a place, what is put there, whether the file ends behind it, and the file then.
type Append = (&'static [u8], u64, &'static [u8], bool, &'static [u8]);

static APPENDS: [Append; 7] = [
    (b"", 0, b"ab\n", true, b"ab\n"),
    (b"ab\n", 3, b"cd\n", true, b"ab\ncd\n"),
    (b"ab\ncd\nef\n", 3, b"x\n", true, b"ab\nx\n"),
    (b"ab\ncd\nef\n", 3, b"x\n", false, b"ab\nx\n\nef\n"),
    (b"ab\ncd\n", 3, b"", true, b"ab\n"),
    (b"ab\ncd\n", 3, b"", false, b"ab\ncd\n"),
    (b"ab\ncd", 4, b"xyz\n", false, b"ab\ncxyz\n"),
];

/// Appends a short piece at a place that is in the file.
fn append_at<F: FileStore>(
    file: &mut F,
    at: u64,
    piece: &[u8],
    shorten: bool,
) -> Result<u64, Stop> {
    if at > file.len() || at > 9 || piece.len() > 9 {
        return Err(Stop::Failed);
    }
    append_records(file, at, piece, shorten)
}

/// Whether a row of that table holds.
fn appends(alloc: Global, row: &Append) -> bool {
    let (bytes, at, piece, shorten, after) = *row;
    match MemoryFile::from_bytes(alloc, bytes) {
        Ok(mut file) => {
            let behind = append_at(&mut file, at, piece, shorten);
            behind == Ok(at.saturating_add(piece.len() as u64)) && file.bytes() == after
        }
        Err(_) => false,
    }
}

#[test]
fn appends_records(rt: HostRuntime) {
    for (number, row) in APPENDS.iter().enumerate() {
        assert!(rt; appends(rt.alloc(), row), "row {number}");
    }
}
