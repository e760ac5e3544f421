// Records that are looked at where one is still open, and once it is ended.
use crate::connect::{At, Open, ShortLines, all_done, connect, read_and_write};
use crate::disks::disk_of;
use fj_connect::{Connection, Within};
use fj_modes::FileStatus;
use fj_outside::FileStore;
use fj_seqrec::RecordRead;
use fj_seqrec::RecordRead::{End, Line, TooLong};
use std::alloc::Global;
use std::test::*;

// An open record behind `ab` and a line feed, a place, and the record there once the open one is ended. The limit is
// four characters.
type Row = (&'static [u8], u64, RecordRead, &'static [u8]);

static LOOKS: [Row; 15] = [
    (b"cd", 0, Line { next: 3 }, b"ab"),
    (b"cd", 2, Line { next: 3 }, b""),
    (b"cd", 3, Line { next: 6 }, b"cd"),
    (b"cd", 4, Line { next: 6 }, b"d"),
    (b"cd", 5, Line { next: 6 }, b""),
    (b"cd", 6, End, b""),
    (b"", 3, Line { next: 4 }, b""),
    (b"", 4, End, b""),
    (b"cd\r", 3, Line { next: 7 }, b"cd"),
    (b"cd\r", 5, Line { next: 7 }, b""),
    (b"c\n", 3, Line { next: 5 }, b"c"),
    (b"c\n", 5, Line { next: 6 }, b""),
    (b"abcd\r", 3, Line { next: 9 }, b"abcd"),
    (b"abcde", 3, TooLong, b""),
    (b"abcdef", 3, TooLong, b""),
];

/// What a look ahead at a place finds, where one record is open; nothing where none is.
fn ahead<F: FileStore>(c: &mut Connection<F>, at: u64) -> Option<RecordRead> {
    if c.spot().within != Within::Writing || at > c.file_len().saturating_add(1) {
        return None;
    }
    c.look_as_ended(at).ok()
}

/// What a look finds once the record is ended.
fn behind<F: FileStore>(c: &mut Connection<F>, at: u64) -> Option<RecordRead> {
    if c.end_record().is_err() || at > c.file_len() {
        return None;
    }
    c.look_at_record(at).ok()
}

/// Whether both find this record behind an open one.
fn found_behind<F: FileStore>(c: &mut Connection<F>, row: Row) -> bool {
    let (text, at, read, chars) = row;
    if all_done(c, &[At(3), Open(text, 0)]).is_err() {
        return false;
    }
    let look = c.look();
    let first = ahead(c, at) == Some(read) && c.hand() == chars && c.look() == look;
    first && behind(c, at) == Some(read) && c.hand() == chars
}

/// The same of a connection that is let go then.
fn found_on<F: FileStore>(mut c: Connection<F>, row: Row) -> bool {
    let found = found_behind(&mut c, row);
    drop(c);
    found
}

/// The same of a new connection.
fn found(alloc: Global, row: Row) -> bool {
    let Ok(mut disk) = disk_of(alloc, Some(b"ab\n")) else {
        return false;
    };
    let opened = connect(
        alloc,
        &mut disk,
        read_and_write(ShortLines, FileStatus::Old),
    );
    drop(disk);
    match opened {
        Ok(c) => found_on(c, row),
        Err(_) => false,
    }
}

#[test]
fn what_an_ended_record_is_to_be(rt: HostRuntime) {
    for (number, row) in LOOKS.iter().enumerate() {
        assert!(rt; found(rt.alloc(), *row), "{number}");
    }
}
