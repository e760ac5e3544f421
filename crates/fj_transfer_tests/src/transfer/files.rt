// Transfers on files in memory, with the bytes of the files written out by hand.
ghost use Rattle.std.specs.Prelude.{◌≡◌, ◌↔◌, ◌<◌, ◌^◌, length, All, IfOk};
ghost use Rattle.std.specs.FinSet as set;
ghost use Rattle.fj_moved.specs.Moved.{IsOrdered};
ghost use Rattle.fj_outside.specs.Holdings.{IsInUse};
ghost use Rattle.fj_namelist.specs.GroupText.{IsWithin};
ghost use Rattle.fj_transfer.specs.Moving.{members_of};
ghost use Rattle.fj_transfer.specs.Printing.{IsRecords};

use crate::perform::{NAME, Opening, connect, disk_of};
use crate::transfer::{A, I4, I8, Item, L, MODES, moved};
use fj_connect::{Connection, OpenFault};
use fj_format::parse;
use fj_modes::Access;
use fj_moved::{Load, Moved};
use fj_outside::{Disk, FileStore, Stop};
use fj_transfer::{
    Layout, body_of, frame_of, read_direct, read_numbered, read_sequential, read_stream,
    write_direct, write_lines, write_numbered, write_sequential, write_stream,
};
use fj_value::{Cell, Condition, Value};
use std::alloc::Global;

/// A row that asks for what its access does not have.
pub const NOT_DONE: Condition = Condition::Error(99);

/// Records have at most six bytes.
pub(crate) fn opening(access: Access, formatted: bool) -> Opening {
    Opening {
        access,
        formatted,
        action: None,
        recl: 6,
    }
}

/// Closes, and answers the condition, and the position and the next record's number.
pub fn closed<D: Disk>(
    disk: &mut D,
    c: Connection<D::File>,
    condition: Result<Condition, Stop>,
) -> Result<(Condition, u64, u64), OpenFault>
    requires { D.tells disk.old → IsInUse (D.held disk.old) c.name }
{
    let spot = c.spot();
    c.close_file(disk, true).map_err(Stop::from)?;
    Ok((condition?, spot.at, spot.next_number))
}

/// Writes items at a place, or as the direct record of a number.
fn write<F: FileStore>(
    alloc: Global,
    c: &mut Connection<F>,
    at: u64,
    items: &Load,
) -> Result<Condition, Stop>
    requires ordered { IsOrdered items.now }
    ensures { c.new.name ≡ c.old.name }
{
    let size = c.file_len();
    let access = c.modes().access;
    match access {
        Access::Sequential if at <= size => {
            let frame = frame_of(alloc, items)?;
            c.go_between(at);
            write_sequential(c, frame.bytes())
        }
        Access::Direct if at > 0 => {
            let body = body_of(alloc, items)?;
            write_direct(c, at, body)
        }
        Access::Stream if at <= size => {
            let body = body_of(alloc, items)?;
            write_stream(c, at, body.bytes())
        }
        _ => Ok(NOT_DONE),
    }
}

/// Reads items from a place on, or from the direct record of a number.
fn read<F: FileStore>(
    alloc: Global,
    c: &mut Connection<F>,
    at: u64,
    moved: &mut Moved,
) -> Result<Condition, Stop>
    requires { IsOrdered moved.old }
    ensures { c.new.name ≡ c.old.name }
{
    let size = c.file_len();
    let access = c.modes().access;
    match access {
        Access::Sequential if at <= size => {
            c.go_between(at);
            read_sequential(alloc, c, moved)
        }
        Access::Direct if at > 0 && at < 100 => read_direct(alloc, c, at, moved),
        Access::Stream if at <= size => read_stream(alloc, c, at, moved),
        _ => Ok(NOT_DONE),
    }
}

/// What an output of items comes to: the condition, and the position and the next record's number then.
fn written<D: Disk>(
    alloc: Global,
    disk: &mut D,
    access: Access,
    at: u64,
    items: &Load,
) -> Result<(Condition, u64, u64), OpenFault>
    requires home { D.tells disk.old → (D.held disk.old).in_use ≡ set.empty }
    requires ordered { IsOrdered items.now }
{
    let mut c = connect(alloc, disk, &opening(access, false))?;
    let condition = write(alloc, &mut c, at, items);
    closed(disk, c, condition)
}

/// What an input of items comes to.
fn read_from<D: Disk>(
    alloc: Global,
    disk: &mut D,
    access: Access,
    at: u64,
    items: &mut Moved,
) -> Result<(Condition, u64, u64), OpenFault>
    requires home { D.tells disk.old → (D.held disk.old).in_use ≡ set.empty }
    requires ordered { IsOrdered items.old }
{
    let mut c = connect(alloc, disk, &opening(access, false))?;
    let condition = read(alloc, &mut c, at, items);
    closed(disk, c, condition)
}

/// Whether a value is that of an item; no item stands for no value.
pub fn is_value(value: &Value, item: Option<Item>) -> bool {
    match (value, item) {
        (Value::Undefined, None) => true,
        (Value::Int(n), Some(I4(m))) => *n == i64::from(m),
        (Value::Int(n), Some(I8(m))) => *n == m,
        (Value::Log(b), Some(L(truth))) => *b == truth,
        (Value::Chars(text), Some(A(chars))) => text.bytes() == chars,
        _ => false,
    }
}

/// Whether cells have the values of items.
pub fn are_values(cells: &[Cell], items: &[Option<Item>]) -> bool {
    for (cell, item) in cells.iter().zip(items) {
        if !is_value(&cell.value, *item) {
            return false;
        }
    }
    true
}

/// Access, the file, the place or the record's number, the items, and the condition, the file then, the position and the
/// next record's number.
type Written = (
    Access,
    &'static [u8],
    u64,
    &'static [Item],
    Condition,
    &'static [u8],
    u64,
    u64,
);

use Access::{Direct, Sequential, Stream};
use Condition::{EndOfFile, Error, Fine};

static WRITES: [Written; 7] = [
    // A frame is the last record; the one that stood there and those behind it are gone.
    (
        Sequential,
        b"\x01\0\0\0a\x01\0\0\0\x01\0\0\0b\x01\0\0\0",
        9,
        &[A(b"xy")],
        Fine,
        b"\x01\0\0\0a\x01\0\0\0\x02\0\0\0xy\x02\0\0\0",
        19,
        1,
    ),
    (Sequential, b"abc", 1, &[I8(1)], Error(15), b"abc", 1, 1),
    // A direct record is filled up with zeros, and so is the gap before it.
    (
        Direct,
        b"AAAAAABBBBBBCCCCCC",
        2,
        &[A(b"xyz")],
        Fine,
        b"AAAAAAxyz\0\0\0CCCCCC",
        0,
        3,
    ),
    (
        Direct,
        b"A",
        2,
        &[L(true)],
        Fine,
        b"A\0\0\0\0\0\x01\0\0\0\0\0",
        0,
        3,
    ),
    (
        Direct,
        b"AAAAAA",
        44_739_243,
        &[],
        Error(25),
        b"AAAAAA",
        0,
        1,
    ),
    // Bytes of a stream keep those behind them.
    (Stream, b"abcdef", 2, &[A(b"XY")], Fine, b"abXYef", 4, 1),
    (
        Stream,
        b"abc",
        3,
        &[I4(-2)],
        Fine,
        b"abc\xfe\xff\xff\xff",
        7,
        1,
    ),
];

/// Whether an output comes to what its row says.
fn writes(alloc: Global, row: &Written) -> Result<bool, OpenFault> {
    let (access, before, at, items, condition, after, position, next) = *row;
    if items.len() >= 1000 {
        return Ok(false);
    }
    let mut disk = disk_of(alloc, before)?;
    let items = Load::of_cells(moved(alloc, items, 1)?);
    let came = written(alloc, &mut disk, access, at, &items);
    drop(items);
    let is_left = disk.bytes_of(NAME) == Some(after);
    drop(disk);
    Ok(came? == (condition, position, next) && is_left)
}

#[test]
fn unformatted_output(rt: HostRuntime) {
    for (number, row) in WRITES.iter().enumerate() {
        assert!(rt; writes(rt.alloc(), row) == Ok(true), "row {number}");
    }
}

/// Access, the file, the place or the record's number, items with other values, and the condition, the items then, the
/// position and the next record's number.
type Read = (
    Access,
    &'static [u8],
    u64,
    &'static [Item],
    Condition,
    &'static [Option<Item>],
    u64,
    u64,
);

const FRAMES: &[u8] = b"\x04\0\0\0\x05\0\0\0\x04\0\0\0\x03\0\0\0abc\x03\0\0\0";

static READS: [Read; 8] = [
    // What the items do not need of a record is skipped; more than it has is an error, as is a frame that is not whole.
    (
        Sequential,
        FRAMES,
        12,
        &[A(b"_"), A(b"_")],
        Fine,
        &[Some(A(b"a")), Some(A(b"b"))],
        23,
        1,
    ),
    (
        Sequential,
        FRAMES,
        12,
        &[A(b"_"), A(b"___")],
        Error(19),
        &[None, None],
        12,
        1,
    ),
    (
        Sequential,
        b"\x04\0\0\0\x05\0\0\0\x05\0\0\0",
        0,
        &[I4(0)],
        Error(18),
        &[None],
        0,
        1,
    ),
    (Sequential, FRAMES, 23, &[I4(0)], EndOfFile, &[None], 23, 1),
    (
        Direct,
        b"AAAAAA\xff\xff\xff\xffxy",
        2,
        &[I4(0), A(b"_")],
        Fine,
        &[Some(I4(-1)), Some(A(b"x"))],
        0,
        3,
    ),
    (
        Direct,
        b"AAAAAABBBBB",
        2,
        &[A(b"_")],
        Error(17),
        &[None],
        0,
        1,
    ),
    (
        Stream,
        b"ab\x02\0\0\0c",
        2,
        &[L(false), A(b"_")],
        Fine,
        &[Some(L(true)), Some(A(b"c"))],
        7,
        1,
    ),
    // The end of the file leaves the position.
    (Stream, b"abXYef", 5, &[A(b"__")], EndOfFile, &[None], 0, 1),
];

/// Whether an input comes to what its row says.
fn reads(alloc: Global, row: &Read) -> Result<bool, OpenFault> {
    let (access, bytes, at, items, condition, after, position, next) = *row;
    if items.len() >= 1000 {
        return Ok(false);
    }
    let mut items = moved(alloc, items, 1)?;
    let mut disk = disk_of(alloc, bytes)?;
    let came = read_from(alloc, &mut disk, access, at, &mut items);
    let is_left = disk.bytes_of(NAME) == Some(bytes);
    drop(disk);
    let is_read = are_values(items.cells.as_slice(), after);
    drop(items);
    Ok(came? == (condition, position, next) && is_left && is_read)
}

#[test]
fn unformatted_input(rt: HostRuntime) {
    for (number, row) in READS.iter().enumerate() {
        assert!(rt; reads(rt.alloc(), row) == Ok(true), "row {number}");
    }
}

/// Writes records at the position or at a place.
fn put<F: FileStore>(
    alloc: Global,
    c: &mut Connection<F>,
    place: Option<u64>,
    layout: &Layout,
    advance: bool,
    items: &Load,
) -> Result<Condition, Stop>
    requires records { IsRecords layout.now }
    requires grouped { All (IsWithin (length items.now.cells)) (members_of layout.now) }
    ensures { c.new.name ≡ c.old.name }
{
    if c.modes().access == Access::Direct {
        return match (place, layout) {
            (Some(number), Layout::Explicit(format)) if number > 0 => {
                write_numbered(alloc, c, number, format, MODES, items)
            }
            _ => Ok(NOT_DONE),
        };
    }
    let size = c.file_len();
    if !c.modes().formatted {
        return Ok(NOT_DONE);
    }
    match place {
        Some(at) if at > size => Ok(NOT_DONE),
        _ => write_lines(alloc, c, place, layout, advance, MODES, items),
    }
}

/// Writes the items of a row so, under a format.
fn put_items<F: FileStore>(
    alloc: Global,
    c: &mut Connection<F>,
    place: Option<u64>,
    format: &str,
    advance: bool,
    items: &[Item],
) -> Result<Condition, Stop>
    ensures { c.new.name ≡ c.old.name }
{
    if items.len() >= 1000 || format.len() >= 100 {
        return Ok(NOT_DONE);
    }
    let Ok(format) = parse(alloc, format.as_bytes()) else {
        return Ok(NOT_DONE);
    };
    let items = Load::of_cells(moved(alloc, items, 1)?);
    let layout = Layout::Explicit(format);
    let condition = put(alloc, c, place, &layout, advance, &items);
    drop(items);
    drop(layout);
    condition
}

/// What an output of records comes to that begins at a position or a place: the condition and the position then.
fn put_from<D: Disk>(
    alloc: Global,
    disk: &mut D,
    access: Access,
    at: u64,
    place: Option<u64>,
    format: &str,
    advance: bool,
    items: &[Item],
) -> Result<(Condition, u64, u64), OpenFault>
    requires { D.tells disk.old → (D.held disk.old).in_use ≡ set.empty }
{
    let mut c = connect(alloc, disk, &opening(access, true))?;
    if at <= c.file_len() {
        c.go_between(at);
    }
    let condition = put_items(alloc, &mut c, place, format, advance, items);
    closed(disk, c, condition)
}

/// Access, the file, the position, the place of POS=, the format, ADVANCE=, the items, and the condition, the file then and
/// the position.
type Put = (
    Access,
    &'static [u8],
    u64,
    Option<u64>,
    &'static str,
    bool,
    &'static [Item],
    Condition,
    &'static [u8],
    u64,
);

static PUTS: [Put; 10] = [
    // The record is the last of the file; a line feed that is missing before it is written.
    (
        Sequential,
        b"1\n2\n3\n",
        2,
        None,
        "(I1)",
        true,
        &[I4(9)],
        Fine,
        b"1\n9\n",
        4,
    ),
    (
        Sequential,
        b"ab",
        2,
        None,
        "(I1)",
        true,
        &[I4(9), I4(8)],
        Fine,
        b"ab\n9\n8\n",
        7,
    ),
    (
        Sequential,
        b"",
        0,
        None,
        "(A)",
        false,
        &[A(b"ab")],
        Fine,
        b"ab",
        2,
    ),
    // Errors leave the file and the position.
    (
        Sequential,
        b"a\nb\n",
        2,
        None,
        "(A)",
        true,
        &[A(b"abcdefg")],
        Error(15),
        b"a\nb\n",
        2,
    ),
    // POS= begins a record and writes no line feed before it.
    (
        Stream,
        b"abcdef",
        0,
        Some(2),
        "(A)",
        true,
        &[A(b"X")],
        Fine,
        b"abX\n",
        4,
    ),
    (
        Stream,
        b"abcdef",
        2,
        None,
        "(A)",
        true,
        &[A(b"X")],
        Fine,
        b"ab\nX\n",
        5,
    ),
    (
        Stream,
        b"abcdef",
        6,
        Some(3),
        "(1X)",
        false,
        &[],
        Fine,
        b"abc",
        3,
    ),
    // Records of direct access are filled up with blanks, and those behind them stay.
    (
        Direct,
        b"AAAAAABBBBBBCCCCCC",
        0,
        Some(2),
        "(A)",
        true,
        &[A(b"xy")],
        Fine,
        b"AAAAAAxy    CCCCCC",
        0,
    ),
    (
        Direct,
        b"",
        0,
        Some(1),
        "(I1/I1)",
        true,
        &[I4(1), I4(2)],
        Fine,
        b"1     2     ",
        0,
    ),
    (
        Direct,
        b"AAAAAA",
        0,
        Some(1),
        "(I1/A)",
        true,
        &[I4(1), A(b"abcdefg")],
        Error(15),
        b"AAAAAA",
        0,
    ),
];

/// Whether an output of records comes to what its row says.
fn puts(alloc: Global, row: &Put) -> Result<bool, OpenFault> {
    let (access, before, at, place, format, advance, items, condition, after, position) = *row;
    let mut disk = disk_of(alloc, before)?;
    let came = put_from(alloc, &mut disk, access, at, place, format, advance, items);
    let is_left = disk.bytes_of(NAME) == Some(after);
    drop(disk);
    let (told, stands, _) = came?;
    Ok(told == condition && stands == position && is_left)
}

#[test]
fn formatted_output(rt: HostRuntime) {
    for (number, row) in PUTS.iter().enumerate() {
        assert!(rt; puts(rt.alloc(), row) == Ok(true), "row {number}");
    }
}

/// Reads items from the record of a number on.
fn get<F: FileStore>(
    alloc: Global,
    c: &mut Connection<F>,
    number: u64,
    format: &str,
    items: &mut Moved,
) -> Result<Condition, Stop>
    requires ordered { IsOrdered items.old }
    ensures { c.new.name ≡ c.old.name }
{
    let direct = c.modes().access == Direct && number > 0 && number < 100;
    if !direct || format.len() >= 100 || items.order.len() >= 1000 {
        return Ok(NOT_DONE);
    }
    let Ok(format) = parse(alloc, format.as_bytes()) else {
        return Ok(NOT_DONE);
    };
    let performed = read_numbered(alloc, c, number, &format, MODES, items);
    drop(format);
    Ok(performed?.condition)
}

/// What that comes to on a new connection.
fn get_from<D: Disk>(
    alloc: Global,
    disk: &mut D,
    number: u64,
    format: &str,
    items: &mut Moved,
) -> Result<(Condition, u64, u64), OpenFault>
    requires home { D.tells disk.old → (D.held disk.old).in_use ≡ set.empty }
    requires ordered { IsOrdered items.old }
{
    let mut c = connect(alloc, disk, &opening(Direct, true))?;
    let condition = get(alloc, &mut c, number, format, items);
    closed(disk, c, condition)
}

/// The file of records of six characters, the number of the first record, the format, items with other values, and the
/// condition and the items then.
type Got = (
    &'static [u8],
    u64,
    &'static str,
    &'static [Item],
    Condition,
    &'static [Option<Item>],
);

static GETS: [Got; 3] = [
    (
        b"AAAAAA1 2   34    ",
        2,
        "(I1,1X,I1/I2)",
        &[I4(0), I4(0), I4(0)],
        Fine,
        &[Some(I4(1)), Some(I4(2)), Some(I4(34))],
    ),
    // There has to be a record for a slash too.
    (
        b"1 2   ",
        1,
        "(I1/I1)",
        &[I4(0), I4(0)],
        Error(17),
        &[None, None],
    ),
    (b"1 2   ", 2, "(I1)", &[I4(0)], Error(17), &[None]),
];

/// Whether an input comes to what its row says.
fn gets(alloc: Global, row: &Got) -> Result<bool, OpenFault> {
    let (bytes, number, format, items, condition, after) = *row;
    if items.len() >= 1000 {
        return Ok(false);
    }
    let mut disk = disk_of(alloc, bytes)?;
    let mut items = moved(alloc, items, 1)?;
    let came = get_from(alloc, &mut disk, number, format, &mut items);
    drop(disk);
    let is_read = are_values(items.cells.as_slice(), after);
    drop(items);
    let (told, _, _) = came?;
    Ok(told == condition && is_read)
}

#[test]
fn direct_input_under_a_format(rt: HostRuntime) {
    for (number, row) in GETS.iter().enumerate() {
        assert!(rt; gets(rt.alloc(), row) == Ok(true), "row {number}");
    }
}
