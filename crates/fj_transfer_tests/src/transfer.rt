// Outputs under explicit formats, with their records written out by hand.
ghost use Rattle.std.specs.Prelude.{◌≡◌, ◌<◌, ◌^◌, [], length, All, IfOk};
ghost use Rattle.fj_moved.specs.Moved.{AreDistinct, IsOrdered};
ghost use Rattle.fj_namelist.specs.GroupText.{IsWithin};
ghost use Rattle.fj_transfer.specs.Moving.{members_of};
ghost use Rattle.fj_transfer.specs.Printing.{IsRecords};

mod files;
mod listed;

use crate::transfer::listed::members;
use fj_format::parse;
use fj_moved::{Load, Moved, OutputItems, Run, Values};
use fj_transfer::{EditChange, Layout, Transfer, TransferSpec, print_explicit, print_records};
use fj_value::{Cell, Condition, Delim, EditModes, Items, Kind, Place, Tag, Text, Value};
use std::alloc::{AllocError, Global};

/// An item of a table.
#[derive(Clone, Copy)]
pub enum Item {
    I4(i32),
    I8(i64),
    L(bool),
    A(&'static [u8]),
}

use Item::{A, I4, I8, L};

pub const MODES: EditModes = EditModes {
    blank_zero: false,
    comma: false,
    delim: Delim::Plain,
    pad: true,
    plus: false,
};

const NO_CHANGE: EditChange = EditChange {
    blank_zero: None,
    comma: None,
    delim: None,
    pad: None,
    plus: None,
};

fn text_cell(alloc: Global, place: Place, bytes: &[u8]) -> Result<Cell, AllocError>
    ensures { IfOk result (λ cell. cell.place ≡ place) }
{
    let bytes = &bytes[..bytes.len().min(100)];
    let text = Text::from_bytes(alloc, bytes)?;
    Ok(Cell {
        place,
        kind: Kind::Chars(bytes.len() as u32),
        value: Value::of_text(text)?,
    })
}

fn cell_of(alloc: Global, place: Place, item: Item) -> Result<Cell, AllocError>
    ensures { IfOk result (λ cell. cell.place ≡ place) }
{
    match item {
        I4(n) => Ok(Cell {
            place,
            kind: Kind::Int4,
            value: Value::Int(i64::from(n)),
        }),
        I8(n) => Ok(Cell {
            place,
            kind: Kind::Int8,
            value: Value::Int(n),
        }),
        L(truth) => Ok(Cell {
            place,
            kind: Kind::Logical,
            value: Value::Log(truth),
        }),
        A(text) => text_cell(alloc, place, text),
    }
}

/// The cells of items, and so many items of each in turn.
pub fn moved(alloc: Global, items: &[Item], times: u32) -> Result<Moved, AllocError>
    requires { length items.now < 1000 }
    ensures cells { IfOk result (λ moved. length moved.cells ≡ length items.now) }
    ensures distinct { IfOk result (λ moved. AreDistinct moved.cells) }
    ensures ordered { IfOk result (λ moved. IsOrdered moved) }
{
    let mut cells = Items::new(alloc);
    let mut order = Items::new(alloc);
    for (at, item) in items.iter().enumerate() {
        let place = Place {
            var: 0,
            index: at as u32 + 1,
        };
        cells.push(cell_of(alloc, place, *item)?)?;
        for _ in 0..times {
            order.push(at as u32)?;
        }
    }
    Ok(Moved { cells, order })
}

/// A format; what is none, as `*`, stands for a list-directed output.
fn layout_of(alloc: Global, format: &[u8]) -> Layout
    requires { length format.now < 2 ^ 32 }
    ensures records { IsRecords result }
    ensures alone { members_of result ≡ [] }
{
    match parse(alloc, format) {
        Ok(format) => Layout::Explicit(format),
        Err(_) => Layout::Listed,
    }
}

fn transfer(layout: Layout, moved: Moved, advance: bool, edit: EditChange) -> Transfer
    requires records { IsRecords layout }
    requires grouped { All (IsWithin (length moved.cells)) (members_of layout) }
    requires distinct { AreDistinct moved.cells }
    requires ordered { IsOrdered moved }
    requires few { length moved.order < 2 ^ 32 }
    ensures { IsRecords result.spec.layout }
{
    Transfer {
        stmt: 1,
        tag: Tag(0),
        spec: TransferSpec {
            input: false,
            layout,
            advance,
            rec: None,
            pos: None,
            edit,
        },
        moved: Load::of_cells(moved),
        size: None,
        count: None,
    }
}

/// Format, items, begun characters and the limit of a record, and what is written or the error.
type Row = (
    &'static str,
    &'static [Item],
    u32,
    u32,
    Result<&'static [u8], u8>,
);

/// With ADVANCE='YES'.
static ROWS: [Row; 32] = [
    // Reversion, groups, the colon and slashes.
    (
        "(I3,2(1X,I2))",
        &[I4(1), I4(2), I4(3), I4(4), I4(5), I4(6)],
        0,
        80,
        Ok(b"  1  2  3\n  4  5\n  6\n"),
    ),
    (
        "(2(I1,/),:,A)",
        &[I4(1), I4(2), A(b"c"), I4(4)],
        0,
        80,
        Ok(b"1\n2\nc\n4\n\n"),
    ),
    ("('a',(I1),'b')", &[I4(1), I4(2)], 0, 80, Ok(b"a1b\n2b\n")),
    ("(//I1)", &[I4(7)], 0, 80, Ok(b"\n\n7\n")),
    ("()", &[], 0, 80, Ok(b"\n")),
    // Every descriptor and kind.
    (
        "(I2,I3)",
        &[I4(123), I8(9_000_000_000)],
        0,
        80,
        Ok(b"*****\n"),
    ),
    (
        "(B4,O4,Z4.2)",
        &[I4(5), I4(8), I4(10)],
        0,
        80,
        Ok(b" 101  10  0A\n"),
    ),
    ("(L3,L1)", &[L(false), L(true)], 0, 80, Ok(b"  FT\n")),
    (
        "(A,A2,A5)",
        &[A(b"abc"), A(b"abc"), A(b"abc")],
        0,
        80,
        Ok(b"abcab  abc\n"),
    ),
    (
        "(G4.1,G3.1E2,G2.1,G3.1)",
        &[I4(42), A(b"ab"), L(true), I8(-1)],
        0,
        80,
        Ok(b"  42 ab T -1\n"),
    ),
    // Modes hold to the end of the statement, over reversion too.
    (
        "(SP,I3,SS,I3,SP,I3,S,I3)",
        &[I4(1), I4(2), I4(3), I4(4)],
        0,
        80,
        Ok(b" +1  2 +3  4\n"),
    ),
    (
        "(I3,SP)",
        &[I4(1), I4(2), I4(-3)],
        0,
        80,
        Ok(b"  1\n +2\n -3\n"),
    ),
    // Tabs.
    ("(T4,A,T1,A)", &[A(b"CD"), A(b"AB")], 0, 80, Ok(b"AB CD\n")),
    ("('abcd',TL9,'X')", &[], 0, 80, Ok(b"Xbcd\n")),
    ("(3X)", &[], 0, 1, Ok(b"\n")),
    ("('ab',3X)", &[], 0, 2, Ok(b"ab\n")),
    // Error 15: a text takes a record past its limit.
    ("('abc')", &[], 0, 3, Ok(b"abc\n")),
    ("('ab',TL1,'cd')", &[], 0, 2, Err(15)),
    ("('ab'/'abc')", &[], 0, 2, Err(15)),
    // The characters that the record had count, and those of a later record not.
    ("(2X,'a')", &[], 2, 5, Ok(b"  a\n")),
    ("(2X,'a')", &[], 3, 5, Err(15)),
    ("(I2/I5)", &[I4(1), I4(2)], 3, 5, Ok(b" 1\n    2\n")),
    // Integers in a row: asterisks, a position that is not at the end, and a row that the record has no room for.
    (
        "(4I3)",
        &[I4(1), I4(-22), I8(333), I4(4444)],
        0,
        12,
        Ok(b"  1-22333***\n"),
    ),
    ("(I3,T1,2I2)", &[I4(1), I4(2), I4(3)], 0, 80, Ok(b" 2 3\n")),
    ("(4I3)", &[I4(1), I4(2), I4(3), I4(4)], 0, 11, Err(15)),
    ("(3I3)", &[I4(1), I4(2), A(b"x")], 0, 5, Err(15)),
    ("(3I3)", &[I4(1), I4(2), A(b"x")], 0, 6, Err(12)),
    // Error 12: the descriptor is not for the item.
    ("(I3)", &[A(b"abc")], 0, 80, Err(12)),
    ("(A2,I9)", &[A(b"a"), A(b"b")], 0, 1, Err(15)),
    ("(I1,A9)", &[A(b"a"), A(b"b")], 0, 1, Err(12)),
    // Error 11: no data descriptor for the items that are left.
    ("(I1,(1X))", &[I4(1), I4(2)], 0, 80, Err(11)),
    ("(I1/('abc'))", &[I4(1), I4(2)], 0, 2, Err(15)),
];

/// List-directed, as `*`.
static LISTED: [Row; 7] = [
    ("*", &[], 0, 80, Ok(b" \n")),
    (
        "*",
        &[L(true), I8(9_000_000_000), L(false)],
        0,
        80,
        Ok(b" T 9000000000 F\n"),
    ),
    (
        "*",
        &[A(b"ab"), A(b"cd"), I4(3), A(b"x"), A(b""), A(b"y")],
        0,
        80,
        Ok(b" abcd 3 xy\n"),
    ),
    (
        "*",
        &[
            I4(123_456_789),
            I4(123_456_789),
            I4(123_456_789),
            I4(123_456_789),
            I4(123_456_789),
            I4(123_456_789),
            I4(123_456_789),
            I4(123_456_789),
            I4(123_456_789),
        ],
        0,
        80,
        Ok(
            b" 123456789 123456789 123456789 123456789 123456789 123456789 123456789 123456789\n 123456789\n",
        ),
    ),
    (
        "*",
        &[
            A(
                b"a-value-of-ninety-characters-.............................................................",
            ),
            I4(7),
        ],
        0,
        91,
        Ok(
            b" a-value-of-ninety-characters-.............................................................\n 7\n",
        ),
    ),
    ("*", &[I4(1)], 3, 5, Ok(b" 1\n")),
    ("*", &[I4(1)], 4, 5, Err(15)),
];

/// With ADVANCE='NO': the last record stays open.
static OPEN: [Row; 4] = [
    ("(I3)", &[I4(1), I4(2)], 0, 80, Ok(b"  1\n  2")),
    ("(I1/)", &[I4(7)], 0, 80, Ok(b"7\n")),
    ("()", &[], 0, 80, Ok(b"")),
    ("(3X,'ab')", &[], 3, 7, Err(15)),
];

/// What a transfer adds to an output that has `=` already.
fn added(
    alloc: Global,
    job: &Transfer,
    plus: bool,
    recl: u32,
    begun: u32,
) -> Result<(Condition, Text), AllocError>
    requires { IsRecords job.now.spec.layout }
{
    let mut out = Text::from_bytes(alloc, b"=")?;
    let condition = print_records(
        alloc,
        job,
        EditModes { plus, ..MODES },
        recl,
        begun,
        &mut out,
    )?;
    Ok((condition, out))
}

/// Whether a condition and the bytes then are what is wanted.
fn is_added(condition: Condition, out: &[u8], want: Result<&[u8], u8>) -> bool {
    match (want, out) {
        (Ok(text), [b'=', added @ ..]) => condition == Condition::Fine && added == text,
        (Err(error), bytes) => condition == Condition::Error(error) && bytes == b"=".as_slice(),
        (Ok(_), _) => false,
    }
}

/// An output under a format, or `*`, of so many of each item.
fn output(
    alloc: Global,
    format: &str,
    items: &[Item],
    times: u32,
    advance: bool,
    edit: EditChange,
) -> Result<Transfer, AllocError>
    ensures { IfOk result (λ job. IsRecords job.spec.layout) }
{
    if format.len() >= 100 || items.len() >= 100 {
        return Err(AllocError);
    }
    let items = moved(alloc, items, times)?;
    if items.order.len() >= 1000 {
        return Err(AllocError);
    }
    let layout = layout_of(alloc, format.as_bytes());
    Ok(transfer(layout, items, advance, edit))
}

/// How an output is written: so many of each item, under ADVANCE=, the modes of the statement and the sign mode of the
/// connection, to a record that has so many characters and may have so many.
#[derive(Clone, Copy)]
struct Way {
    times: u32,
    advance: bool,
    edit: EditChange,
    plus: bool,
    begun: u32,
    recl: u32,
}

const WAY: Way = Way {
    times: 1,
    advance: true,
    edit: NO_CHANGE,
    plus: false,
    begun: 0,
    recl: 80,
};

/// What an output adds to `=`.
fn printed(
    alloc: Global,
    format: &str,
    items: &[Item],
    way: &Way,
) -> Result<(Condition, Text), AllocError> {
    let job = output(alloc, format, items, way.times, way.advance, way.edit)?;
    let came = added(alloc, &job, way.plus, way.recl, way.begun);
    drop(job);
    came
}

/// Whether an output comes to what is wanted.
fn prints(
    alloc: Global,
    format: &str,
    items: &[Item],
    way: &Way,
    want: Result<&[u8], u8>,
) -> Result<bool, AllocError> {
    let (condition, out) = printed(alloc, format, items, way)?;
    Ok(is_added(condition, out.bytes(), want))
}

/// Whether a row holds.
fn writes(alloc: Global, advance: bool, row: &Row) -> Result<bool, AllocError> {
    let (format, items, begun, recl, want) = *row;
    let way = Way {
        advance,
        begun,
        recl,
        ..WAY
    };
    prints(alloc, format, items, &way, want)
}

#[test]
fn records(rt: HostRuntime) {
    for (number, row) in ROWS.iter().enumerate() {
        assert!(rt; writes(rt.alloc(), true, row) == Ok(true), "row {number}");
    }
}

#[test]
fn open_records(rt: HostRuntime) {
    for (number, row) in OPEN.iter().enumerate() {
        assert!(rt; writes(rt.alloc(), false, row) == Ok(true), "row {number}");
    }
}

#[test]
fn listed_records(rt: HostRuntime) {
    for (number, row) in LISTED.iter().enumerate() {
        assert!(rt; writes(rt.alloc(), false, row) == Ok(true), "row {number}");
    }
}

/// A format, the sign mode of the connection and that of the statement, and what is written.
type Signed = (&'static str, bool, Option<bool>, &'static [u8]);

static SIGNED: [Signed; 4] = [
    ("(I3,I3)", true, Some(false), b"  1  2\n"),
    ("(I3,I3)", false, Some(true), b" +1 +2\n"),
    ("(I3,S,I3)", true, None, b" +1  2\n"),
    ("*", true, Some(false), b" 1 2\n"),
];

/// Whether a row holds.
fn signs(alloc: Global, row: &Signed) -> Result<bool, AllocError> {
    let (format, plus, change, want) = *row;
    let edit = EditChange {
        plus: change,
        ..NO_CHANGE
    };
    let way = Way { edit, plus, ..WAY };
    prints(alloc, format, &[I4(1), I4(2)], &way, Ok(want))
}

/// Whether DELIM= of the statement holds.
fn delimits(alloc: Global) -> Result<bool, AllocError> {
    let edit = EditChange {
        delim: Some(Delim::Quote),
        ..NO_CHANGE
    };
    let items = [A(b"a\"b"), A(b"'")];
    let want = b" \"a\"\"b\" \"'\"\n";
    prints(alloc, "*", &items, &Way { edit, ..WAY }, Ok(want))
}

/// The modes of the connection, those that the statement names, and those of the format.
#[test]
fn modes(rt: HostRuntime) {
    for (number, row) in SIGNED.iter().enumerate() {
        assert!(rt; signs(rt.alloc(), row) == Ok(true), "row {number}");
    }
    assert!(rt; delimits(rt.alloc()) == Ok(true));
}

/// A format, how many items of one character, ADVANCE=, the limit of a record, and the condition and how many bytes are written.
type Limit = (&'static str, u32, bool, u32, Condition, usize);

static LIMITS: [Limit; 4] = [
    ("(A65535)", 256, true, 65_536, Condition::Fine, 16_777_216),
    ("(A65535)", 257, true, 65_536, Condition::Error(26), 0),
    ("(A65535)", 256, false, 65_536, Condition::Fine, 16_777_215),
    (
        "(255(A65535/),A65535,'y')",
        256,
        true,
        65_536,
        Condition::Error(26),
        0,
    ),
];

/// Whether a row holds.
fn is_limit(alloc: Global, row: &Limit) -> Result<bool, AllocError> {
    let (format, times, advance, recl, condition, bytes) = *row;
    let way = Way {
        times,
        advance,
        recl,
        ..WAY
    };
    let (told, out) = printed(alloc, format, &[A(b"x")], &way)?;
    Ok(told == condition && out.len().checked_sub(1) == Some(bytes))
}

/// Records of 65,536 bytes with their line feeds, of which 256 are the most that a statement may write.
#[test]
fn limits(rt: HostRuntime) {
    for (number, row) in LIMITS.iter().enumerate() {
        assert!(rt; is_limit(rt.alloc(), row) == Ok(true), "row {number}");
    }
}

/// A namelist group of two.
fn group_of_two(alloc: Global) -> Result<Transfer, AllocError>
    ensures { IfOk result (λ job. IsRecords job.spec.layout) }
{
    let name = Text::from_bytes(alloc, b"g")?;
    let items = moved(alloc, &[I4(5), I4(-7)], 1)?;
    if items.order.len() >= 1000 {
        return Err(AllocError);
    }
    let layout = Layout::Group(name, members(alloc)?);
    Ok(transfer(layout, items, true, NO_CHANGE))
}

/// Whether it comes to what is wanted in records of at most so many characters.
fn prints_group(alloc: Global, recl: u32, want: Result<&[u8], u8>) -> Result<bool, AllocError> {
    let job = group_of_two(alloc)?;
    let came = added(alloc, &job, false, recl, 0);
    drop(job);
    let (condition, out) = came?;
    Ok(is_added(condition, out.bytes(), want))
}

#[test]
fn group(rt: HostRuntime) {
    assert!(rt; prints_group(rt.alloc(), 80, Ok(b" &G\n A=5\n B=-7\n /\n")) == Ok(true));
    assert!(rt; prints_group(rt.alloc(), 4, Err(15)) == Ok(true));
}

/// Whether values that are borrowed in runs come to what is wanted.
fn prints_runs(alloc: Global) -> Result<bool, AllocError> {
    let Ok(format) = parse(alloc, b"(3I3,L2)") else {
        return Ok(false);
    };
    let mut out = Text::from_bytes(alloc, b"=")?;
    let numbers = [Value::Int(1), Value::Int(-2), Value::Int(3)];
    let truth = Value::Log(true);
    let runs = [
        Run {
            kind: Kind::Int4,
            values: Values::Many(&numbers),
        },
        Run {
            kind: Kind::Logical,
            values: Values::One(&truth),
        },
    ];
    let items = OutputItems::of_runs(&runs);
    let condition = print_explicit(&format, true, MODES, items, 80, 0, &mut out);
    drop(truth);
    drop(numbers);
    drop(format);
    Ok(is_added(condition?, out.bytes(), Ok(b"  1 -2  3 T\n")))
}

#[test]
fn runs(rt: HostRuntime) {
    assert!(rt; prints_runs(rt.alloc()) == Ok(true));
}
