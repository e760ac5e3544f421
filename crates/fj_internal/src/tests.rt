// Statements on internal files of two elements, and of one, with what they leave written out by hand.
ghost use Rattle.std.specs.Prelude.{◌≡◌, ◌<◌, ◌≤◌, ◌^◌, [], None, length, All, IfOk};
ghost use Rattle.fj_moved.specs.Moved.{AreDistinct, IsOrdered};
ghost use Rattle.fj_namelist.specs.GroupText.{IsWithin};
ghost use Rattle.fj_transfer.specs.Moving.{members_of};
ghost use Rattle.fj_transfer.specs.Printing.{IsOfItems, IsRecords};

use crate::{One, read_internal, read_one, write_internal, write_one};
use Condition::{EndOfFile, Error, Fine};
use fj_format::parse;
use fj_moved::{Cells, Load, Moved};
use fj_transfer::{EditChange, Layout, Transfer, TransferSpec};
use fj_value::{Cell, Condition, Items, Kind, Place, Tag, Text, Value};
use std::alloc::{AllocError, Global};

fn element(alloc: Global, index: u32, text: &[u8]) -> Result<Cell, AllocError> {
    let text = Text::from_bytes(alloc, &text[..text.len().min(100)])?;
    Ok(Cell {
        place: Place { var: 1, index },
        kind: Kind::Chars(text.len() as u32),
        value: Value::of_text(text)?,
    })
}

fn elements(alloc: Global, texts: [&[u8]; 2]) -> Result<Cells, AllocError> {
    let [first, second] = texts;
    let mut cells = Items::new(alloc);
    cells.push(element(alloc, 1, first)?)?;
    cells.push(element(alloc, 2, second)?)?;
    Ok(cells)
}

/// `*`, or a format.
fn layout(alloc: Global, format: &[u8]) -> Result<Layout, AllocError>
    ensures items { IfOk result (λ layout. IsOfItems layout) }
    ensures records { IfOk result (λ layout. IsRecords layout) }
    ensures none { IfOk result (λ layout. members_of layout ≡ []) }
{
    if format.len() > 100 {
        return Ok(Layout::Listed);
    }
    match parse(alloc, format) {
        Ok(format) => Ok(Layout::Explicit(format)),
        Err(_) => Ok(Layout::Listed),
    }
}

/// One item.
fn moved(alloc: Global, number: i32) -> Result<Moved, AllocError>
    ensures distinct { IfOk result (λ moved. AreDistinct moved.cells) }
    ensures ordered { IfOk result (λ moved. IsOrdered moved) }
    ensures few { IfOk result (λ moved. length moved.order ≤ 1) }
{
    let mut cells = Items::new(alloc);
    cells.push(Cell {
        place: Place { var: 0, index: 1 },
        kind: Kind::Int4,
        value: Value::Int(i64::from(number)),
    })?;
    let mut order = Items::new(alloc);
    order.push(0)?;
    Ok(Moved { cells, order })
}

fn transfer(alloc: Global, input: bool, format: &[u8], number: i32) -> Result<Transfer, AllocError>
    ensures input { IfOk result (λ job. job.spec.input ≡ input) }
    ensures rec { IfOk result (λ job. job.spec.rec ≡ None) }
    ensures pos { IfOk result (λ job. job.spec.pos ≡ None) }
    ensures items { IfOk result (λ job. IsOfItems job.spec.layout) }
    ensures records { IfOk result (λ job. IsRecords job.spec.layout) }
{
    let layout = layout(alloc, format)?;
    let moved = moved(alloc, number)?;
    Ok(Transfer {
        stmt: 1,
        tag: Tag(0),
        spec: TransferSpec {
            input,
            layout,
            advance: true,
            rec: None,
            pos: None,
            edit: EditChange {
                blank_zero: None,
                comma: None,
                delim: None,
                pad: None,
                plus: None,
            },
        },
        moved: Load::of_cells(moved),
        size: None,
        count: None,
    })
}

fn has_text(cells: &Cells, at: usize, text: &[u8]) -> bool {
    match cells.get(at) {
        Some(cell) => match &cell.value {
            Value::Chars(chars) => chars.bytes() == text,
            Value::Undefined | Value::Int(_) | Value::Log(_) => false,
        },
        None => false,
    }
}

/// The number that the item has, if it has one.
fn item(job: &Transfer) -> Option<i64> {
    match job.moved.items().next() {
        Some(item) => match item.value {
            Value::Int(number) => Some(*number),
            Value::Undefined | Value::Log(_) | Value::Chars(_) => None,
        },
        None => None,
    }
}

/// The format and the number that are written, the elements before, the condition, and the elements then.
type Written = (
    (&'static [u8], i32),
    [&'static [u8]; 2],
    Condition,
    [&'static [u8]; 2],
);

static WRITES: [Written; 7] = [
    (
        (b"(I3)", 42),
        [b"zzzzz", b"zzzzz"],
        Fine,
        [b" 42  ", b"zzzzz"],
    ),
    ((b"(I1/)", 7), [b"zz", b"zz"], Fine, [b"7 ", b"  "]),
    ((b"(I1,'|'/'b')", 7), [b"zz", b"zz"], Fine, [b"7|", b"b "]),
    ((b"(I1//)", 7), [b"zz", b"zz"], Error(31), [b"zz", b"zz"]),
    ((b"(I3)", 5), [b"zz", b"zz"], Error(15), [b"zz", b"zz"]),
    ((b"(///A)", 5), [b"zz", b"zz"], Error(12), [b"zz", b"zz"]),
    ((b"*", 5), [b"zzzz", b"zzzz"], Fine, [b" 5  ", b"zzzz"]),
];

/// The format and the number that are written, the length of the one element, the condition, and its value then, where it gets one.
type WrittenOne = ((&'static [u8], i32), u32, Condition, Option<&'static [u8]>);

static ONES: [WrittenOne; 5] = [
    ((b"(I3)", 42), 5, Fine, Some(b" 42  ")),
    ((b"*", 5), 2, Fine, Some(b" 5")),
    ((b"(I1/)", 7), 2, Error(31), None),
    ((b"(I3)", 5), 2, Error(15), None),
    ((b"(///A)", 5), 2, Error(12), None),
];

/// The format that is read by, the elements, the condition and the number then, if there is one.
type Taken = (&'static [u8], [&'static [u8]; 2], Condition, Option<i64>);

static READS: [Taken; 7] = [
    (b"*", [b" 42  ", b"     "], Fine, Some(42)),
    (b"(/I1)", [b"7", b"8"], Fine, Some(8)),
    (b"(//I1)", [b"7", b"8"], EndOfFile, None),
    (b"*", [b" ", b" "], EndOfFile, None),
    (b"(I1)", [b"7", b"\n"], Error(32), None),
    (b"(A)", [b"\r", b"7"], Error(32), None),
    (b"(I2)", [b"7x", b"  "], Error(13), None),
];

/// The format that is read by, the characters of the one element, the condition and the number then, if there is one.
type TakenOne = (&'static [u8], &'static [u8], Condition, Option<i64>);

static ONE_READS: [TakenOne; 7] = [
    (b"*", b" 42  ", Fine, Some(42)),
    (b"(I1)", b"78", Fine, Some(7)),
    (b"(/I1)", b"7", EndOfFile, None),
    (b"*", b" ", EndOfFile, None),
    (b"(I1)", b"7\n", Error(32), None),
    (b"*", b"\r7", Error(32), None),
    (b"(I2)", b"7x", Error(13), None),
];

fn writes(alloc: Global, row: &Written) -> Result<bool, AllocError> {
    let ((format, number), before, condition, after) = *row;
    let mut cells = elements(alloc, before)?;
    let mut job = transfer(alloc, false, format, number)?;
    let told = write_internal(alloc, &mut cells, &mut job)?;
    let [first, second] = after;
    let are_left = has_text(&cells, 0, first) && has_text(&cells, 1, second);
    Ok(told == condition && are_left && item(&job) == Some(i64::from(number)))
}

fn writes_one(alloc: Global, row: &WrittenOne) -> Result<bool, AllocError> {
    let ((format, number), size, condition, text) = *row;
    let job = transfer(alloc, false, format, number)?;
    match write_one(alloc, size, &job.spec, job.moved.items())? {
        One::Put(Value::Chars(chars)) => Ok(condition == Fine && text == Some(chars.bytes())),
        One::Put(_) => Ok(false),
        One::Kept(told) => Ok(told == condition && text.is_none()),
    }
}

/// The number of the only cell, if it has one.
fn only(moved: &Moved) -> Option<i64> {
    match moved.cells.get(0) {
        Some(cell) => match cell.value {
            Value::Int(number) => Some(number),
            Value::Undefined | Value::Log(_) | Value::Chars(_) => None,
        },
        None => None,
    }
}

fn reads_one(alloc: Global, row: &TakenOne) -> Result<bool, AllocError> {
    let (format, text, condition, number) = *row;
    let job = transfer(alloc, true, format, 0)?;
    let mut cells = moved(alloc, 0)?;
    let performed = read_one(alloc, text, &job.spec, &mut cells)?;
    Ok(performed.condition == condition && only(&cells) == number)
}

fn reads(alloc: Global, row: &Taken) -> Result<bool, AllocError> {
    let (format, texts, condition, number) = *row;
    let cells = elements(alloc, texts)?;
    let mut job = transfer(alloc, true, format, 0)?;
    let told = read_internal(alloc, &cells, &mut job)?;
    Ok(told == condition && item(&job) == number)
}

#[test]
fn elements_are_written(rt: HostRuntime) {
    for (number, row) in WRITES.iter().enumerate() {
        assert!(rt; writes(rt.alloc(), row) == Ok(true), "row {number}");
    }
}

#[test]
fn one_element_is_written(rt: HostRuntime) {
    for (number, row) in ONES.iter().enumerate() {
        assert!(rt; writes_one(rt.alloc(), row) == Ok(true), "row {number}");
    }
}

#[test]
fn elements_are_read(rt: HostRuntime) {
    for (number, row) in READS.iter().enumerate() {
        assert!(rt; reads(rt.alloc(), row) == Ok(true), "row {number}");
    }
}

#[test]
fn one_element_is_read(rt: HostRuntime) {
    for (number, row) in ONE_READS.iter().enumerate() {
        assert!(rt; reads_one(rt.alloc(), row) == Ok(true), "row {number}");
    }
}
