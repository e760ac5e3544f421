// Tables of namelist text.
ghost use Rattle.std.specs.Prelude.{◌≡◌, true, All, length};
ghost use Rattle.fj_namelist.specs.GroupText.{IsWithin};

use crate::given::{initial, kind_of, records_of};
use fj_list::MemoryRecords;
use fj_moved::{Cells, GroupMember, Moved, Order};
use fj_namelist::{read_group, write_group};
use fj_value::{Cell, Delim, EditModes, Items, Kind, Place, Text, Value};
use std::alloc::{AllocError, Global};
use std::slice;
use std::test::*;

/// Records parted by line feeds; whether DECIMAL='COMMA'; what the members have afterwards; the number of the condition;
/// how many records were looked at.
type Input = (&'static str, bool, &'static str, i32, usize);

/// The members of the group G: INTEGER A, B(3), LOGICAL L, CHARACTER(4) C, CHARACTER(2) D(2).
static MEMBERS: [(&str, u8, u32, u32, bool); 5] = [
    ("A", b'i', 0, 1, true),
    ("B", b'i', 1, 3, false),
    ("L", b'l', 4, 1, true),
    ("C", b'4', 5, 1, true),
    ("D", b'2', 6, 2, false),
];

/// Before, integers have 1, truth values F and characters `#`.
static INPUTS: [Input; 87] = [
    ("&G A=5 /", false, "5|1|1|1|F|####|##|##", 0, 1),
    ("&g a=5, b=2*7 /", false, "5|7|7|1|F|####|##|##", 0, 1),
    (
        "\n  ! c/d\n\t&G\n A = 5\n/\nrest",
        false,
        "5|1|1|1|F|####|##|##",
        0,
        5,
    ),
    (" &G B=1,2*3 /", false, "1|1|3|3|F|####|##|##", 0, 1),
    ("&G B(2)=7 8 /", false, "1|1|7|8|F|####|##|##", 0, 1),
    ("&G B(2) = 7,,A=3 /", false, "3|1|7|1|F|####|##|##", 0, 1),
    ("&G A=1,,L=T /", false, "", 23, 1),
    ("&G A=,L=T /", false, "1|1|1|1|T|####|##|##", 0, 1),
    ("&G L=T=5 /", false, "", 23, 1),
    ("&G A=5 B=3 /", false, "5|3|1|1|F|####|##|##", 0, 1),
    ("&G A=5B=3 /", false, "", 23, 1),
    ("&G A=5;L=T /", false, "", 23, 1),
    ("&G A=5;L=T /", true, "5|1|1|1|T|####|##|##", 0, 1),
    (
        "&G C='it''s' D='a','b' /",
        false,
        "1|1|1|1|F|it's|a |b ",
        0,
        1,
    ),
    ("&G C='ab\ncd' /", false, "1|1|1|1|F|abcd|##|##", 0, 2),
    ("&G C=abc /", false, "", 13, 1),
    ("&G D=2*'x/y' /", false, "1|1|1|1|F|####|x/|x/", 0, 1),
    (
        "&G A=5 ! note /\n L=T /\nrest",
        false,
        "5|1|1|1|T|####|##|##",
        0,
        2,
    ),
    ("&G A=5!x /", false, "", 13, 1),
    ("&G A=!x\n 5 /", false, "", 13, 2),
    ("&G A= !x\n 5 /", false, "5|1|1|1|F|####|##|##", 0, 2),
    ("&H A=5 /\nrest", false, "", 22, 1),
    ("&G/", false, "", 22, 1),
    ("&G,A=5 /", false, "", 22, 1),
    ("&G!", false, "", 22, 1),
    ("& G A=5 /", false, "", 22, 1),
    ("A=5\n&G A=5 /", false, "", 22, 1),
    ("&G /", false, "1|1|1|1|F|####|##|##", 0, 1),
    ("&G ,A=1 /", false, "", 24, 1),
    ("&G A 5 /", false, "", 24, 1),
    ("&G A(X)=1 /", false, "", 24, 1),
    ("&G A()=1 /", false, "", 24, 1),
    ("&G =5 /", false, "", 24, 1),
    ("&G 'a' /", false, "", 24, 1),
    ("&G X=5 /", false, "", 23, 1),
    ("&G A(1)=5 /", false, "", 23, 1),
    ("&G B(0)=5 /", false, "", 23, 1),
    ("&G B(4)=1 /", false, "", 23, 1),
    ("&G B(99999999999999999999)=1 /", false, "", 23, 1),
    ("&G A==5 /", false, "", 13, 1),
    ("&G A=1 =5 /", false, "", 23, 1),
    ("&G A=x /", false, "", 13, 1),
    ("&G A=2147483648 /", false, "", 14, 1),
    ("&G A=0*5 /", false, "", 13, 1),
    ("&G A=1 0*2 /", false, "", 13, 1),
    ("&G B=3*/", false, "1|1|1|1|F|####|##|##", 0, 1),
    ("&G B=2* 5/", false, "1|1|1|5|F|####|##|##", 0, 1),
    ("&G B=4*1 /", false, "", 23, 1),
    ("&G B=4*/", false, "", 23, 1),
    ("&G A=5\n", false, "", -1, 1),
    ("&G A=5\n\n", false, "", -1, 2),
    ("", false, "", -1, 0),
    ("\n!x", false, "", -1, 2),
    ("&G C='abc", false, "", -1, 1),
    ("&G L='T' /", false, "", 13, 1),
    ("&G A='5' /", false, "", 13, 1),
    ("&G B (2)=7 /", false, "1|1|7|1|F|####|##|##", 0, 1),
    ("&G B\n(2)\n=7 /", false, "1|1|7|1|F|####|##|##", 0, 3),
    ("&G C='a'b /", false, "", 13, 1),
    ("&G C='a'! /", false, "", 13, 1),
    ("&G A=1 A=2 /", false, "2|1|1|1|F|####|##|##", 0, 1),
    ("&G A=7 / B=3", false, "7|1|1|1|F|####|##|##", 0, 1),
    ("&G B=1 2 3 4 /", false, "", 23, 1),
    ("&G A=1 'x' /", false, "", 23, 1),
    ("&G A=1 'x", false, "", -1, 1),
    ("&G C(1)='a' /", false, "", 23, 1),
    ("&G A = /", false, "1|1|1|1|F|####|##|##", 0, 1),
    ("&G L=.T. A=+5/", false, "5|1|1|1|T|####|##|##", 0, 1),
    ("&G L=T(x=5 /", false, "1|1|1|1|T|####|##|##", 0, 1),
    ("&G\tA\t=\t5\t/", false, "5|1|1|1|F|####|##|##", 0, 1),
    (
        "&G C='a\tb' D=\"x\"\"\" /",
        false,
        "1|1|1|1|F|a\tb |x\"|##",
        0,
        1,
    ),
    ("&G B=1;,2 /", true, "", 13, 1),
    ("&G B=1;;2 /", true, "1|1|1|2|F|####|##|##", 0, 1),
    ("&G B=1,\n,\n2 /", false, "1|1|1|2|F|####|##|##", 0, 3),
    ("&G A=5 B(2)=7 /", false, "5|1|7|1|F|####|##|##", 0, 1),
    ("&G A=5 B (2) = 7 /", false, "5|1|7|1|F|####|##|##", 0, 1),
    (
        "&G A=5,!x\n!y\n B=1,!z\n2 /",
        false,
        "5|1|2|1|F|####|##|##",
        0,
        4,
    ),
    ("&G C='a!b' /", false, "1|1|1|1|F|a!b |##|##", 0, 1),
    ("&G C='a'\nL=T /", false, "1|1|1|1|T|a   |##|##", 0, 2),
    ("&G C='ab'\n'cd' /", false, "", 23, 2),
    ("&G C='a''\n''b' /", false, "1|1|1|1|F|a''b|##|##", 0, 2),
    ("&G L=.false./", false, "1|1|1|1|F|####|##|##", 0, 1),
    ("&G A=4294967296*5 /", false, "", 13, 1),
    ("&G B(2)=2*9 /", false, "1|1|9|9|F|####|##|##", 0, 1),
    ("&G D(2)='zz' /", false, "1|1|1|1|F|####|##|zz", 0, 1),
    ("&G C='abcdef' /", false, "1|1|1|1|F|abcd|##|##", 0, 1),
    ("&G B=1 2", false, "", -1, 1),
];

fn modes(comma: bool, delim: Delim) -> EditModes {
    EditModes {
        blank_zero: false,
        comma,
        delim,
        pad: true,
        plus: false,
    }
}

fn members_of(alloc: Global) -> Result<Items<GroupMember>, AllocError> {
    let mut members = Items::new(alloc);
    for (name, letter, first, count, scalar) in MEMBERS.iter() {
        members.push(GroupMember {
            name: Text::from_bytes(alloc, name.as_bytes())?,
            kind: kind_of(*letter),
            first: *first,
            count: *count,
            scalar: *scalar,
        })?;
    }
    Ok(members)
}

fn cells_of(alloc: Global) -> Result<Cells, AllocError> {
    let mut cells = Items::new(alloc);
    for (i, letter) in b"iiiil422".iter().enumerate() {
        let kind = kind_of(*letter);
        let var = u32::try_from(i).unwrap_or(0);
        let place = Place { var, index: 1 };
        let value = initial(alloc, kind)?;
        cells.push(Cell { place, kind, value })?;
    }
    Ok(cells)
}

fn push_shown(out: &mut Text, value: &Value, alloc: Global) -> Result<(), AllocError> {
    match value {
        Value::Int(n) => out.push_all(format!(in alloc; "{n}")?.as_bytes()),
        Value::Log(truth) => out.push_all(if *truth { b"T" } else { b"F" }),
        Value::Chars(text) => out.push_all(text.bytes()),
        Value::Undefined => out.push_all(b"?"),
    }
}

fn shown(alloc: Global, cells: &Cells) -> Result<Text, AllocError> {
    let mut out = Text::new(alloc);
    for cell in cells.as_slice() {
        if !out.is_empty() {
            out.push_all(b"|")?;
        }
        push_shown(&mut out, &cell.value, alloc)?;
    }
    Ok(out)
}

fn are_within(members: &[GroupMember], cells: usize) -> bool
    ensures { result ≡ true → All (IsWithin cells) members.now }
{
    members
        .iter()
        .all(|m| m.first as usize + m.count as usize <= cells)
}

/// Reads a group whose members are within the cells, and answers the number of the condition; nothing where they are not.
fn read_into(
    alloc: Global,
    records: &mut MemoryRecords,
    members: &[GroupMember],
    moved: &mut Moved,
    comma: bool,
) -> Option<i32> {
    if !are_within(members, moved.cells.len()) {
        return None;
    }
    let modes = modes(comma, Delim::Plain);
    match read_group(alloc, records, b"G", members, moved, modes) {
        Ok(condition) => Some(condition.code()),
        Err(_) => None,
    }
}

/// Whether the values are shown so; any are where nothing is expected.
fn shows(alloc: Global, cells: &Cells, expected: &str) -> bool {
    match shown(alloc, cells) {
        Ok(values) => expected.is_empty() || values.bytes() == expected.as_bytes(),
        Err(_) => false,
    }
}

/// The number of the condition, how many records were looked at, and whether the values are those that are expected.
type Came = (Option<i32>, usize, bool);

/// What reading from a text comes to.
fn come(alloc: Global, records: MemoryRecords, moved: Moved, comma: bool, expected: &str) -> Came {
    let mut records = records;
    let mut moved = moved;
    let code = match members_of(alloc) {
        Ok(members) => read_into(alloc, &mut records, members.as_slice(), &mut moved, comma),
        Err(_) => None,
    };
    (
        code,
        records.looked_at,
        shows(alloc, &moved.cells, expected),
    )
}

fn reads(alloc: Global, text: &str, comma: bool, expected: &str) -> Result<Came, AllocError> {
    let records = records_of(alloc, text)?;
    match cells_of(alloc) {
        Ok(cells) => {
            let order = Order::new(alloc);
            let moved = Moved { cells, order };
            Ok(come(alloc, records, moved, comma, expected))
        }
        Err(error) => Err(error),
    }
}

#[test]
fn inputs(rt: HostRuntime) {
    for (text, comma, expected, code, looked_at) in INPUTS.iter() {
        let due = (Some(*code), *looked_at, true);
        assert_eq!(rt;
            reads(rt.alloc(), text, *comma, expected),
            Ok(due),
            "{text}"
        );
    }
}

/// Whether a group whose members are within the cells is written so.
fn writes(
    alloc: Global,
    members: &[GroupMember],
    cells: &[Cell],
    modes: EditModes,
    expected: &[u8],
) -> bool {
    if !are_within(members, cells.len()) {
        return false;
    }
    match write_group(alloc, b"g", members, cells, modes) {
        Ok(text) => text.bytes() == expected,
        Err(_) => false,
    }
}

/// Whether the group G is written so.
fn writes_all(alloc: Global, modes: EditModes, expected: &[u8]) -> Result<bool, AllocError> {
    let members = members_of(alloc)?;
    match cells_of(alloc) {
        Ok(cells) => Ok(writes(alloc, members.as_slice(), cells.as_slice(), modes, expected)),
        Err(error) => Err(error),
    }
}

static PLAIN: &[u8] = b" &G\n A=1\n B=1,1,1\n L=F\n C=####\n D=##,##\n /\n";

static MARKED: &[u8] = b" &G\n A=1\n B=1;1;1\n L=F\n C=\"####\"\n D=\"##\";\"##\"\n /\n";

#[test]
fn outputs(rt: HostRuntime) {
    let plain = modes(false, Delim::Plain);
    assert_eq!(rt; writes_all(rt.alloc(), plain, PLAIN), Ok(true));
    let marked = modes(true, Delim::Quote);
    assert_eq!(rt; writes_all(rt.alloc(), marked, MARKED), Ok(true));
}

/// One member of characters without delimiters: their length, how many there are, and the records. With the second value
/// the record has 80 characters, and its separator stands in column 81; a value that is longer has a record of its own.
static WIDE: [(u32, u32, &str); 3] = [
    (
        38,
        3,
        " &G\n V=######################################,######################################,\n ######################################\n /\n",
    ),
    (
        39,
        2,
        " &G\n V=#######################################,\n #######################################\n /\n",
    ),
    (
        79,
        2,
        " &G\n V=###############################################################################,\n ###############################################################################\n /\n",
    ),
];

/// So many cells of a kind.
fn wide_cells(alloc: Global, kind: Kind, count: u32) -> Result<Cells, AllocError> {
    let mut cells = Items::new(alloc);
    for i in 0..count {
        let place = Place { var: i, index: 1 };
        let value = initial(alloc, kind)?;
        cells.push(Cell { place, kind, value })?;
    }
    Ok(cells)
}

/// The member that has them all.
fn wide_member(alloc: Global, kind: Kind, count: u32) -> Result<GroupMember, AllocError> {
    Ok(GroupMember {
        name: Text::from_bytes(alloc, b"v")?,
        kind,
        first: 0,
        count,
        scalar: false,
    })
}

/// Whether so many characters of a length are written so.
fn writes_wide(alloc: Global, length: u32, count: u32, expected: &str) -> Result<bool, AllocError> {
    let kind = Kind::Chars(length);
    let member = wide_member(alloc, kind, count)?;
    match wide_cells(alloc, kind, count) {
        Ok(cells) => Ok(writes(
            alloc,
            slice::from_ref(&member),
            cells.as_slice(),
            modes(false, Delim::Plain),
            expected.as_bytes(),
        )),
        Err(error) => Err(error),
    }
}

#[test]
fn wide_outputs(rt: HostRuntime) {
    for (length, count, expected) in WIDE.iter() {
        let written = writes_wide(rt.alloc(), *length, *count, expected);
        assert_eq!(rt; written, Ok(true), "{count} of {length}");
    }
}
