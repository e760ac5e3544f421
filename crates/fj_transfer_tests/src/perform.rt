// Statements on files in memory, with the files, the positions and the values written out by hand.
ghost use Rattle.std.specs.Prelude.{◌≡◌, ◌≤◌, ◌<◌, ◌^◌, ◌↔◌, [], length, All, IfOk};
ghost use Rattle.std.specs.FinSet as set;
ghost use Rattle.fj_moved.specs.Moved.{AreDistinct, IsOrdered};
ghost use Rattle.fj_namelist.specs.GroupText.{IsWithin};
ghost use Rattle.fj_outside.specs.Holdings.{IsInUse};
ghost use Rattle.fj_transfer.specs.Moving.{members_of};

mod faults;
mod sizes;

use fj_connect::{Connection, OpenFault, open_file};
use fj_format::parse;
use fj_modes::{Access, Action, FileName, FileStatus, OpenSpec, settle_open};
use fj_moved::{GroupMember, Load, Moved};
use fj_outside::{Disk, FileStore, MemoryDisk, Stop};
use fj_perform::perform;
use fj_transfer::{EditChange, Layout, Members, Transfer, TransferSpec};
use fj_value::{Cell, Condition, Items, Kind, Place, Tag, Text, Value};
use std::alloc::{AllocError, Global};

pub(crate) const NAME: &str = "fort.10";

/// How values are laid out.
#[derive(Clone, Copy)]
enum Form {
    Stored,
    Format(&'static [u8]),
    Listed,
    /// The group G, whose variable is A.
    Group,
}

/// Which statement it is.
#[derive(Clone, Copy, PartialEq)]
enum Verb {
    Output,
    /// With ADVANCE='NO'.
    OpenOutput,
    Input,
    /// With ADVANCE='NO'.
    OpenInput,
    /// With PAD='NO'.
    BareInput,
}

/// A READ or WRITE of one item of type CHARACTER: with the number of REC= in direct access, else with that of POS=.
type Said = (Verb, Form, Option<i64>, &'static [u8]);

/// How a file is opened that is there: its access, FORM='FORMATTED', ACTION=, and RECL= where the access has records.
#[derive(Clone, Copy)]
pub(crate) struct Opening {
    pub(crate) access: Access,
    pub(crate) formatted: bool,
    pub(crate) action: Option<Action>,
    pub(crate) recl: u32,
}

fn statement(opening: &Opening) -> OpenSpec {
    let mut spec = OpenSpec::default();
    spec.status = Some(FileStatus::Old);
    spec.access = Some(opening.access);
    spec.formatted = Some(opening.formatted);
    spec.action = opening.action;
    if opening.access != Access::Stream {
        spec.recl = Some(opening.recl);
    }
    spec
}

/// Connects to the file of unit 10, on a disk of which no file is out.
#[tactic(auto, using(fj_outside::proofs::HoldingLaws::free_of_empty))]
pub(crate) fn connect<D: Disk>(
    alloc: Global,
    disk: &mut D,
    opening: &Opening,
) -> Result<Connection<D::File>, OpenFault>
    requires { D.tells disk.old → (D.held disk.old).in_use ≡ set.empty }
    ensures telling { D.tells disk.old ↔ D.tells disk.new }
    ensures used { D.tells disk.old → IfOk result (λ c. IsInUse (D.held disk.new) c.name) }
{
    let name = FileName::by_default(alloc, 10)?;
    let spec = statement(opening);
    let opened = match settle_open(&spec) {
        Ok(modes) => open_file(alloc, disk, &name, &spec, modes),
        Err(condition) => Err(OpenFault::Refused(condition)),
    };
    drop(spec);
    drop(name);
    opened
}

/// A disk that holds that file with these bytes.
#[tactic(auto, using(fj_outside::proofs::HoldingLaws::free_of_empty))]
pub(crate) fn disk_of(alloc: Global, bytes: &[u8]) -> Result<MemoryDisk, AllocError>
    ensures { IfOk result (λ disk. disk.in_use ≡ set.empty) }
{
    let mut disk = MemoryDisk::new(alloc);
    disk.add_file(NAME, bytes)?;
    Ok(disk)
}

/// One item with a text.
fn moved(alloc: Global, bytes: &[u8]) -> Result<Moved, AllocError>
    ensures cells { IfOk result (λ moved. length moved.cells ≡ 1) }
    ensures distinct { IfOk result (λ moved. AreDistinct moved.cells) }
    ensures ordered { IfOk result (λ moved. IsOrdered moved) }
    ensures few { IfOk result (λ moved. length moved.order ≤ 1) }
{
    let bytes = &bytes[..bytes.len().min(9_999)];
    let text = Text::from_bytes(alloc, bytes)?;
    let mut cells = Items::new(alloc);
    cells.push(Cell {
        place: Place { var: 0, index: 1 },
        kind: Kind::Chars(bytes.len() as u32),
        value: Value::of_text(text)?,
    })?;
    let mut order = Items::new(alloc);
    order.push(0)?;
    Ok(Moved { cells, order })
}

fn members(alloc: Global, length: usize) -> Result<Members, AllocError>
    ensures { IfOk result (λ members. All (IsWithin 1) members) }
{
    let mut members = Items::new(alloc);
    members.push(GroupMember {
        name: Text::from_bytes(alloc, b"A")?,
        kind: Kind::Chars(length.min(100) as u32),
        first: 0,
        count: 1,
        scalar: true,
    })?;
    Ok(members)
}

/// A format that is none is taken for `*`.
fn layout_of(alloc: Global, form: Form, length: usize) -> Result<Layout, AllocError>
    ensures { IfOk result (λ layout. All (IsWithin 1) (members_of layout)) }
{
    match form {
        Form::Stored => Ok(Layout::Unformatted),
        Form::Listed => Ok(Layout::Listed),
        Form::Group => Ok(Layout::Group(Text::from_bytes(alloc, b"G")?, members(alloc, length)?)),
        Form::Format(format) => {
            if format.len() > 100 {
                return Ok(Layout::Listed);
            }
            let Ok(format) = parse(alloc, format) else {
                return Ok(Layout::Listed);
            };
            Ok(Layout::Explicit(format))
        }
    }
}

fn transfer(alloc: Global, said: Said, access: Access) -> Result<Transfer, AllocError> {
    let (verb, form, at, item) = said;
    let layout = layout_of(alloc, form, item.len())?;
    let moved = moved(alloc, item)?;
    let direct = access == Access::Direct;
    Ok(Transfer {
        stmt: 1,
        tag: Tag(0),
        spec: TransferSpec {
            input: verb != Verb::Output && verb != Verb::OpenOutput,
            layout,
            advance: verb != Verb::OpenOutput && verb != Verb::OpenInput,
            rec: if direct { at } else { None },
            pos: if direct { None } else { at },
            edit: EditChange {
                blank_zero: None,
                comma: None,
                delim: None,
                pad: if verb == Verb::BareInput {
                    Some(false)
                } else {
                    None
                },
                plus: None,
            },
        },
        moved: Load::of_cells(moved),
        size: None,
        count: Some(7),
    })
}

/// Carries out a statement once, and so many times more, and answers the last condition.
fn perform_again<F: FileStore>(
    alloc: Global,
    c: &mut Connection<F>,
    more: u32,
    job: &mut Transfer,
) -> Result<Condition, Stop>
    ensures { c.new.name ≡ c.old.name }
{
    let condition = perform(alloc, c, job);
    if more == 0 {
        return condition;
    }
    perform_again(alloc, c, more - 1, job)
}

/// What the last of some statements answers, and the position then; in direct access the next record's number.
type Came = (Result<Condition, Stop>, u64);

/// Carries out a statement at a place of the file once, and so many times more.
fn carried_on<F: FileStore>(
    alloc: Global,
    c: &mut Connection<F>,
    place: u64,
    more: u32,
    job: &mut Transfer,
) -> Came
    ensures { c.new.name ≡ c.old.name }
{
    if place <= c.file_len() {
        c.go_between(place);
    }
    let answer = perform_again(alloc, c, more, job);
    let spot = c.spot();
    if c.modes().access == Access::Direct {
        (answer, spot.next_number)
    } else {
        (answer, spot.at)
    }
}

/// The same on a new connection, which is closed then.
fn carried_out<D: Disk>(
    alloc: Global,
    disk: &mut D,
    opening: &Opening,
    place: u64,
    more: u32,
    job: &mut Transfer,
) -> Result<Came, OpenFault>
    requires { D.tells disk.old → (D.held disk.old).in_use ≡ set.empty }
{
    let mut c = connect(alloc, disk, opening)?;
    let came = carried_on(alloc, &mut c, place, more, job);
    c.close_file(disk, true).map_err(Stop::from)?;
    Ok(came)
}

/// What a statement with how often it is carried out once more comes to, and whether SIZE= gets this count and the item is this
/// one then.
fn leaves<D: Disk>(
    alloc: Global,
    disk: &mut D,
    opening: &Opening,
    place: u64,
    carried: (Said, u32),
    left: (Option<u64>, Option<&[u8]>),
) -> Result<(Came, bool), OpenFault>
    requires { D.tells disk.old → (D.held disk.old).in_use ≡ set.empty }
{
    let ((said, more), (count, item)) = (carried, left);
    let mut job = transfer(alloc, said, opening.access)?;
    let came = carried_out(alloc, disk, opening, place, more, &mut job);
    let is_left = job.count == count && is_text(&job.moved, item);
    drop(job);
    Ok((came?, is_left))
}

/// Whether the item has a text; none stands for no value.
fn is_text(moved: &Load, text: Option<&[u8]>) -> bool {
    let mut items = moved.items();
    let item = items.next();
    if items.is_some_left() {
        return false;
    }
    match (item, text) {
        (Some(item), Some(text)) => match item.value {
            Value::Chars(chars) => chars.bytes() == text,
            Value::Undefined | Value::Int(_) | Value::Log(_) => false,
        },
        (Some(item), None) => matches!(item.value, Value::Undefined),
        (None, _) => false,
    }
}

use Access::{Direct, Sequential, Stream};
use Action::ReadWrite;
use Condition::{EndOfFile, EndOfRecord, Error, Fine};
use Form::{Format, Group, Listed, Stored};
use Verb::{BareInput, Input, OpenInput, OpenOutput, Output};

const A: Form = Format(b"(A)");

/// Access, FORM='FORMATTED', ACTION=, the file and the statement with how often it is carried out once more; and the condition, what
/// SIZE= gets, the file, the position (in direct access the next record's number) and the item then.
type Row = (
    (Access, bool, Action, &'static [u8]),
    (Said, u32),
    (Condition, Option<u64>),
    (&'static [u8], u64, Option<&'static [u8]>),
);

static ROWS: [Row; 42] = [
    // Each layout by access and direction.
    (
        (Sequential, true, ReadWrite, b"old\n"),
        ((Output, A, None, b"ab"), 0),
        (Fine, None),
        (b"ab\n", 3, Some(b"ab")),
    ),
    (
        (Sequential, true, ReadWrite, b""),
        ((Output, Listed, None, b"ab"), 0),
        (Fine, None),
        (b" ab\n", 4, Some(b"ab")),
    ),
    (
        (Sequential, false, ReadWrite, b""),
        ((Output, Stored, None, b"ab"), 0),
        (Fine, None),
        (b"\x02\0\0\0ab\x02\0\0\0", 10, Some(b"ab")),
    ),
    (
        (Sequential, true, ReadWrite, b""),
        ((OpenOutput, A, None, b"ab"), 1),
        (Fine, None),
        (b"abab", 4, Some(b"ab")),
    ),
    (
        (Sequential, true, ReadWrite, b"abc\nde\n"),
        ((Input, A, None, b"__"), 0),
        (Fine, Some(2)),
        (b"abc\nde\n", 4, Some(b"ab")),
    ),
    (
        (Sequential, true, ReadWrite, b"abc\nde\n"),
        ((OpenInput, A, None, b"__"), 0),
        (Fine, Some(2)),
        (b"abc\nde\n", 2, Some(b"ab")),
    ),
    (
        (Sequential, true, ReadWrite, b"ab cd\n"),
        ((Input, Listed, None, b"__"), 0),
        (Fine, None),
        (b"ab cd\n", 6, Some(b"ab")),
    ),
    (
        (Sequential, false, ReadWrite, b"\x03\0\0\0abc\x03\0\0\0"),
        ((Input, Stored, None, b"__"), 0),
        (Fine, None),
        (b"\x03\0\0\0abc\x03\0\0\0", 11, Some(b"ab")),
    ),
    (
        (Stream, true, ReadWrite, b"&G A='ab' /\n"),
        ((Input, Group, None, b"__"), 0),
        (Fine, None),
        (b"&G A='ab' /\n", 12, Some(b"ab")),
    ),
    (
        (Direct, true, ReadWrite, b"AAAAAA"),
        ((Output, A, Some(2), b"xy"), 0),
        (Fine, None),
        (b"AAAAAAxy    ", 3, Some(b"xy")),
    ),
    (
        (Direct, true, ReadWrite, b"AAAAAABBBBBB"),
        ((Input, A, Some(2), b"__"), 0),
        (Fine, Some(2)),
        (b"AAAAAABBBBBB", 3, Some(b"BB")),
    ),
    (
        (Direct, false, ReadWrite, b"AAAAAABBBBBB"),
        ((Input, Stored, Some(2), b"__"), 0),
        (Fine, None),
        (b"AAAAAABBBBBB", 3, Some(b"BB")),
    ),
    // A slash goes to the record of the next number, which an input has to find.
    (
        (Direct, true, ReadWrite, b"AAAAAABBBBBBCCCCCC"),
        ((Output, Format(b"(/A)"), Some(1), b"xy"), 0),
        (Fine, None),
        (b"      xy    CCCCCC", 3, Some(b"xy")),
    ),
    (
        (Direct, true, ReadWrite, b"AAAAAABBBBBB"),
        ((Input, Format(b"(/A)"), Some(1), b"__"), 0),
        (Fine, Some(2)),
        (b"AAAAAABBBBBB", 3, Some(b"BB")),
    ),
    (
        (Direct, true, ReadWrite, b"AAAAAABBBBBB"),
        ((Input, Format(b"(A/)"), Some(2), b"__"), 0),
        (Error(17), None),
        (b"AAAAAABBBBBB", 1, None),
    ),
    // POS= before, at and behind the end.
    (
        (Stream, false, ReadWrite, b"abcdef"),
        ((Output, Stored, Some(3), b"XY"), 0),
        (Fine, None),
        (b"abXYef", 4, Some(b"XY")),
    ),
    (
        (Stream, true, ReadWrite, b"ab\ncd\n"),
        ((Output, A, Some(1), b"x"), 0),
        (Fine, None),
        (b"x\n", 2, Some(b"x")),
    ),
    (
        (Stream, false, ReadWrite, b"abc"),
        ((Output, Stored, Some(4), b"X"), 0),
        (Fine, None),
        (b"abcX", 4, Some(b"X")),
    ),
    (
        (Stream, false, ReadWrite, b"abc"),
        ((Output, Stored, Some(5), b"X"), 0),
        (Error(21), None),
        (b"abc", 0, Some(b"X")),
    ),
    (
        (Stream, false, ReadWrite, b"abc"),
        ((Input, Stored, Some(0), b"_"), 0),
        (Error(21), None),
        (b"abc", 0, None),
    ),
    (
        (Stream, false, ReadWrite, b"abc"),
        ((Input, Stored, Some(3), b"_"), 0),
        (Fine, None),
        (b"abc", 3, Some(b"c")),
    ),
    (
        (Stream, false, ReadWrite, b"abc"),
        ((Input, Stored, Some(4), b"_"), 0),
        (EndOfFile, None),
        (b"abc", 0, None),
    ),
    (
        (Stream, false, ReadWrite, b"abc"),
        ((Input, Stored, Some(5), b"_"), 0),
        (Error(21), None),
        (b"abc", 0, None),
    ),
    // SIZE= does not count what was padded, nor does it get anything at an error.
    (
        (Sequential, true, ReadWrite, b"a\n"),
        ((OpenInput, A, None, b"___"), 0),
        (EndOfRecord, Some(1)),
        (b"a\n", 2, Some(b"a  ")),
    ),
    (
        (Sequential, true, ReadWrite, b"a\n"),
        ((Input, A, None, b"___"), 0),
        (Fine, Some(1)),
        (b"a\n", 2, Some(b"a  ")),
    ),
    (
        (Sequential, true, ReadWrite, b"a\n"),
        ((BareInput, A, None, b"___"), 0),
        (Error(30), None),
        (b"a\n", 0, None),
    ),
    // The end of the file, and what is behind it.
    (
        (Sequential, true, ReadWrite, b"a\n"),
        ((Input, A, None, b"_"), 1),
        (EndOfFile, None),
        (b"a\n", 2, None),
    ),
    (
        (Sequential, true, ReadWrite, b"a\n"),
        ((Input, A, None, b"_"), 2),
        (Error(20), None),
        (b"a\n", 2, None),
    ),
    // What does not go together with the connection comes before what ACTION= does not allow.
    (
        (Sequential, true, Action::Read, b"a\n"),
        ((Output, Stored, None, b"x"), 0),
        (Error(16), None),
        (b"a\n", 0, Some(b"x")),
    ),
    (
        (Sequential, true, Action::Read, b"a\n"),
        ((Output, A, None, b"x"), 0),
        (Error(10), None),
        (b"a\n", 0, Some(b"x")),
    ),
    (
        (Sequential, true, Action::Write, b"a\n"),
        ((Input, A, None, b"x"), 0),
        (Error(10), None),
        (b"a\n", 0, None),
    ),
    (
        (Sequential, true, ReadWrite, b"a\n"),
        ((Input, A, Some(1), b"x"), 0),
        (Error(16), None),
        (b"a\n", 0, None),
    ),
    // A record of as many bytes as it may have, and of one more.
    (
        (Sequential, true, ReadWrite, b""),
        ((Output, A, None, b"123456"), 0),
        (Fine, None),
        (b"123456\n", 7, Some(b"123456")),
    ),
    (
        (Sequential, true, ReadWrite, b"a\n"),
        ((Output, A, None, b"1234567"), 0),
        (Error(15), None),
        (b"a\n", 0, Some(b"1234567")),
    ),
    (
        (Sequential, true, ReadWrite, b"123456\n"),
        ((Input, A, None, b"_"), 0),
        (Fine, Some(1)),
        (b"123456\n", 7, Some(b"1")),
    ),
    (
        (Sequential, true, ReadWrite, b"1234567\n"),
        ((Input, A, None, b"_"), 0),
        (Error(15), None),
        (b"1234567\n", 0, None),
    ),
    (
        (Sequential, false, ReadWrite, b""),
        ((Output, Stored, None, b"123456"), 0),
        (Fine, None),
        (b"\x06\0\0\0123456\x06\0\0\0", 14, Some(b"123456")),
    ),
    (
        (Sequential, false, ReadWrite, b"abc"),
        ((Output, Stored, None, b"1234567"), 0),
        (Error(15), None),
        (b"abc", 0, Some(b"1234567")),
    ),
    (
        (Direct, false, ReadWrite, b""),
        ((Output, Stored, Some(1), b"123456"), 0),
        (Fine, None),
        (b"123456", 2, Some(b"123456")),
    ),
    (
        (Direct, false, ReadWrite, b"AAAAAA"),
        ((Output, Stored, Some(1), b"1234567"), 0),
        (Error(15), None),
        (b"AAAAAA", 1, Some(b"1234567")),
    ),
    // No such record, and one behind the limit of the file.
    (
        (Direct, true, ReadWrite, b"AAAAAA"),
        ((Input, A, Some(2), b"__"), 0),
        (Error(17), None),
        (b"AAAAAA", 1, None),
    ),
    (
        (Direct, false, ReadWrite, b"AAAAAA"),
        ((Output, Stored, Some(44_739_243), b"x"), 0),
        (Error(25), None),
        (b"AAAAAA", 1, Some(b"x")),
    ),
];

/// Whether a statement comes to what its row says.
fn holds(alloc: Global, row: &Row) -> Result<bool, OpenFault> {
    let ((access, formatted, action, before), said, (condition, count), (after, at, item)) = *row;
    let opening = Opening {
        access,
        formatted,
        action: Some(action),
        recl: 6,
    };
    let mut disk = disk_of(alloc, before)?;
    let came = leaves(alloc, &mut disk, &opening, 0, said, (count, item));
    let is_left = disk.bytes_of(NAME) == Some(after);
    drop(disk);
    Ok(came? == ((Ok(condition), at), true) && is_left)
}

#[test]
fn statements(rt: HostRuntime) {
    for (number, row) in ROWS.iter().enumerate() {
        assert!(rt; holds(rt.alloc(), row) == Ok(true), "row {number}");
    }
}
