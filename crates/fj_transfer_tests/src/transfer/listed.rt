// List-directed and namelist inputs on files in memory, with the values and positions worked out by hand.
ghost use Rattle.std.specs.Prelude.{◌≡◌, ◌<◌, All, IfOk, length};
ghost use Rattle.std.specs.FinSet as set;
ghost use Rattle.fj_moved.specs.Moved.{IsOrdered};
ghost use Rattle.fj_namelist.specs.GroupText.{IsWithin};

use crate::perform::{NAME, connect, disk_of};
use crate::transfer::files::{NOT_DONE, are_values, closed, opening};
use crate::transfer::{I4, Item, MODES, moved};
use fj_connect::{Connection, OpenFault};
use fj_modes::Access;
use fj_moved::{GroupMember, Moved};
use fj_outside::{Disk, FileStore, Stop};
use fj_transfer::{Members, read_grouped, read_listed};
use fj_value::{Condition, Items, Kind, Text};
use std::alloc::{AllocError, Global};

/// A scalar of a group of two.
fn member(alloc: Global, name: &[u8], first: u32) -> Result<GroupMember, AllocError>
    requires { first < 2 }
    ensures { IfOk result (λ member. IsWithin 2 member) }
{
    Ok(GroupMember {
        name: Text::from_bytes(alloc, name)?,
        kind: Kind::Int4,
        first,
        count: 1,
        scalar: true,
    })
}

/// The members of the group G: INTEGER A, B.
pub fn members(alloc: Global) -> Result<Members, AllocError>
    ensures { IfOk result (λ members. All (IsWithin 2) members) }
{
    let mut members = Items::new(alloc);
    members.push(member(alloc, b"A", 0)?)?;
    members.push(member(alloc, b"B", 1)?)?;
    Ok(members)
}

/// Stands at a place, or behind so many characters of the record that begins there.
fn begin<F: FileStore>(c: &mut Connection<F>, start: u64, count: u64)
    ensures { c.new.name ≡ c.old.name }
{
    let size = c.file_len();
    if start > size || count > size - start {
        return;
    }
    if count == 0 {
        c.go_between(start);
    } else {
        c.go_into_record(start, count);
    }
}

/// Reads items, or the group G.
fn input<F: FileStore>(
    alloc: Global,
    c: &mut Connection<F>,
    place: Option<u64>,
    group: bool,
    moved: &mut Moved,
) -> Result<Condition, Stop>
    requires { IsOrdered moved.old }
    ensures { c.new.name ≡ c.old.name }
{
    let size = c.file_len();
    if c.modes().access == Access::Direct {
        return Ok(NOT_DONE);
    }
    match place {
        Some(at) if at > size => return Ok(NOT_DONE),
        _ => {}
    }
    if !group {
        let performed = read_listed(alloc, c, place, MODES, moved)?;
        return Ok(performed.condition);
    }
    if moved.cells.len() != 2 {
        return Ok(NOT_DONE);
    }
    let members = members(alloc)?;
    let performed = read_grouped(alloc, c, place, b"G", members.as_slice(), MODES, moved);
    drop(members);
    Ok(performed?.condition)
}

/// What an input comes to: the condition, and the position then.
fn input_from<D: Disk>(
    alloc: Global,
    disk: &mut D,
    row: &Row,
    moved: &mut Moved,
) -> Result<(Condition, u64, u64), OpenFault>
    requires home { D.tells disk.old → (D.held disk.old).in_use ≡ set.empty }
    requires ordered { IsOrdered moved.old }
{
    let mut c = connect(alloc, disk, &opening(row.access, true))?;
    begin(&mut c, row.start, row.count);
    let condition = input(alloc, &mut c, row.place, row.group, moved);
    closed(disk, c, condition)
}

/// The file, where the input begins, and the items before it; the condition, the items and the position behind it. Records
/// of sequential access have at most six characters.
struct Row {
    access: Access,
    bytes: &'static [u8],
    start: u64,
    count: u64,
    place: Option<u64>,
    group: bool,
    items: &'static [Item],
    condition: Condition,
    after: &'static [Option<Item>],
    position: u64,
}

use Access::{Sequential, Stream};
use Condition::{EndOfFile, Error, Fine};

static ROWS: [Row; 11] = [
    // Null values leave their items, and a slash leaves those behind it.
    Row {
        access: Sequential,
        bytes: b"1,,3\n4\n",
        start: 0,
        count: 0,
        place: None,
        group: false,
        items: &[I4(9), I4(9), I4(9)],
        condition: Fine,
        after: &[Some(I4(1)), Some(I4(9)), Some(I4(3))],
        position: 5,
    },
    Row {
        access: Sequential,
        bytes: b"1 /2\n3\n",
        start: 0,
        count: 0,
        place: None,
        group: false,
        items: &[I4(9), I4(9)],
        condition: Fine,
        after: &[Some(I4(1)), Some(I4(9))],
        position: 5,
    },
    // Values go on in later records; the first record is looked at, whatever the items.
    Row {
        access: Sequential,
        bytes: b"1\n\n2\n3\n",
        start: 0,
        count: 0,
        place: None,
        group: false,
        items: &[I4(9), I4(9)],
        condition: Fine,
        after: &[Some(I4(1)), Some(I4(2))],
        position: 5,
    },
    // A record that is too long, and the end of the file.
    Row {
        access: Sequential,
        bytes: b"1\n1234567\n",
        start: 0,
        count: 0,
        place: None,
        group: false,
        items: &[I4(9), I4(9)],
        condition: Error(15),
        after: &[None, None],
        position: 0,
    },
    Row {
        access: Sequential,
        bytes: b"1\n",
        start: 0,
        count: 0,
        place: None,
        group: false,
        items: &[I4(9), I4(9)],
        condition: EndOfFile,
        after: &[None, None],
        position: 2,
    },
    // The rest of the record at hand, which may be too long.
    Row {
        access: Sequential,
        bytes: b"9 7\n8\n",
        start: 0,
        count: 2,
        place: None,
        group: false,
        items: &[I4(9), I4(9)],
        condition: Fine,
        after: &[Some(I4(7)), Some(I4(8))],
        position: 6,
    },
    Row {
        access: Sequential,
        bytes: b"1234 67\n",
        start: 0,
        count: 5,
        place: None,
        group: false,
        items: &[I4(9)],
        condition: Error(15),
        after: &[None],
        position: 5,
    },
    // POS= names the byte where a record begins.
    Row {
        access: Stream,
        bytes: b"9 7\n8\n",
        start: 0,
        count: 2,
        place: Some(1),
        group: false,
        items: &[I4(9), I4(9)],
        condition: Fine,
        after: &[Some(I4(7)), Some(I4(8))],
        position: 6,
    },
    // A group goes up to its slash.
    Row {
        access: Sequential,
        bytes: b"x\n&G B=\n2 /\n3\n",
        start: 2,
        count: 0,
        place: None,
        group: true,
        items: &[I4(9), I4(9)],
        condition: Fine,
        after: &[Some(I4(9)), Some(I4(2))],
        position: 12,
    },
    Row {
        access: Sequential,
        bytes: b"&G A=5\n",
        start: 0,
        count: 0,
        place: None,
        group: true,
        items: &[I4(9), I4(9)],
        condition: EndOfFile,
        after: &[None, None],
        position: 7,
    },
    Row {
        access: Sequential,
        bytes: b"&H /\n",
        start: 0,
        count: 0,
        place: None,
        group: true,
        items: &[I4(9), I4(9)],
        condition: Error(22),
        after: &[None, None],
        position: 0,
    },
];

/// Whether an input comes to what its row says.
fn reads(alloc: Global, row: &Row) -> Result<bool, OpenFault> {
    if row.items.len() >= 1000 {
        return Ok(false);
    }
    let mut items = moved(alloc, row.items, 1)?;
    let mut disk = disk_of(alloc, row.bytes)?;
    let came = input_from(alloc, &mut disk, row, &mut items);
    let is_left = disk.bytes_of(NAME) == Some(row.bytes);
    drop(disk);
    let is_read = are_values(items.cells.as_slice(), row.after);
    drop(items);
    let (told, stands, _) = came?;
    Ok(told == row.condition && stands == row.position && is_left && is_read)
}

#[test]
fn list_directed_and_namelist_input(rt: HostRuntime) {
    for (number, row) in ROWS.iter().enumerate() {
        assert!(rt; reads(rt.alloc(), row) == Ok(true), "row {number}");
    }
}
