// The end of a run over a disk in memory: a file with an open record, and a scratch file.
ghost use Rattle.std.specs.Prelude.{◌≡◌, true, is_some, IfSome};
ghost use Rattle.fj_world.specs.Alone.{AllHome};
ghost use Rattle.fj_run_units.specs.Names.{AreInUse};

use fj_bay::{Bay, Job};
use fj_connect::{Connection, open_file};
use fj_modes::{Access, FileName, FileStatus, OpenSpec, is_file_name, settle_open};
use fj_outside::{MemoryDisk, MemoryFile};
use fj_run_end::{finish, room_for};
use fj_run_units::{Connected, Names, Units};
use fj_slot::Slot;
use fj_value::Boxed;
use fj_world::Slots;
use std::alloc::Global;
use std::test::Fail;

/// The slot of the scratch file's unit, as the units have it; then whether no file stays out, as that one does where its unit has no
/// connection at its slot.
type Row = (u32, bool);

static ROWS: [Row; 2] = [(0, true), (5, false)];

fn name_of(alloc: Global, text: &str) -> Option<FileName> {
    if !is_file_name(text.as_bytes()) {
        return None;
    }
    FileName::new(alloc, text.as_bytes()).ok()
}

/// Connects to the file of a name, and enters the name.
fn connect(
    alloc: Global,
    name: &FileName,
    status: Option<FileStatus>,
    names: &mut Names,
    disk: &mut MemoryDisk,
) -> Option<Connection<MemoryFile>>
    requires { AreInUse names.old disk.old.in_use }
    ensures { IfSome result (λ _. AreInUse names.new disk.new.in_use) }
{
    if names.holds(name) {
        return None;
    }
    let spec = OpenSpec {
        status,
        ..OpenSpec::default()
    };
    let Ok(modes) = settle_open(&spec) else {
        drop(spec);
        return None;
    };
    let Ok(connection) = open_file(alloc, disk, name, &spec, modes) else {
        drop(spec);
        return None;
    };
    drop(spec);
    let Ok(()) = names.add(name) else {
        drop(connection);
        return None;
    };
    Some(connection)
}

/// Writes a record, and leaves it open.
fn write(connection: &mut Connection<MemoryFile>) -> Option<()> {
    let modes = *connection.modes();
    if connection.spot().at > 9 || !modes.formatted || modes.access == Access::Direct {
        return None;
    }
    connection.put_open_record(b"xy", 2).ok()
}

/// A slot with an empty bay, which is given a connection.
fn slot_of(alloc: Global, connection: Connection<MemoryFile>) -> Option<Slot<Bay<MemoryFile>>>
    ensures { IfSome result (λ slot. is_some slot.home ≡ true) }
{
    let Ok(place) = Boxed::new(alloc, Some(connection)) else {
        return None;
    };
    let Ok(bay) = Bay::empty(alloc) else {
        return None;
    };
    let mut slot = Slot::new(alloc, bay);
    let Ok(_) = slot.submit(Job::Attach(place)) else {
        drop(slot);
        return None;
    };
    Some(slot)
}

fn two_slots(
    alloc: Global,
    first: Slot<Bay<MemoryFile>>,
    second: Slot<Bay<MemoryFile>>,
) -> Option<Slots<Bay<MemoryFile>>>
    requires first { is_some first.home ≡ true }
    requires second { is_some second.home ≡ true }
    ensures { IfSome result (λ slots. AllHome slots) }
{
    let mut slots = Slots::new(alloc);
    let Ok(()) = slots.push(first) else {
        drop(second);
        drop(slots);
        return None;
    };
    let Ok(()) = slots.push(second) else {
        drop(slots);
        return None;
    };
    Some(slots)
}

fn insert(
    units: &mut Units,
    number: u32,
    slot: u32,
    name: FileName,
    connection: &Connection<MemoryFile>,
) -> Option<()> {
    if slot >= 16 || units.has_slot(slot) {
        return None;
    }
    let modes = *connection.modes();
    units
        .insert(Connected {
            number,
            slot,
            name,
            modes,
        })
        .ok()
}

/// Whether the open record was ended in its file, and whether the scratch file is there.
fn found(disk: &MemoryDisk) -> (bool, bool) {
    let ended = match disk.bytes_of("a") {
        Some(bytes) => bytes == b"xy\n".as_slice(),
        None => false,
    };
    (ended, disk.bytes_of("SCRATCH.11").is_some())
}

/// Whether all went well.
fn is_finished(
    alloc: Global,
    units: &Units,
    slots: Slots<Bay<MemoryFile>>,
    names: &mut Names,
    disk: &mut MemoryDisk,
) -> Option<bool>
    requires home { AllHome slots }
    requires names { AreInUse names.old disk.old.in_use }
{
    let Ok(room) = room_for(alloc, slots.len()) else {
        drop(slots);
        return None;
    };
    Some(finish(units, slots, room, names, disk).is_ok())
}

/// A unit, its slot and name, the STATUS= of its OPEN, and whether a record of it is left open.
#[derive(Drop)]
struct Opened {
    number: u32,
    slot: u32,
    name: FileName,
    status: Option<FileStatus>,
    open: bool,
}

/// The slot of a unit that is connected to its file.
fn slot_with(
    alloc: Global,
    opened: Opened,
    units: &mut Units,
    names: &mut Names,
    disk: &mut MemoryDisk,
) -> Option<Slot<Bay<MemoryFile>>>
    requires { AreInUse names.old disk.old.in_use }
    ensures home { IfSome result (λ slot. is_some slot.home ≡ true) }
    ensures names { IfSome result (λ _. AreInUse names.new disk.new.in_use) }
{
    let mut connection = connect(alloc, &opened.name, opened.status, names, disk)?;
    let is_written = !opened.open || write(&mut connection).is_some();
    let (number, slot) = (opened.number, opened.slot);
    let is_entered = insert(units, number, slot, opened.name, &connection).is_some();
    if !is_written || !is_entered {
        drop(connection);
        return None;
    }
    slot_of(alloc, connection)
}

/// The scratch file of unit 11.
fn scratch_file(alloc: Global, slot: u32) -> Option<Opened> {
    Some(Opened {
        number: 11,
        slot,
        name: FileName::scratch(alloc, 11).ok()?,
        status: Some(FileStatus::Scratch),
        open: false,
    })
}

/// The file of unit 10, with an open record.
fn text_file(alloc: Global) -> Option<Opened> {
    Some(Opened {
        number: 10,
        slot: 1,
        name: name_of(alloc, "a")?,
        status: None,
        open: true,
    })
}

/// The slots of both.
fn both_slots(
    alloc: Global,
    slot: u32,
    units: &mut Units,
    names: &mut Names,
    disk: &mut MemoryDisk,
) -> Option<Slots<Bay<MemoryFile>>>
    requires { AreInUse names.old disk.old.in_use }
    ensures home { IfSome result (λ slots. AllHome slots) }
    ensures names { IfSome result (λ _. AreInUse names.new disk.new.in_use) }
{
    let text = text_file(alloc)?;
    let first = slot_with(alloc, scratch_file(alloc, slot)?, units, names, disk)?;
    let Some(second) = slot_with(alloc, text, units, names, disk) else {
        drop(first);
        return None;
    };
    two_slots(alloc, first, second)
}

/// Whether all went well at the end of both.
fn ends_well(alloc: Global, slot: u32, names: &mut Names, disk: &mut MemoryDisk) -> Option<bool>
    requires { AreInUse names.old disk.old.in_use }
{
    let mut units = Units::new(alloc);
    let fine = match both_slots(alloc, slot, &mut units, names, disk) {
        Some(slots) => is_finished(alloc, &units, slots, names, disk),
        None => None,
    };
    drop(units);
    fine
}

/// Whether all went well, whether the open record was ended in its file, whether the scratch file is there, and whether no name
/// is out.
fn end_with(alloc: Global, slot: u32) -> Option<(bool, bool, bool, bool)> {
    let mut names = Names::new(alloc);
    let mut disk = MemoryDisk::new(alloc);
    let fine = ends_well(alloc, slot, &mut names, &mut disk);
    let (ended, stays) = found(&disk);
    let is_back = names.is_empty();
    drop(disk);
    drop(names);
    Some((fine?, ended, stays, is_back))
}

#[test]
fn files_go_back(rt: HostRuntime) -> Result<(), Fail> {
    for (slot, back) in &ROWS {
        let ended = end_with(rt.alloc(), *slot);
        assert_eq!(rt; ended, Some((true, true, false, *back)));
    }
    Ok(())
}
