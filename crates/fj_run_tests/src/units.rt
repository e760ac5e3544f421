// Units that come out of order, are replaced and taken off, with the lowest slot that is free; and names.
use Step::{Insert, Remove};
use fj_modes::{Access, Action, FileName, Modes, Start, is_file_name, usual_edit};
use fj_run_units::{Connected, Names, Units};
use fj_statement::UnitRef;
use std::alloc::{AllocError, Global};
use std::test::Fail;

/// What is done with the units.
#[derive(Clone, Copy)]
enum Step {
    /// The number, the slot and the name of a unit.
    Insert(u32, u32, &'static str),
    Remove(u32),
}

/// A step; then the numbers of the units, and the lowest slot that is free.
type Row = (Step, &'static [u32], u32);

static ROWS: [Row; 6] = [
    (Insert(30, 0, "c"), &[30], 1),
    (Insert(10, 2, "a"), &[10, 30], 1),
    (Insert(20, 1, "b"), &[10, 20, 30], 3),
    (Insert(20, 3, "d"), &[10, 20, 30], 1),
    (Remove(30), &[10, 20], 0),
    (Remove(40), &[10, 20], 0),
];

fn name_of(alloc: Global, text: &str) -> Result<FileName, AllocError> {
    if !is_file_name(text.as_bytes()) {
        return Err(AllocError);
    }
    FileName::new(alloc, text.as_bytes())
}

fn modes_of(recl: u32) -> Modes {
    Modes {
        access: Access::Sequential,
        formatted: true,
        recl,
        action: Action::ReadWrite,
        asynchronous: false,
        scratch: false,
        start: Start::AsIs,
        edit: usual_edit(),
    }
}

fn take_step(alloc: Global, units: &mut Units, step: Step) -> Result<(), AllocError> {
    match step {
        Insert(number, slot, name) => {
            if slot >= 16 || units.has_slot(slot) {
                return Err(AllocError);
            }
            units.insert(Connected {
                number,
                slot,
                name: name_of(alloc, name)?,
                modes: modes_of(80),
            })
        }
        Remove(number) => {
            units.remove(number);
            Ok(())
        }
    }
}

fn are_numbers(units: &[Connected], numbers: &[u32]) -> bool {
    if units.len() != numbers.len() {
        return false;
    }
    for (unit, number) in units.iter().zip(numbers) {
        if unit.number != *number {
            return false;
        }
    }
    true
}

fn is_unit(unit: Option<&Connected>, name: &str, recl: u32) -> bool {
    match unit {
        Some(unit) => unit.name.as_str() == name && unit.modes.recl == recl,
        None => false,
    }
}

/// The number of the first row that comes to something else.
fn differs(alloc: Global, units: &mut Units) -> Result<Option<usize>, AllocError> {
    for (number, (what, numbers, free)) in ROWS.iter().enumerate() {
        take_step(alloc, units, *what)?;
        if !are_numbers(units.as_slice(), numbers) || units.free_slot() != Some(*free) {
            return Ok(Some(number));
        }
    }
    Ok(None)
}

/// The unit of a name, and whether the name is taken for units 10 and 20.
fn named(
    alloc: Global,
    units: &Units,
    text: &str,
) -> Result<(Option<u32>, bool, bool), AllocError> {
    let name = name_of(alloc, text)?;
    Ok((
        units.named(&name),
        units.is_taken(10, &name),
        units.is_taken(20, &name),
    ))
}

/// Whether modes are set of a unit that is there, and no unit is found that is not there.
fn are_found(units: &mut Units) -> bool {
    units.set_modes(20, modes_of(7));
    units.set_modes(40, modes_of(8));
    units.at(UnitRef::Star).is_none()
        && is_unit(units.at(UnitRef::Number(20)), "d", 7)
        && is_unit(units.first(), "a", 80)
        && units.find(30).is_none()
}

/// The first row that comes to something else; then what the name of unit 20 is asked, the unit of the name that it had before,
/// and whether the units are found.
type Ascended = (Option<usize>, (Option<u32>, bool, bool), Option<u32>, bool);

fn ascended(alloc: Global) -> Result<Ascended, AllocError> {
    let mut units = Units::new(alloc);
    let first = differs(alloc, &mut units);
    let last = named(alloc, &units, "d");
    let gone = named(alloc, &units, "b");
    let found = are_found(&mut units);
    drop(units);
    Ok((first?, last?, gone?.0, found))
}

#[test]
fn units_ascend(rt: HostRuntime) -> Result<(), Fail> {
    let (first, last, gone, found) = ascended(rt.alloc())?;
    assert_eq!(rt; first, None);
    assert!(rt; last == (Some(20), true, false));
    assert_eq!(rt; gone, None);
    assert!(rt; found);
    Ok(())
}

/// The lowest slot that is free where all are taken, and where one was left.
fn free_slots(alloc: Global) -> Result<(Option<u32>, Option<u32>), AllocError> {
    let mut units = Units::new(alloc);
    for slot in 0..16 {
        take_step(alloc, &mut units, Insert(100 - slot, slot, "a"))?;
    }
    let full = units.free_slot();
    units.remove(95);
    let left = units.free_slot();
    drop(units);
    Ok((full, left))
}

#[test]
fn slots_run_out(rt: HostRuntime) -> Result<(), Fail> {
    let (full, left) = free_slots(rt.alloc())?;
    assert_eq!(rt; full, None);
    assert_eq!(rt; left, Some(5));
    Ok(())
}

/// Whether there is no name before one is added, whether that one and no other is there then, and whether there is none behind.
fn come_off(alloc: Global) -> Result<(bool, bool, bool), AllocError> {
    let name = name_of(alloc, "a")?;
    let other = name_of(alloc, "A")?;
    let mut names = Names::new(alloc);
    let before = names.is_empty();
    let added = names.add(&name);
    let there = names.holds(&name) && !names.holds(&other) && !names.is_empty();
    names.remove(&name);
    let behind = names.is_empty();
    drop(names);
    drop(other);
    drop(name);
    added?;
    Ok((before, there, behind))
}

#[test]
fn names_come_off(rt: HostRuntime) -> Result<(), Fail> {
    let (before, there, behind) = come_off(rt.alloc())?;
    assert!(rt; before);
    assert!(rt; there);
    assert!(rt; behind);
    Ok(())
}
