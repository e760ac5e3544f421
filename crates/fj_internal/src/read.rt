// READ on an internal file.
ghost use Rattle.std.specs.Prelude.{◌≡◌, ◌≢◌, ◌<◌, ◌^◌, None, length, All, IfOk, Ok, Err};
ghost use Rattle.std.specs.List.{list_any};
ghost use Rattle.fj_value.specs.declared.condition.Condition.TheVariants.{Error};
ghost use Rattle.fj_modes.specs.Modes.{usual_edit};
ghost use Rattle.fj_moved.specs.Cells.{places_of};
ghost use Rattle.fj_moved.specs.Load.{with_undefined};
ghost use Rattle.fj_moved.specs.Moved.{IsOrdered};
ghost use Rattle.fj_namelist.specs.GroupText.{IsWithin};
ghost use Rattle.fj_transfer.specs.Performing.{LeavesStatement};
ghost use Rattle.fj_control.specs.Steps.{steps};
ghost use Rattle.fj_control.specs.Paired.{paired};
ghost use Rattle.fj_transfer.specs.Change.{changed};
ghost use Rattle.fj_transfer.specs.Moving.{members_of};
ghost use Rattle.fj_transfer.specs.Printing.{control_of};
ghost use Rattle.fj_internal.specs.Internal.{IsInput, holds_line_end, records_of, read_inside};
ghost use Rattle.fj_internal.specs.Carried.{taken};
ghost use Rattle.fj_internal.specs.Records.{begins_in, explicit_taken, listed_taken, outcome_taken, records_taken, taken_at, taken_ended, taken_out, taken_with};
ghost use Rattle.fj_modes.specs.Limits.{longest_formatted};
ghost use Rattle.fj_transfer.specs.Transfer.{up_to_excess, behind_them};
ghost use Rattle.fj_namelist.specs.GroupInput.{group_input};

use crate::ahead::Ahead;
use crate::elements::{any_line_end, characters};
use crate::reader::Reader;
use fj_control::Cursor;
use fj_format::Format;
use fj_list::read_list;
use fj_modes::{LONGEST_FORMATTED, usual_edit};
use fj_moved::{Cells, GroupMember, Load, Moved, undefine};
use fj_namelist::read_group;
use fj_outside::Stop;
use fj_transfer::{Layout, Performed, Transfer, TransferSpec};
use fj_value::{Cell, Condition, EditModes};
use std::alloc::{AllocError, Global};

/// Leaves the items of an input that ended with a condition.
pub(crate) fn leave(cells: &mut Cells, count: Option<u64>, condition: Condition) -> Performed
    ensures taken { taken_with cells.new result ≡ taken_at cells.old count condition }
    ensures places { places_of cells.new ≡ places_of cells.old }
{
    match condition {
        Condition::Fine | Condition::EndOfRecord => Performed { count, condition },
        Condition::EndOfFile | Condition::Error(_) => {
            undefine(cells);
            Performed {
                count: None,
                condition,
            }
        }
    }
}

/// Reads the items from an element that is at hand.
pub(crate) fn read_from(
    alloc: Global,
    text: &[u8],
    behind: &[Cell],
    format: &Format,
    advance: bool,
    modes: EditModes,
    moved: &mut Moved,
) -> Result<Performed, AllocError>
    requires ordered { IsOrdered moved.old }
    requires few { length moved.old.order < 2 ^ 32 }
    ensures taken { IfOk result (λ performed. taken_with moved.new.cells performed
        ≡ taken_ended (taken_out advance (paired modes (steps format.now (length moved.old.order)) moved.old.order) (records_of behind.now) (begins_in text.now moved.old.cells))) }
    ensures order { moved.new.order ≡ moved.old.order }
    ensures places { places_of moved.new.cells ≡ places_of moved.old.cells }
{
    let mut reader = Reader {
        text,
        behind,
        at: 0,
        count: 0,
        modes,
        advance,
        order: moved.order.as_slice(),
        next: 0,
    };
    let mut cursor = Cursor::new(alloc, format)?;
    let condition = reader.read_steps(alloc, &mut moved.cells, &mut cursor)?;
    Ok(leave(&mut moved.cells, Some(reader.count), condition))
}

/// Reads items under an explicit format.
fn read_explicit(
    alloc: Global,
    elements: &[Cell],
    format: &Format,
    advance: bool,
    modes: EditModes,
    moved: &mut Moved,
) -> Result<Performed, AllocError>
    requires ordered { IsOrdered moved.old }
    requires few { length moved.old.order < 2 ^ 32 }
    ensures taken { IfOk result (λ performed. taken_with moved.new.cells performed
        ≡ explicit_taken advance modes (steps format.now (length moved.old.order)) moved.old (records_of elements.now)) }
    ensures order { moved.new.order ≡ moved.old.order }
    ensures places { places_of moved.new.cells ≡ places_of moved.old.cells }
{
    let Some((element, behind)) = elements.split_first() else {
        return Ok(leave(&mut moved.cells, None, Condition::EndOfFile));
    };
    let text = characters(element);
    if text.len() > LONGEST_FORMATTED as usize {
        return Ok(leave(&mut moved.cells, None, Condition::RECORD_TOO_LONG));
    }
    read_from(alloc, text, behind, format, advance, modes, moved)
}

/// The condition, or want of memory, the only thing that stops where there is no disk.
pub(crate) fn unstopped(read: Result<Condition, Stop>) -> Result<Condition, AllocError>
    requires { read ≢ Err Stop.Failed }
    ensures { IfOk result (λ condition. read ≡ Ok condition) }
{
    match read {
        Ok(condition) => Ok(condition),
        Err(Stop::Memory(error)) => Err(error),
        Err(Stop::Failed) => unreachable!(),
    }
}

/// Reads items by list-directed formatting.
fn read_listed(
    alloc: Global,
    elements: &[Cell],
    modes: EditModes,
    moved: &mut Moved,
) -> Result<Performed, AllocError>
    requires { IsOrdered moved.old }
    ensures taken { IfOk result (λ performed. taken_with moved.new.cells performed ≡ listed_taken modes moved.old (records_of elements.now)) }
    ensures order { moved.new.order ≡ moved.old.order }
    ensures places { places_of moved.new.cells ≡ places_of moved.old.cells }
{
    let mut records = Ahead { elements };
    let condition = unstopped(read_list(alloc, &mut records, moved, modes))?;
    Ok(leave(&mut moved.cells, None, condition))
}

/// Reads a namelist group.
fn read_grouped(
    alloc: Global,
    elements: &[Cell],
    group: &[u8],
    members: &[GroupMember],
    modes: EditModes,
    moved: &mut Moved,
) -> Result<Performed, AllocError>
    requires { All (IsWithin (length moved.old.cells)) members.now }
    ensures taken { IfOk result (λ performed. taken_with moved.new.cells performed ≡ outcome_taken (group_input modes.comma
        (up_to_excess longest_formatted (records_of elements.now)) (behind_them longest_formatted (records_of elements.now)) group.now members.now moved.old.cells)) }
    ensures order { moved.new.order ≡ moved.old.order }
    ensures places { places_of moved.new.cells ≡ places_of moved.old.cells }
{
    let mut records = Ahead { elements };
    let condition = unstopped(read_group(alloc, &mut records, group, members, moved, modes))?;
    Ok(leave(&mut moved.cells, None, condition))
}

/// Reads items by the layout.
fn read_cells(
    alloc: Global,
    elements: &[Cell],
    spec: &TransferSpec,
    moved: &mut Moved,
) -> Result<Performed, AllocError>
    requires ordered { IsOrdered moved.old }
    requires few { length moved.old.order < 2 ^ 32 }
    requires grouped { All (IsWithin (length moved.old.cells)) (members_of spec.now.layout) }
    ensures taken { IfOk result (λ performed. taken_with moved.new.cells performed
        ≡ records_taken spec.now.layout (control_of spec.now.layout) spec.now.advance (changed spec.now.edit usual_edit) moved.old (records_of elements.now)) }
    ensures order { moved.new.order ≡ moved.old.order }
    ensures places { places_of moved.new.cells ≡ places_of moved.old.cells }
{
    let modes = spec.edit.change(usual_edit());
    match &spec.layout {
        Layout::Unformatted => Ok(leave(&mut moved.cells, None, Condition::UNFIT)),
        Layout::Explicit(format) => {
            read_explicit(alloc, elements, format, spec.advance, modes, moved)
        }
        Layout::Listed => read_listed(alloc, elements, modes, moved),
        Layout::Group(name, members) => read_grouped(
            alloc,
            elements,
            name.bytes(),
            members.as_slice(),
            modes,
            moved,
        ),
    }
}

/// The transfer in error before it begins.
fn refuse(job: &mut Transfer) -> Condition
    ensures taken { taken job.new result ≡ record { cells = with_undefined job.old.moved.cells; count = None; condition = Error 32 } }
    ensures statement { LeavesStatement job.old job.new }
{
    job.count = None;
    job.moved.undefine();
    Condition::LINE_END_HELD
}

/// Reads items into what a statement moves.
fn read_load(
    alloc: Global,
    elements: &[Cell],
    spec: &TransferSpec,
    load: &mut Load,
) -> Result<Performed, AllocError>
    requires ordered { IsOrdered load.old }
    requires few { length load.old.order < 2 ^ 32 }
    requires grouped { All (IsWithin (length load.old.cells)) (members_of spec.now.layout) }
    ensures taken { IfOk result (λ performed. taken_with load.new.cells performed
        ≡ records_taken spec.now.layout (control_of spec.now.layout) spec.now.advance (changed spec.now.edit usual_edit) load.old (records_of elements.now)) }
    ensures order { load.new.order ≡ load.old.order }
    ensures places { places_of load.new.cells ≡ places_of load.old.cells }
{
    let mut moved = load.take(alloc)?;
    let performed = read_cells(alloc, elements, spec, &mut moved);
    *load = Load::of_cells(moved);
    performed
}

/// Reads from elements of which none holds the end of a line.
fn read_records(
    alloc: Global,
    elements: &[Cell],
    job: &mut Transfer,
) -> Result<Condition, AllocError>
    ensures taken { IfOk result (λ condition. taken job.new condition
        ≡ records_taken job.old.spec.layout (control_of job.old.spec.layout) job.old.spec.advance (changed job.old.spec.edit usual_edit) job.old.moved (records_of elements.now)) }
    ensures statement { LeavesStatement job.old job.new }
{
    let performed = read_load(alloc, elements, &job.spec, &mut job.moved)?;
    job.count = performed.count;
    Ok(performed.condition)
}

/// Carries out a READ on an internal file (ISO/IEC 1539-1:2004, 9.3). The values, what SIZE= gets and the condition are those of
/// the transfer on a file of these records, or `LINE_END_HELD` (32) where an element holds a line feed or a carriage return; an
/// unformatted one is `UNFIT` (16). The elements are read where they stand.
pub fn read_internal(
    alloc: Global,
    elements: &Cells,
    job: &mut Transfer,
) -> Result<Condition, AllocError>
    requires { IsInput job.old.spec }
    ensures taken { IfOk result (λ condition. taken job.new condition ≡ read_inside (control_of job.old.spec.layout) elements.now job.old.spec job.old.moved) }
    ensures statement { LeavesStatement job.old job.new }
{
    let elements = elements.as_slice();
    if any_line_end(elements) {
        return Ok(refuse(job));
    }
    read_records(alloc, elements, job)
}
