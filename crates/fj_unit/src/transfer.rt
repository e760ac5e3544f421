// The transfers of a statement: values of one kind, one behind the other.
ghost use Rattle.std.specs.Prelude.{◌≡◌, ◌<◌, ◌^◌, [], length, map, replicate, IfOk, IsTrue};
ghost use Rattle.fj_value.specs.declared.value.Cell.{Cell as PlainCell};
ghost use Rattle.fj_value.specs.declared.value.Value.TheVariants.{Undefined, Int};
ghost use Rattle.fj_transfer.specs.Moving.{members_of};
ghost use Rattle.fj_bay.specs.Jobs.{move};
ghost use Rattle.fj_unit.specs.Held.{task};
ghost use Rattle.fj_unit.specs.Statements.{moving, values_in};

use fj_bay::Job;
use fj_moved::{Elements, Load, Row, Shape};
use fj_outside::MemoryFile;
use fj_transfer::{EditChange, Layout, Transfer, TransferSpec};
use fj_value::{Boxed, Cell, Items, Kind, Place, Tag, Value};
use std::alloc::{AllocError, Global};

/// The values of INTEGER(8) numbers.
pub(crate) fn values_of(alloc: Global, numbers: &[i64]) -> Result<Items<Value>, AllocError>
    ensures { IfOk result (λ values. values ≡ map Int numbers.now) }
{
    let mut values = Items::new(alloc);
    values.reserve(numbers.len())?;
    for n in numbers {
        values.push(Value::Int(*n))?;
    }
    Ok(values)
}

/// The values of INTEGER(4) numbers.
pub(crate) fn short_values_of(alloc: Global, numbers: &[i32]) -> Result<Items<Value>, AllocError>
    ensures { IfOk result (λ values. values ≡ map Int numbers.now) }
{
    let mut values = Items::new(alloc);
    values.reserve(numbers.len())?;
    for n in numbers {
        values.push(Value::Int(i64::from(*n)))?;
    }
    Ok(values)
}

/// So many values that are not defined.
pub(crate) fn undefined(alloc: Global, count: usize) -> Result<Items<Value>, AllocError>
    ensures { IfOk result (λ values. values ≡ replicate count Undefined) }
{
    let mut values = Items::new(alloc);
    values.reserve(count)?;
    for _ in 0..count {
        values.push(Value::Undefined)?;
    }
    Ok(values)
}

/// The job of a READ or WRITE of these values.
pub(crate) fn transfer_job(
    alloc: Global,
    tag: u32,
    input: bool,
    layout: Layout,
    kind: Kind,
    values: Items<Value>,
) -> Result<Job<MemoryFile>, AllocError>
    requires few { length values < 2 ^ 32 }
    requires alone { members_of layout ≡ [] }
    ensures { IfOk result (λ job. task job ≡ move (moving tag input layout kind values)) }
{
    let transfer = Transfer {
        stmt: 0,
        tag: Tag(tag),
        spec: TransferSpec {
            input,
            layout,
            advance: true,
            rec: None,
            pos: None,
            edit: EditChange {
                blank_zero: None,
                comma: None,
                delim: None,
                pad: None,
                plus: None,
            },
        },
        moved: Load::of_row(Row {
            first: Place { var: 0, index: 1 },
            kind,
            values: Elements::of(values),
        }),
        size: None,
        count: None,
    };
    Ok(Job::Move(Boxed::new(alloc, transfer)?))
}

/// Copies the values of a READ into an array, where all of them are integers, and there are as many.
fn copy_values(values: &[Value], out: &mut [i64]) -> bool
    ensures { IsTrue result → map Int out.new ≡ values.now }
{
    if values.len() != out.len() {
        return false;
    }
    for at in 0..values.len() {
        let Value::Int(n) = &values[at] else {
            return false;
        };
        out[at] = *n;
    }
    true
}

/// The same of cells.
fn copy_cells(cells: &[Cell], out: &mut [i64]) -> bool
    ensures { IsTrue result → map Int out.new ≡ map (λ (cell : PlainCell). cell.value) cells.now }
{
    if cells.len() != out.len() {
        return false;
    }
    for at in 0..cells.len() {
        let Value::Int(n) = &cells[at].value else {
            return false;
        };
        out[at] = *n;
    }
    true
}

/// Copies what a READ that was told read into an array.
#[tactic(auto, using(crate::proofs::Rows::row_values))]
pub fn copy_read(job: &Job<MemoryFile>, out: &mut [i64]) -> bool
    ensures { IsTrue result → map Int out.new ≡ values_in (task job.now) }
{
    let Job::Move(transfer) = job else {
        return false;
    };
    match transfer.get().moved.shape() {
        Shape::Cells(moved) => copy_cells(moved.cells.as_slice(), out),
        Shape::Row(row) => copy_values(row.values.as_slice(), out),
    }
}
