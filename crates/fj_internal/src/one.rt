// WRITE on an internal file of one element, by the value that this gets.
ghost use Rattle.std.specs.Prelude.{◌≡◌, ◌+◌, ◌∷◌, [], nat_lt, length, if◌then◌else◌, IfOk};
ghost use Rattle.fj_value.specs.declared.value.Cell.{Cell as AnyCell};
ghost use Rattle.fj_value.specs.declared.condition.Condition.TheVariants.{Fine, Error};
ghost use Rattle.fj_modes.specs.Limits.{longest_file};
ghost use Rattle.fj_seqrec.specs.Lines.{lines};
ghost use Rattle.fj_moved.specs.Items.{items_left};
ghost use Rattle.fj_transfer.specs.Printing.{IsOfItems};
ghost use Rattle.fj_internal.specs.Internal.{IsOutput, record_length, put_records, put_if_fine};
ghost use Rattle.fj_internal.specs.OneElement.{PutsOne, put_one};

use crate::lines::{feed_place, line_length};
use crate::write::{ends_record, file_condition};
use fj_line::Unwritten;
use fj_modes::usual_edit;
use fj_moved::OutputItems;
use fj_transfer::{TransferSpec, print_items_onto};
use fj_value::{Condition, Text, Value};
use std::alloc::{AllocError, Global};

/// What a WRITE leaves of the one element of an internal file.
#[derive(Drop)]
pub enum One {
    /// It has this value, and the condition is `Fine`.
    Put(Value),
    /// It keeps its value.
    Kept(Condition),
}

/// Bytes as the one record of an element of a length.
fn one_line(bytes: Text, size: u32) -> Result<One, AllocError>
    ensures { IfOk result (λ one. (cell : AnyCell) → record_length (cell ∷ []) ≡ size → put_records (lines bytes) (cell ∷ []) ≡ put_one cell one) }
{
    if bytes.is_empty() {
        return Ok(One::Kept(Condition::Fine));
    }
    let place = feed_place(bytes.bytes());
    if place < bytes.len() - 1 {
        return Ok(One::Kept(Condition::TOO_MANY_RECORDS));
    }
    let count = line_length(bytes.bytes(), place);
    let mut text = bytes;
    text.truncate(count);
    text.assign_length(size)?;
    Ok(One::Put(Value::of_text(text)?))
}

/// The same, unless as a file they are too long.
fn one_text(bytes: Text, ends: bool, size: u32) -> Result<One, AllocError>
    ensures { IfOk result (λ one. (cell : AnyCell) → record_length (cell ∷ []) ≡ size
        → put_if_fine bytes (cell ∷ []) (if nat_lt longest_file (length bytes + (if ends then 0 else 1)) then Error 25 else Fine) ≡ put_one cell one) }
{
    match file_condition(bytes.bytes(), ends) {
        Condition::Fine => one_line(bytes, size),
        condition => Ok(One::Kept(condition)),
    }
}

/// What a WRITE of items puts into an internal file of one element of a length, as `write_internal` puts it, with its conditions
/// (ISO/IEC 1539-1:2004, 9.3). The text that is printed becomes the value.
pub fn write_one(
    alloc: Global,
    size: u32,
    spec: &TransferSpec,
    items: OutputItems,
) -> Result<One, AllocError>
    requires output { IsOutput spec.now }
    requires items { IsOfItems spec.now.layout }
    ensures { IfOk result (PutsOne size spec.now (items_left items.entry)) }
{
    let mut out = Text::new(alloc);
    out.reserve(size as usize + 1)?;
    let modes = spec.edit.change(usual_edit());
    match print_items_onto(&spec.layout, spec.advance, modes, items, size, 0, &mut out) {
        Ok(_) => one_text(out, ends_record(spec), size),
        Err(Unwritten::Met(condition)) => Ok(One::Kept(condition)),
        Err(Unwritten::Memory(error)) => Err(error),
    }
}
