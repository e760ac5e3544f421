// WRITE on an internal file.
ghost use Rattle.std.specs.Prelude.{◌≡◌, ◌<◌, ◌≤◌, ◌+◌, ◌||◌, not, None, length, nat_lt, if◌then◌else◌, IfOk, OnErr};
ghost use Rattle.fj_value.specs.declared.condition.Condition.TheVariants.{Fine, Error};
ghost use Rattle.fj_modes.specs.Limits.{longest_file};
ghost use Rattle.fj_seqrec.specs.Lines.{lines};
ghost use Rattle.fj_transfer.specs.Printing.{control_of};
ghost use Rattle.fj_transfer.specs.Transfer.{ends_record};
ghost use Rattle.fj_internal.specs.Internal.{IsOutput, record_length, put_records, put_if_fine, written_inside};

use crate::elements::{record_length, set_first};
use crate::lines::values_of;
use fj_line::Unwritten;
use fj_modes::{LONGEST_FILE, usual_edit};
use fj_moved::Cells;
use fj_transfer::{Layout, Transfer, TransferSpec, print_onto};
use fj_value::{Condition, Text};
use std::alloc::{AllocError, Global};

/// Gives the lines of bytes to the first elements, or answers error 31. Want of memory changes nothing.
fn put_lines(alloc: Global, bytes: &[u8], elements: &mut Cells) -> Result<Condition, AllocError>
    ensures put { IfOk result (λ condition. record { elements = elements.new; condition = condition } ≡ put_records (lines bytes.now) elements.old) }
    ensures err { OnErr result (elements.new ≡ elements.old) }
{
    match values_of(alloc, bytes, record_length(elements), elements.len())? {
        Some(values) => {
            set_first(elements, values);
            Ok(Condition::Fine)
        }
        None => Ok(Condition::TOO_MANY_RECORDS),
    }
}

/// Whether the last record ends, which ADVANCE='NO' leaves open.
pub(crate) fn ends_record(spec: &TransferSpec) -> bool
    ensures { result ≡ ends_record spec.now }
{
    spec.advance || !matches!(spec.layout, Layout::Explicit(_))
}

/// The condition of bytes that are a whole file: 25 where with the line feed that an open record needs they pass its limit.
pub(crate) fn file_condition(bytes: &[u8], ends: bool) -> Condition
    ensures { result ≡ (if nat_lt longest_file (length bytes.now + (if ends then 0 else 1)) then Error 25 else Fine) }
{
    let feed = if ends { 0 } else { 1 };
    if bytes.len() as u64 + feed > LONGEST_FILE {
        return Condition::FILE_TOO_LONG;
    }
    Condition::Fine
}

/// Puts what was written as a whole into the elements, unless a condition is met.
fn put_text(
    alloc: Global,
    bytes: &[u8],
    ends: bool,
    elements: &mut Cells,
) -> Result<Condition, AllocError>
    ensures put { IfOk result (λ condition. record { elements = elements.new; condition = condition }
        ≡ put_if_fine bytes.now elements.old (if nat_lt longest_file (length bytes.now + (if ends then 0 else 1)) then Error 25 else Fine)) }
    ensures err { OnErr result (elements.new ≡ elements.old) }
{
    match file_condition(bytes, ends) {
        Condition::Fine => put_lines(alloc, bytes, elements),
        condition => Ok(condition),
    }
}

/// Carries out a WRITE on an internal file (ISO/IEC 1539-1:2004, 9.3). Its records replace the first elements, each filled up with
/// blanks; the other elements keep their values. The condition is that of the transfer on an empty file whose records have the
/// length of an element, or `TOO_MANY_RECORDS` (31) where the records are more than the elements. A condition other than `Fine`,
/// and want of memory, leave all elements.
pub fn write_internal(
    alloc: Global,
    elements: &mut Cells,
    job: &mut Transfer,
) -> Result<Condition, AllocError>
    requires { IsOutput job.old.spec }
    ensures put { IfOk result (λ condition. record { elements = elements.new; condition = condition }
        ≡ written_inside (control_of job.old.spec.layout) elements.old job.old.spec job.old.moved) }
    ensures err { OnErr result (elements.new ≡ elements.old) }
    ensures job { job.new ≡ record job.old { count = None } }
{
    job.count = None;
    let mut out = Text::new(alloc);
    let layout = &job.spec.layout;
    let modes = job.spec.edit.change(usual_edit());
    let size = record_length(elements);
    match print_onto(
        layout,
        job.spec.advance,
        modes,
        &job.moved,
        size,
        0,
        &mut out,
    ) {
        Ok(_) => put_text(alloc, out.bytes(), ends_record(&job.spec), elements),
        Err(unwritten) => match unwritten {
            Unwritten::Met(condition) => Ok(condition),
            Unwritten::Memory(error) => Err(error),
        },
    }
}
