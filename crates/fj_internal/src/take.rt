// READ on an internal file of one element, by its characters.
ghost use Rattle.std.specs.Prelude.{◌≡◌, ◌<◌, ◌^◌, ◌∷◌, [], length, IfOk};
ghost use Rattle.fj_control.specs.Steps.{steps};
ghost use Rattle.fj_moved.specs.Cells.{places_of};
ghost use Rattle.fj_moved.specs.Moved.{IsOrdered};
ghost use Rattle.fj_transfer.specs.Printing.{IsOfItems};
ghost use Rattle.fj_internal.specs.Internal.{IsInput};
ghost use Rattle.fj_internal.specs.OneElement.{TakesOne};
ghost use Rattle.fj_internal.specs.Records.{explicit_taken, listed_taken, taken_with};

use crate::elements::holds_line_end;
use crate::read::{leave, read_from, unstopped};
use fj_format::Format;
use fj_list::{More, Records, read_list};
use fj_modes::{LONGEST_FORMATTED, usual_edit};
use fj_moved::Moved;
use fj_outside::Stop;
use fj_transfer::{Layout, Performed, TransferSpec};
use fj_value::{Condition, EditModes, Text};
use std::alloc::{AllocError, Global};

/// The characters of one element, which were looked at or not. It has no faults.
#[derive(Drop)]
pub struct Alone<'a> {
    pub text: &'a [u8],
    pub ahead: bool,
}

impl Records for Alone<'_> {
    ghost use Rattle.std.specs.Prelude.{if◌then◌else◌};
    ghost use Rattle.fj_modes.specs.Limits.{longest_formatted};
    ghost use Rattle.fj_transfer.specs.Ahead.{ending_of};
    ghost use Rattle.fj_transfer.specs.Transfer.{up_to_excess, behind_them};
    ghost use Rattle.fj_internal.specs.OneElement.{one_ahead};

    ghost tells = { λ _. Unit {0} };

    ghost to_come = { λ r. up_to_excess longest_formatted (one_ahead r.ahead r.text.now) };

    ghost ending = { λ r. ending_of (behind_them longest_formatted (one_ahead r.ahead r.text.now)) };

    ghost bound = { λ r. if r.ahead then 1 else 0 };

    ghost count = { λ _. 0 };

    fn next(&mut self, into: &mut Text) -> Result<More, Stop> {
        if !self.ahead {
            return Ok(More::End);
        }
        if self.text.len() > LONGEST_FORMATTED as usize {
            return Ok(More::Refused(Condition::RECORD_TOO_LONG));
        }
        into.clear();
        into.push_all(self.text)?;
        self.ahead = false;
        Ok(More::Record)
    }

    fn faults(&self) -> u64 {
        0
    }
}

/// Reads items under an explicit format.
fn take_explicit(
    alloc: Global,
    text: &[u8],
    format: &Format,
    advance: bool,
    modes: EditModes,
    moved: &mut Moved,
) -> Result<Performed, AllocError>
    requires ordered { IsOrdered moved.old }
    requires few { length moved.old.order < 2 ^ 32 }
    ensures taken { IfOk result (λ performed. taken_with moved.new.cells performed
        ≡ explicit_taken advance modes (steps format.now (length moved.old.order)) moved.old (text.now ∷ [])) }
    ensures order { moved.new.order ≡ moved.old.order }
    ensures places { places_of moved.new.cells ≡ places_of moved.old.cells }
{
    if text.len() > LONGEST_FORMATTED as usize {
        return Ok(leave(&mut moved.cells, None, Condition::RECORD_TOO_LONG));
    }
    read_from(alloc, text, &[], format, advance, modes, moved)
}

/// Reads items by list-directed formatting.
fn take_listed(
    alloc: Global,
    text: &[u8],
    modes: EditModes,
    moved: &mut Moved,
) -> Result<Performed, AllocError>
    requires { IsOrdered moved.old }
    ensures taken { IfOk result (λ performed. taken_with moved.new.cells performed ≡ listed_taken modes moved.old (text.now ∷ [])) }
    ensures order { moved.new.order ≡ moved.old.order }
    ensures places { places_of moved.new.cells ≡ places_of moved.old.cells }
{
    let mut records = Alone { text, ahead: true };
    let condition = unstopped(read_list(alloc, &mut records, moved, modes))?;
    Ok(leave(&mut moved.cells, None, condition))
}

/// What a READ of items takes from an internal file of one element of these characters, as `read_internal` takes it, with its
/// conditions (ISO/IEC 1539-1:2004, 9.3).
pub fn read_one(
    alloc: Global,
    text: &[u8],
    spec: &TransferSpec,
    moved: &mut Moved,
) -> Result<Performed, AllocError>
    requires input { IsInput spec.now }
    requires items { IsOfItems spec.now.layout }
    requires ordered { IsOrdered moved.old }
    requires few { length moved.old.order < 2 ^ 32 }
    ensures taken { IfOk result (TakesOne text.now spec.now moved.old moved.new.cells) }
    ensures order { moved.new.order ≡ moved.old.order }
    ensures places { places_of moved.new.cells ≡ places_of moved.old.cells }
{
    if holds_line_end(text) {
        return Ok(leave(&mut moved.cells, None, Condition::LINE_END_HELD));
    }
    let modes = spec.edit.change(usual_edit());
    match &spec.layout {
        Layout::Explicit(format) => {
            take_explicit(alloc, text, format, spec.advance, modes, moved)
        }
        Layout::Listed => take_listed(alloc, text, modes, moved),
        Layout::Unformatted | Layout::Group(_, _) => unreachable!(),
    }
}
