// Elements one after another, as the records that list-directed and namelist input looks at (ISO/IEC 1539-1:2004, 9.3).
use crate::elements::characters;
use fj_list::{More, Records};
use fj_modes::LONGEST_FORMATTED;
use fj_outside::Stop;
use fj_value::{Cell, Condition, Text};

/// The elements that were not looked at. It has no faults.
#[derive(Drop)]
pub struct Ahead<'a> {
    pub elements: &'a [Cell],
}

impl Records for Ahead<'_> {
    ghost use Rattle.std.specs.Prelude.{length};
    ghost use Rattle.fj_modes.specs.Limits.{longest_formatted};
    ghost use Rattle.fj_transfer.specs.Ahead.{ending_of};
    ghost use Rattle.fj_transfer.specs.Transfer.{up_to_excess, behind_them};
    ghost use Rattle.fj_internal.specs.Internal.{records_of};

    ghost tells = { λ _. Unit {0} };

    ghost to_come = { λ r. up_to_excess longest_formatted (records_of r.elements.now) };

    ghost ending = { λ r. ending_of (behind_them longest_formatted (records_of r.elements.now)) };

    ghost bound = { λ r. length r.elements.now };

    ghost count = { λ _. 0 };

    fn next(&mut self, into: &mut Text) -> Result<More, Stop> {
        let Some((element, behind)) = self.elements.split_first() else {
            return Ok(More::End);
        };
        let record = characters(element);
        if record.len() > LONGEST_FORMATTED as usize {
            return Ok(More::Refused(Condition::RECORD_TOO_LONG));
        }
        into.clear();
        into.push_all(record)?;
        self.elements = behind;
        Ok(More::Record)
    }

    fn faults(&self) -> u64 {
        0
    }
}
