// Records in memory.
ghost use Rattle.std.specs.Prelude.{◌≢◌, Some};
ghost use Rattle.fj_value.specs.declared.condition.Condition.TheVariants.{Fine};

use crate::records::{More, Records};
use fj_outside::Stop;
use fj_value::{Condition, Items, Text};

/// Records in memory. It has no faults.
#[derive(Debug, Drop)]
pub struct MemoryRecords {
    pub records: Items<Text>,
    /// How many of them were looked at.
    pub looked_at: usize,
    /// The condition that stands behind them, or none at the end.
    pub ending: Option<Condition>,
    ghost refused: { ending ≢ Some Fine },
}

impl Records for MemoryRecords {
    ghost use Rattle.std.specs.Prelude.{drop, length, ◌-◌};

    ghost tells = { λ _. Unit {0} };

    ghost to_come = { λ r. drop r.looked_at r.records };

    ghost ending = { λ r. r.ending };

    ghost bound = { λ r. length r.records - r.looked_at };

    ghost count = { λ _. 0 };

    fn next(&mut self, into: &mut Text) -> Result<More, Stop> {
        if self.looked_at < self.records.len() {
            let record = &self.records.as_slice()[self.looked_at];
            into.clear();
            into.push_all(record.bytes())?;
            self.looked_at += 1;
            return Ok(More::Record);
        }
        match self.ending {
            None => Ok(More::End),
            Some(condition) => Ok(More::Refused(condition)),
        }
    }

    fn faults(&self) -> u64 {
        0
    }
}
