// Where list-directed and namelist input take their records from (ISO/IEC 1539-1:2004, 10.9.1 and 10.10.1).
ghost use Rattle.std.specs.Prelude.{◌≡◌, ◌≢◌, ◌<◌, ◌≤◌, ◌↔◌, List, ℕ, Option, None, IfOk};
ghost use Rattle.fj_outside.specs.Faults.{Rose};
ghost use Rattle.fj_value.specs.declared.condition.Condition.{Condition};
ghost use Rattle.fj_list.specs.ListInput.{condition_of};
ghost use Rattle.fj_list.specs.Records.{Brings, IsNext};

use fj_outside::Stop;
use fj_value::{Condition, Text};

/// What is there in place of a next record.
#[derive(Clone, Copy, Debug, PartialEq, Eq)]
pub enum More {
    /// The next record.
    Record,
    /// The end of the records.
    End,
    /// The condition of a record that cannot be had. It is never `Fine`.
    Refused(Condition),
}

/// Records one after another. The clauses on what they are hold where it tells, up to a `Stop`.
pub trait Records {
    /// Whether it tells what is to come.
    ghost tells: { Self → Type 0 };

    /// The records still to come.
    ghost to_come: { Self → List (List ℕ) };

    /// The condition that stands behind them, or none at the end.
    ghost ending: { Self → Option Condition };

    /// No fewer than the records still to come, told or not.
    ghost bound: { Self → ℕ };

    /// Its count of faults.
    ghost count: { Self → ℕ };

    /// The name of the reference that it reads through, where it holds one. It reads through no other.
    ghost source: { Self → ℕ } = { λ _. 0 };

    /// Replaces a text by the characters of the next record. After any other answer nothing is said of the text.
    fn next(&mut self, into: &mut Text) -> Result<More, Stop>
        ensures telling { tells self.old ↔ tells self.new }
        ensures contents { tells self.old → IfOk result (λ more.
            Brings more (to_come self.old) (ending self.old) into.new (to_come self.new)) }
        ensures same { tells self.old → IfOk result (λ _. ending self.new ≡ ending self.old) }
        ensures refused { IfOk result (λ more. more ≢ More.Refused Condition.Fine) }
        ensures fewer { result ≡ Ok More.Record → bound self.new < bound self.old }
        ensures bounded { bound self.new ≤ bound self.old }
        ensures source { source self.new ≡ source self.old }
        ensures later { count self.old ≤ count self.new }
        ensures failed { result ≡ Err Stop.Failed → Rose (count self.old) (count self.new) };

    /// How many faults it had. The count stays at `u64::MAX` once it is there.
    fn faults(&self) -> u64
        ensures { result ≡ count self.now };
}

/// Replaces a text by the next record. Where there is none it answers the condition in which the records end, which is never
/// `Fine`.
pub fn next_line<R: Records>(records: &mut R, line: &mut Text) -> Result<Option<Condition>, Stop>
    ensures telling { R.tells records.old ↔ R.tells records.new }
    ensures contents { R.tells records.old → IfOk result (λ end. IsNext end
        (R.to_come records.old) (condition_of (R.ending records.old)) line.new (R.to_come records.new)) }
    ensures same { R.tells records.old → IfOk result (λ _. R.ending records.new ≡ R.ending records.old) }
    ensures fewer { result ≡ Ok None → R.bound records.new < R.bound records.old }
    ensures source { R.source records.new ≡ R.source records.old }
    ensures later { R.count records.old ≤ R.count records.new }
    ensures failed { result ≡ Err Stop.Failed → Rose (R.count records.old) (R.count records.new) }
{
    match records.next(line)? {
        More::Record => Ok(None),
        More::End => Ok(Some(Condition::EndOfFile)),
        More::Refused(condition) => Ok(Some(condition)),
    }
}
