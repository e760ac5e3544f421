// The pending transfers that are waited for, as their answers stand.
ghost use Rattle.std.specs.Prelude.{◌≡◌, ◌≢◌, ◌<◌, pos, length, All, HoldsAt, Some, IfSome, IfNone, filter};
ghost use Rattle.fj_bay.specs.Halt.{halts};
ghost use Rattle.fj_meaning.specs.Statement.{has_pending};
ghost use Rattle.fj_run_pending.specs.Plain.{entry_of, entries, holders};
ghost use Rattle.fj_run_pending.specs.Tied.{IsAscending};
ghost use Rattle.fj_run_pending.specs.Waits.{waited_of, widest, picks, is_due, is_cause, IsWide};

use crate::held::Held;
use crate::whose::Whose;
use fj_value::Condition;
use std::collections::VecDeque;

#[derive(Clone, Copy, PartialEq, Eq)]
pub(crate) enum Pick {
    None,
    OfUnit(u32),
    One(u32),
    All,
}

impl Pick {
    /// Whether a transfer is one of them.
    pub(crate) fn takes(self, held: &Held) -> bool
        ensures { result ≡ picks self held.now }
    {
        match self {
            Pick::None => false,
            Pick::OfUnit(unit) => held.unit == unit,
            Pick::One(id) => held.tag.0 == id,
            Pick::All => true,
        }
    }

    /// Whether a transfer is one of them, and has no answer.
    pub(crate) fn awaits(self, held: &Held) -> bool
        ensures { result ≡ is_due self held.now }
    {
        self.takes(held) && held.answer.is_none()
    }
}

/// An error or the end of the file.
pub(crate) fn halts(condition: Condition) -> bool
    ensures { result ≡ halts condition }
{
    match condition {
        Condition::Fine | Condition::EndOfRecord => false,
        Condition::EndOfFile | Condition::Error(_) => true,
    }
}

/// The condition of a transfer; without an answer it is fine.
pub(crate) fn condition_of(held: &Held) -> Condition
    ensures { result ≡ (entry_of held.now).condition }
{
    match &held.answer {
        None => Condition::Fine,
        Some(told) => told.condition,
    }
}

/// Whether a transfer is one of them, and is of the unit and halted it.
pub(crate) fn causes(pick: Pick, unit: u32, held: &Held) -> bool
    ensures { result ≡ is_cause pick unit held.now }
{
    pick.takes(held) && (held.unit == unit && halts(condition_of(held)))
}

/// Where the transfer of an identifier stands.
pub(crate) fn place_of(helds: &VecDeque<Held>, id: u64) -> Option<usize>
    requires { IsAscending helds.now.items }
    ensures some { IfSome result (λ at. (at < length helds.now.items) × HoldsAt (λ h. h.tag.0 ≡ id) helds.now.items at) }
    ensures none { IfNone result (All (λ h. h.tag.0 ≢ id) helds.now.items) }
{
    let at = helds.partition_point(|held| (held.tag.0 as u64) < id);
    if at >= helds.len() {
        return None;
    }
    if u64::from(helds[at].tag.0) != id {
        return None;
    }
    Some(at)
}

/// Whether the transfer of an identifier is pending on a unit.
fn has_number(helds: &VecDeque<Held>, unit: u32, id: u64) -> bool
    requires { IsAscending helds.now.items }
    ensures { result ≡ has_pending (holders helds.now.items) (Some unit) (Some (pos id)) }
{
    match place_of(helds, id) {
        Some(at) => helds[at].unit == unit,
        None => false,
    }
}

/// The same of a value of ID=, which may be below 0.
pub(crate) fn has_id(helds: &VecDeque<Held>, unit: u32, id: i64) -> bool
    requires { IsAscending helds.now.items }
    ensures { result ≡ has_pending (holders helds.now.items) (Some unit) (Some id) }
{
    if id < 0 {
        return false;
    }
    has_number(helds, unit, id.unsigned_abs())
}

/// The transfer of an identifier on a unit, or, where it halted the unit, all of that.
fn picked_by(helds: &VecDeque<Held>, unit: u32, id: u64) -> Pick
    requires { IsAscending helds.now.items }
    ensures picked { waited_of (Whose.OfId unit (pos id)) (entries helds.now.items) ≡ entries (filter (picks result) helds.now.items) }
    ensures wide { IsWide (waited_of (Whose.OfUnit unit) (entries helds.now.items)) result helds.now.items }
{
    let Some(at) = place_of(helds, id) else {
        return Pick::None;
    };
    let held = &helds[at];
    if held.unit != unit {
        return Pick::None;
    }
    if halts(condition_of(held)) {
        return Pick::OfUnit(unit);
    }
    Pick::One(held.tag.0)
}

/// Those that are waited for.
pub(crate) fn picked(helds: &VecDeque<Held>, whose: Whose) -> Pick
    requires { IsAscending helds.now.items }
    ensures picked { waited_of whose (entries helds.now.items) ≡ entries (filter (picks result) helds.now.items) }
    ensures wide { IsWide (waited_of (widest whose) (entries helds.now.items)) result helds.now.items }
{
    match whose {
        Whose::None => Pick::None,
        Whose::OfUnit(unit) => Pick::OfUnit(unit),
        Whose::OfId(unit, id) => {
            if id < 0 {
                return Pick::None;
            }
            picked_by(helds, unit, id.unsigned_abs())
        }
        Whose::All => Pick::All,
    }
}
