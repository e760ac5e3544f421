// The units that may have pending transfers, each with the lowest identifier that one may have, so that no transfer of another unit and
// none before them is looked for.
ghost use Rattle.std.specs.Prelude.{◌≡◌, ◌≢◌, ◌==◌, ◌<◌, ◌≤◌, All, find, take};
ghost use Rattle.std.specs.Option.{option_map};
ghost use Rattle.std.specs.Vec.{vec_len, vec_capacity};
ghost use Rattle.fj_run_pending.specs.Busy.{AreBusy, first_of, may_have, with_transfer, without_unit, without_told};
ghost use Rattle.fj_run_pending.specs.Tied.{IsAscending};

use crate::answers::below;
use crate::held::Held;
use crate::pick::Pick;
use fj_value::Tag;
use std::collections::VecDeque;

/// A unit that may have pending transfers.
#[derive(Clone, Copy)]
pub(crate) struct Busy {
    pub unit: u32,
    /// None of them has a lower identifier.
    pub first: Tag,
}

/// The lowest identifier that a transfer of a unit may have; none where the unit can have no transfer.
pub(crate) fn first_of(busy: &Vec<Busy>, unit: u32) -> Option<Tag>
    ensures { result ≡ first_of busy.now.items unit }
{
    for at in 0..busy.len() {
        let one = busy[at];
        if one.unit == unit {
            return Some(one.first);
        }
    }
    None
}

/// Whether a transfer of a unit may have an identifier.
fn may_have(busy: &Vec<Busy>, unit: u32, id: Tag) -> bool
    ensures { result ≡ may_have busy.now.items unit id.0 }
{
    match first_of(busy, unit) {
        Some(first) => first.0 <= id.0,
        None => false,
    }
}

/// Takes a unit off.
fn take_off(busy: &mut Vec<Busy>, unit: u32)
    ensures left { busy.new.items ≡ without_unit unit busy.old.items }
    ensures length { vec_len busy.new ≤ vec_len busy.old }
    ensures capacity { vec_capacity busy.new ≡ vec_capacity busy.old }
{
    busy.retain(|one| one.unit != unit);
}

/// Adds the unit of a transfer, or lowers its lowest identifier, where that is needed.
pub(crate) fn add_transfer(busy: &mut Vec<Busy>, unit: u32, id: Tag)
    requires { vec_len busy.old < vec_capacity busy.old }
    ensures { busy.new.items ≡ with_transfer busy.old.items unit id }
{
    if !may_have(busy, unit, id) {
        take_off(busy, unit);
        busy.push_reserved(Busy { unit, first: id });
    }
}

/// The identifier of the first transfer of a unit, of which none stands before the place.
fn first_from(helds: &VecDeque<Held>, unit: u32, from: usize) -> Option<Tag>
    requires { All (λ h. h.unit ≢ unit) (take from helds.now.items) }
    ensures { result ≡ option_map (λ h. h.tag) (find (λ h. h.unit == unit) helds.now.items) }
{
    for at in from..helds.len() {
        let held = &helds[at];
        if held.unit == unit {
            return Some(held.tag);
        }
    }
    None
}

/// The identifier of the first transfer of a unit, without a look where it can have none, or before its lowest identifier.
pub(crate) fn first_of_unit(helds: &VecDeque<Held>, busy: &Vec<Busy>, unit: u32) -> Option<Tag>
    requires ascending { IsAscending helds.now.items }
    requires busy { AreBusy busy.now.items helds.now.items }
    ensures { result ≡ option_map (λ h. h.tag) (find (λ h. h.unit == unit) helds.now.items) }
{
    let Some(first) = first_of(busy, unit) else {
        return None;
    };
    first_from(helds, unit, below(helds, u64::from(first.0)))
}

/// Raises the lowest identifier of a unit to that of its first transfer, or takes the unit off where it has none, so that a look for
/// its transfers begins at one.
fn tighten(helds: &VecDeque<Held>, busy: &mut Vec<Busy>, unit: u32)
    requires ascending { IsAscending helds.now.items }
    requires busy { AreBusy busy.old.items helds.now.items }
    requires room { vec_len busy.old < vec_capacity busy.old }
    ensures { AreBusy busy.new.items helds.now.items }
{
    let first = first_of_unit(helds, busy, unit);
    take_off(busy, unit);
    if let Some(first) = first {
        add_transfer(busy, unit, first);
    }
}

/// Takes the units off of which all transfers are told. Where one transfer was told alone, the lowest identifier of its unit is raised.
pub(crate) fn forget(
    helds: &VecDeque<Held>,
    busy: &mut Vec<Busy>,
    pick: Pick,
    told: &VecDeque<Held>,
)
    requires ascending { IsAscending helds.now.items }
    requires busy { AreBusy (without_told pick busy.old.items) helds.now.items }
    requires room { vec_len busy.old < vec_capacity busy.old }
    ensures { AreBusy busy.new.items helds.now.items }
{
    match pick {
        Pick::None => {}
        Pick::OfUnit(unit) => take_off(busy, unit),
        Pick::One(_) => {
            if let Some(held) = told.front() {
                tighten(helds, busy, held.unit);
            }
        }
        Pick::All => busy.clear(),
    }
}
