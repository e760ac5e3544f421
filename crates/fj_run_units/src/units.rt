// The connected units.
ghost use Rattle.std.specs.Prelude.{◌≡◌, false, ◌+◌, ◌≤◌, ◌<◌, ◌++◌, ℕ, List, [], None, Some, length, map, filter, nat_lt, slice_get, HoldsAt, IfOk, IfSome, IfNone, OnOk};
ghost use Rattle.std.specs.Option.{option_copied, option_map, option_and_then};
ghost use Rattle.fj_meaning_jobs.specs.Core.{Connected as PlainConnected, connected_at, unit_named, inserted, without_connected};
ghost use Rattle.fj_meaning_jobs.specs.Desks.{most_slots};
ghost use Rattle.fj_meaning.specs.Needs.{number_of};
ghost use Rattle.fj_meaning_jobs.specs.Acting as acting;
ghost use Rattle.fj_run_units.specs.Having.{HaveFiles};
ghost use Rattle.fj_run_units.specs.Names.{left_of};
ghost use Rattle.fj_run_units.specs.Units.{AreApart, connected_of, has_slot, is_taken, with_modes};

use crate::connected::Connected;
use fj_modes::{FileName, Modes};
use fj_statement::UnitRef;
use std::alloc::{AllocError, Global};
use std::marker::Model;

/// How many slots there are.
const MOST_SLOTS: u32 = 16;

/// The connected units, in ascending order of their numbers, each at a slot of its own.
#[derive(Drop)]
pub struct Units {
    list: Vec<Connected>,
}

impl Model for Units {
    ghost use Rattle.std.specs.Prelude.{List, map};
    ghost use Rattle.fj_meaning_jobs.specs.Core.{Connected};
    ghost use Rattle.fj_run_units.specs.Units.{StandApart, connected_of};

    ghost Value = { List Connected };

    ghost view = { λ units. map connected_of units.list.items };

    ghost invariant = { λ units. StandApart (map connected_of units.list.items) };
}

/// The unit of a number.
fn find_in(list: &[Connected], number: u32) -> Option<&Connected>
    ensures { option_map connected_of (option_copied result) ≡ connected_at (map connected_of list.now) number }
{
    for at in 0..list.len() {
        let unit = &list[at];
        if unit.number == number {
            return Some(unit);
        }
    }
    None
}

/// The number of the unit that a file is connected to.
fn named_in(list: &[Connected], name: &FileName) -> Option<u32>
    ensures { result ≡ unit_named (map connected_of list.now) name.now }
{
    for at in 0..list.len() {
        let unit = &list[at];
        if unit.name.as_str() == name.as_str() {
            return Some(unit.number);
        }
    }
    None
}

/// Whether a file is connected to another unit than that of a number.
fn is_taken_in(list: &[Connected], number: u32, name: &FileName) -> bool
    ensures { result ≡ is_taken (map connected_of list.now) number name.now }
{
    for at in 0..list.len() {
        let unit = &list[at];
        if unit.number != number && unit.name.as_str() == name.as_str() {
            return true;
        }
    }
    false
}

/// Whether a unit has a slot.
fn has_slot_in(list: &[Connected], slot: u32) -> bool
    ensures { result ≡ has_slot (map connected_of list.now) slot }
{
    for at in 0..list.len() {
        if list[at].slot == slot {
            return true;
        }
    }
    false
}

/// The lowest of so many slots from this one on that no unit has.
fn free_from(list: &[Connected], slot: u32, count: u32) -> Option<u32>
    requires { slot + count ≤ 16 }
    ensures free { result ≡ acting.free_from (map connected_of list.now) slot count }
    ensures place { IfSome result (λ free. free < slot + count) }
    ensures own { IfSome result (λ free. has_slot (map connected_of list.now) free ≡ false) }
{
    if count == 0 {
        return None;
    }
    if !has_slot_in(list, slot) {
        return Some(slot);
    }
    free_from(list, slot + 1, count - 1)
}

/// Where the unit of a number stands; the length, where there is none.
fn place_of(list: &[Connected], number: u32) -> Option<usize>
    ensures some { IfSome result (λ at. (at < length list.now) × HoldsAt (λ u. u.number ≡ number) list.now at) }
    ensures none { IfNone result (connected_at (map connected_of list.now) number ≡ None) }
{
    for at in 0..list.len() {
        if list[at].number == number {
            return Some(at);
        }
    }
    None
}

/// Adds the units with numbers below one to the first, and those above it to the second.
#[tactic(auto, using(crate::proofs::UnitLemmas::filter_push))]
fn split(
    list: Vec<Connected>,
    number: u32,
    below: &mut Vec<Connected>,
    above: &mut Vec<Connected>,
) -> Result<(), AllocError>
    ensures below { OnOk result (below.new.items ≡ below.old.items ++ filter (λ u. nat_lt u.number number) list.items) }
    ensures above { OnOk result (above.new.items ≡ above.old.items ++ filter (λ u. nat_lt number u.number) list.items) }
{
    for unit in list {
        if unit.number < number {
            below.push(unit)?;
        } else if unit.number > number {
            above.push(unit)?;
        }
    }
    Ok(())
}

/// Adds units behind others.
fn append(list: &mut Vec<Connected>, more: Vec<Connected>) -> Result<(), AllocError>
    ensures { OnOk result (list.new.items ≡ list.old.items ++ more.items) }
{
    for unit in more {
        list.push(unit)?;
    }
    Ok(())
}

/// The same unit once more.
fn copied(unit: &Connected) -> Result<Connected, AllocError>
    ensures { IfOk result (λ copy. connected_of copy ≡ connected_of unit.now) }
{
    Ok(Connected {
        number: unit.number,
        slot: unit.slot,
        name: unit.name.try_clone()?,
        modes: unit.modes,
    })
}

/// Adds copies of units behind others.
#[tactic(auto, using(crate::proofs::UnitLemmas::map_push))]
fn append_copies(list: &mut Vec<Connected>, units: &[Connected]) -> Result<(), AllocError>
    ensures { OnOk result (map connected_of list.new.items ≡ map connected_of list.old.items ++ map connected_of units.now) }
{
    for unit in units {
        let copy = copied(unit)?;
        list.push(copy)?;
    }
    Ok(())
}

impl Units {
    /// No units.
    pub fn new(alloc: Global) -> Units
        ensures { result ≡ [] }
    {
        Units {
            list: Vec::new(alloc),
        }
    }

    /// The unit of a number.
    pub fn find(&self, number: u32) -> Option<&Connected>
        ensures { option_map connected_of (option_copied result) ≡ connected_at self.now number }
    {
        find_in(&self.list, number)
    }

    /// The unit that a statement names; none for `*`.
    pub fn at(&self, unit: UnitRef) -> Option<&Connected>
        ensures { option_map connected_of (option_copied result) ≡ option_and_then (connected_at self.now) (number_of unit) }
    {
        match unit.number() {
            None => None,
            Some(number) => self.find(number),
        }
    }

    /// The number of the unit that a file is connected to.
    pub fn named(&self, name: &FileName) -> Option<u32>
        ensures { result ≡ unit_named self.now name.now }
    {
        named_in(&self.list, name)
    }

    /// The first unit. No other has its number.
    pub fn first(&self) -> Option<&Connected>
        ensures unit { option_map connected_of (option_copied result) ≡ slice_get self.now 0 }
        ensures apart { AreApart self.now }
    {
        self.list.first()
    }

    /// The units, in ascending order of their numbers; there are no more than slots.
    pub fn as_slice(&self) -> &[Connected]
        ensures units { map connected_of result.now ≡ self.now }
        ensures few { length self.now ≤ most_slots }
    {
        &self.list
    }

    /// Whether a file is connected to another unit than that of a number.
    pub fn is_taken(&self, number: u32, name: &FileName) -> bool
        ensures { result ≡ is_taken self.now number name.now }
    {
        is_taken_in(&self.list, number, name)
    }

    /// The lowest slot that no unit has.
    pub fn free_slot(&self) -> Option<u32>
        ensures free { result ≡ acting.free_from self.now 0 most_slots }
        ensures place { IfSome result (λ slot. slot < most_slots) }
        ensures own { IfSome result (λ slot. has_slot self.now slot ≡ false) }
    {
        free_from(&self.list, 0, MOST_SLOTS)
    }

    /// Whether a unit has a slot.
    pub fn has_slot(&self, slot: u32) -> bool
        ensures { result ≡ has_slot self.now slot }
    {
        has_slot_in(&self.list, slot)
    }

    /// Adds a unit at a free slot, in place of one of its number. After want of memory the units are of no account.
    pub fn insert(&mut self, new: Connected) -> Result<(), AllocError>
        requires { has_slot self.old new.slot ≡ false }
        ensures { OnOk result (self.new ≡ inserted (connected_of new) self.old) }
    {
        let alloc = *self.list.allocator();
        let mut list = Vec::new(alloc);
        let mut above = Vec::new(alloc);
        let old = std::mem::replace(&mut self.list, Vec::new(alloc));
        split(old, new.number, &mut list, &mut above)?;
        list.push(new)?;
        append(&mut list, above)?;
        self.list = list;
        Ok(())
    }

    /// These units and one more at a free slot, in place of one of its number.
    pub fn with(&self, new: Connected) -> Result<Units, AllocError>
        requires { has_slot self.now new.slot ≡ false }
        ensures { IfOk result (λ units. units ≡ inserted (connected_of new) self.now) }
    {
        let mut list = Vec::new(*self.list.allocator());
        append_copies(&mut list, &self.list)?;
        let mut units = Units { list };
        units.insert(new)?;
        Ok(units)
    }

    /// Takes the unit of a number off.
    pub fn remove(&mut self, number: u32)
        ensures left { self.new ≡ without_connected number self.old }
        ensures files { (names : List (List ℕ)) (u : PlainConnected) → connected_at self.old number ≡ Some u → HaveFiles names self.old → HaveFiles (left_of names u.name) self.new }
    {
        self.list.retain(|unit| unit.number != number);
    }

    /// Gives the unit of a number other modes, if there is one.
    pub fn set_modes(&mut self, number: u32, modes: Modes)
        ensures modes { self.new ≡ with_modes self.old (connected_at self.old number) modes }
        ensures files { (names : List (List ℕ)) → HaveFiles names self.old → HaveFiles names self.new }
    {
        if let Some(at) = place_of(&self.list, number) {
            self.list[at].modes = modes;
        }
    }
}
