// Taking pending transfers off.
ghost use Rattle.std.specs.Prelude.{◌≡◌, ◌≢◌, ◌≤◌, [], ◌++◌, not, filter, length, take, drop, All, IfOk, OnOk, OnErr};
ghost use Rattle.std.specs.VecDeque.{deque_capacity};
ghost use Rattle.fj_book.specs.declared.pending.Pending.{Pending};
ghost use Rattle.fj_run_pending.specs.Busy.{AreBusy};
ghost use Rattle.fj_run_pending.specs.Taking.{without};
ghost use Rattle.fj_run_pending.specs.Tied.{IsAscending};
ghost use Rattle.fj_run_pending.specs.Waits.{picks};

use crate::answers::below;
use crate::busy::{Busy, first_of};
use crate::held::Held;
use crate::pick::{Pick, place_of};
use fj_book::Book;
use fj_value::Tag;
use std::alloc::{AllocError, Global};
use std::collections::VecDeque;
use std::mem::replace;

/// Takes the transfer of an identifier off, where it is there. Want of memory changes nothing.
fn take_one(
    alloc: Global,
    helds: &mut VecDeque<Held>,
    id: u32,
) -> Result<VecDeque<Held>, AllocError>
    requires { IsAscending helds.old.items }
    ensures told { IfOk result (λ told. told.items ≡ filter (picks (Pick.One id)) helds.old.items) }
    ensures left { OnOk result (helds.new.items ≡ filter (λ h. not (picks (Pick.One id) h)) helds.old.items) }
    ensures err { OnErr result (helds.new.items ≡ helds.old.items) }
{
    let mut told = VecDeque::with_capacity(alloc, 1)?;
    let Some(at) = place_of(helds, u64::from(id)) else {
        return Ok(told);
    };
    let Some(held) = helds.remove(at) else {
        return Ok(told);
    };
    told.push_back_reserved(held);
    Ok(told)
}

/// The number of the transfers of a unit from a place on.
fn count_of(helds: &VecDeque<Held>, unit: u32, from: usize) -> usize
    requires { from ≤ length helds.now.items }
    ensures { result ≡ length (filter (picks (Pick.OfUnit unit)) (drop from helds.now.items)) }
{
    helds.range(from..).filter(|held| held.unit == unit).count()
}

/// Goes over so many of the first transfers. Those of a unit are taken off, in their order, and the others go behind all that are left.
fn part(helds: &mut VecDeque<Held>, unit: u32, count: usize, told: &mut VecDeque<Held>)
    requires count { count ≤ length helds.old.items }
    requires none { told.old.items ≡ [] }
    requires room { length (filter (picks (Pick.OfUnit unit)) (take count helds.old.items)) ≤ deque_capacity told.old }
    ensures told { told.new.items ≡ filter (picks (Pick.OfUnit unit)) (take count helds.old.items) }
    ensures left { helds.new.items ≡ drop count helds.old.items ++ filter (λ h. not (picks (Pick.OfUnit unit) h)) (take count helds.old.items) }
{
    for _ in 0..count {
        let Some(held) = helds.pop_front() else {
            return;
        };
        if held.unit == unit {
            told.push_back_reserved(held);
        } else {
            helds.push_back_reserved(held);
        }
    }
}

/// Takes the transfers of a unit off, in their order, where none of them stands before a place. Where all are of the unit, they are not
/// moved. Want of memory changes nothing.
fn take_unit(
    alloc: Global,
    helds: &mut VecDeque<Held>,
    unit: u32,
    from: usize,
) -> Result<VecDeque<Held>, AllocError>
    requires from { from ≤ length helds.old.items }
    requires none { All (λ h. h.unit ≢ unit) (take from helds.old.items) }
    ensures told { IfOk result (λ told. told.items ≡ filter (picks (Pick.OfUnit unit)) helds.old.items) }
    ensures left { OnOk result (helds.new.items ≡ filter (λ h. not (picks (Pick.OfUnit unit) h)) helds.old.items) }
    ensures err { OnErr result (helds.new.items ≡ helds.old.items) }
{
    let told_count = count_of(helds, unit, from);
    if told_count == helds.len() {
        return Ok(replace(helds, VecDeque::new(alloc)));
    }
    let mut told = VecDeque::with_capacity(alloc, told_count)?;
    let count = helds.len() - from;
    helds.rotate_left(from);
    part(helds, unit, count, &mut told);
    Ok(told)
}

/// The same of a unit that may have transfers, without a look where it can have none.
fn take_busy(
    alloc: Global,
    helds: &mut VecDeque<Held>,
    busy: &Vec<Busy>,
    unit: u32,
) -> Result<VecDeque<Held>, AllocError>
    requires ascending { IsAscending helds.old.items }
    requires busy { AreBusy busy.now.items helds.old.items }
    ensures told { IfOk result (λ told. told.items ≡ filter (picks (Pick.OfUnit unit)) helds.old.items) }
    ensures left { OnOk result (helds.new.items ≡ filter (λ h. not (picks (Pick.OfUnit unit) h)) helds.old.items) }
    ensures err { OnErr result (helds.new.items ≡ helds.old.items) }
{
    let Some(first) = first_of(busy, unit) else {
        return Ok(VecDeque::new(alloc));
    };
    let from = below(helds, u64::from(first.0));
    take_unit(alloc, helds, unit, from)
}

/// Takes the transfers off that are waited for, in their order. Want of memory changes nothing.
pub(crate) fn take_picked(
    alloc: Global,
    helds: &mut VecDeque<Held>,
    busy: &Vec<Busy>,
    pick: Pick,
) -> Result<VecDeque<Held>, AllocError>
    requires ascending { IsAscending helds.old.items }
    requires busy { AreBusy busy.now.items helds.old.items }
    ensures told { IfOk result (λ told. told.items ≡ filter (picks pick) helds.old.items) }
    ensures left { OnOk result (helds.new.items ≡ filter (λ h. not (picks pick h)) helds.old.items) }
    ensures err { OnErr result (helds.new.items ≡ helds.old.items) }
{
    match pick {
        Pick::None => Ok(VecDeque::new(alloc)),
        Pick::OfUnit(unit) => take_busy(alloc, helds, busy, unit),
        Pick::One(id) => take_one(alloc, helds, id),
        Pick::All => Ok(replace(helds, VecDeque::new(alloc))),
    }
}

/// Takes the transfers off the book that are waited for.
pub(crate) fn leave(book: &mut Book, busy: &Vec<Busy>, pick: Pick)
    ensures { book.new ≡ without pick busy.now.items book.old }
{
    match pick {
        Pick::None => {}
        Pick::OfUnit(unit) => {
            if let Some(first) = first_of(busy, unit) {
                book.tell_from(Some(unit), first);
            }
        }
        Pick::One(id) => {
            let _ = book.tell(Tag(id));
        }
        Pick::All => book.tell_from(None, Tag(0)),
    }
}
