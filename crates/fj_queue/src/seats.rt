//! The queue, and the tokens of its callers.
ghost use Rattle.std.specs.Prelude.{◌≡◌};
ghost use Rattle.fj_queue.specs.Seats.{IsSubmitter, IsHand};

use crate::law::Law;
use crate::view::{Start, View};
use atomic_table::{Seat, Table, TableRule};
use fj_slot::{Engine, Slot};
use std::alloc::Global;
use std::sync::atomic::AtomicBool;

/// A seat of a queue's table.
pub(crate) type Place<E> = Seat<Option<Slot<E>>, View<E, <E as Engine>::Task>>;

/// A slot under a turn.
pub struct QueueOf<C, E, T, P: TableRule<Option<C>, View<E, T>, Start<E, T>>> {
    pub(crate) table: Table<Option<C>, View<E, T>, Start<E, T>, P, Global>,
    // a hand seems to be at work; no clause rests on it
    pub(crate) taken: AtomicBool,
    ghost sized: { (table.shared.table_id.words ≡ 5) × (table.shared.table_id.slots ≡ 1) },
}

/// Who submits and settles. There is one for each queue.
pub struct SubmitterOf<C, E, T> {
    pub(crate) seat: Seat<Option<C>, View<E, T>>,
    ghost resting: { IsSubmitter seat.me },
}

/// Who works.
pub struct HandOf<C, E, T> {
    pub(crate) seat: Seat<Option<C>, View<E, T>>,
    ghost resting: { IsHand seat.me },
}

pub type Queue<E> = QueueOf<Slot<E>, E, <E as Engine>::Task, Law<E>>;

pub type Submitter<E> = SubmitterOf<Slot<E>, E, <E as Engine>::Task>;

pub type Hand<E> = HandOf<Slot<E>, E, <E as Engine>::Task>;

impl<C, E, T> Drop for SubmitterOf<C, E, T> {
    fn drop(self) {
        let Self { seat: _ } = self;
    }
}

impl<C, E, T> Drop for HandOf<C, E, T> {
    fn drop(self) {
        let Self { seat: _ } = self;
    }
}

impl<C, E, T> SubmitterOf<C, E, T> {
    pub(crate) fn into_seat(self) -> Seat<Option<C>, View<E, T>>
        ensures resting { IsSubmitter result.me }
        ensures same { (result.table_id ≡ self.seat.table_id) × (result.id ≡ self.seat.id) × (result.me ≡ self.seat.me) }
    {
        let Self { seat } = self;
        seat
    }
}

impl<C, E, T> HandOf<C, E, T> {
    pub(crate) fn into_seat(self) -> Seat<Option<C>, View<E, T>>
        ensures resting { IsHand result.me }
        ensures same { (result.table_id ≡ self.seat.table_id) × (result.id ≡ self.seat.id) × (result.me ≡ self.seat.me) }
    {
        let Self { seat } = self;
        seat
    }
}
