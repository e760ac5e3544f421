//! The rule of the table.
//! Word 0 is 1 while a seat has the turn, word 1 the number of submissions, word 2 the number of jobs begun plus the number ended, word 3 the number of tells, and word 4 the stop.
use crate::view::{Start, View};
use atomic_table::TableRule;
use fj_slot::{Engine, Slot};
use std::marker::PhantomData;

pub struct Law<E> {
    engine: PhantomData<E>,
}

impl<E: Engine> TableRule<Option<Slot<E>>, View<E, E::Task>, Start<E, E::Task>> for Law<E> {
    ghost use Rattle.fj_queue.specs.Rule.{Ruled, first_view};

    ghost holds = { λ key. Ruled E.meaning key.plan.value };

    ghost first = { λ key. first_view key };
}
