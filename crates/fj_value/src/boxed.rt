// A value on the heap.
ghost use Rattle.std.specs.Prelude.{◌≡◌, IfOk};
ghost use Rattle.std.specs.Borrow.{Lends, sem};
ghost use Rattle.fj_value.specs.contracts.boxed.Boxed.{the_row};

use std::alloc::{AllocError, Global};
use std::marker::Model;

/// A value behind one pointer, seen as the value, so that what holds it stays small.
#[derive(Drop)]
pub struct Boxed<T> {
    place: Box<T>,
}

impl<T> Model for Boxed<T> {
    ghost use Rattle.std.specs.Prelude.{ℕ};

    ghost Value = { T };

    ghost coded = { T.code };

    ghost view = { λ boxed. boxed.place.value };
}

impl<T: Drop> Boxed<T> {
    /// Moves a value behind a pointer. Want of memory drops it.
    pub fn new(alloc: Global, value: T) -> Result<Boxed<T>, AllocError>
        ensures { IfOk result (λ boxed. boxed ≡ value) }
    {
        Ok(Boxed {
            place: Box::new(alloc, value)?,
        })
    }

    pub fn into_inner(self) -> T
        ensures { result ≡ self }
    {
        Box::into_inner(self.place)
    }

    pub fn get(&self) -> &T
        ensures { result.now ≡ self.now }
    {
        &*self.place
    }

    pub fn get_mut(&mut self) -> &mut T
        ensures* writes_back { sem 𝓛 (Lends (the_row T.row) T.row self.entry result (λ w. w)) }
        ensures value { result.now ≡ self.old }
    {
        &mut *self.place
    }
}
