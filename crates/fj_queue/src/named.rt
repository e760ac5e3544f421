//! A value that only clauses see, of which no code holds any.
ghost use Rattle.std.specs.Prelude.{◌≡◌};
ghost use base.Fml.{ftrue};

use std::marker::{Model, PhantomData};

/// A `T` as clauses see it. It has no bytes and owns nothing.
pub struct Named<T> {
    marker: PhantomData<T>,
    pub ghost value: { T },
}

impl<T> Model for Named<T> {
    ghost also_owns = { λ _. ftrue };
}

impl<T> Named<T> {
    /// Any value, as the call's clauses name it.
    pub(crate) fn any() -> Named<T>
        ghost chosen: { T }
        ensures { result.value ≡ chosen }
    {
        Named {
            marker: PhantomData,
        }
    }
}

impl<T> Drop for Named<T> {
    fn drop(self) {
        let Self { marker: _ } = self;
    }
}
