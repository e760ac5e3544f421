// What stands at a place of the store.
ghost use Rattle.std.specs.Prelude.{◌≡◌, true, false};
ghost use Rattle.fj_store.specs.Slots.{mark_in, slot_of};
ghost use Rattle.fj_store.specs.Taking.{mark_of, value_read};
ghost use Rattle.fj_store.specs.declared.slot.Slot.{Slot as AnySlot};

use fj_moved::Element;
use fj_value::Value;
use std::mem::size_of;

/// The value of a place, or none where it is moved out; and its mark, the number of the cell that it had last. It has that cell only
/// where this is a cell of the place.
#[derive(Drop)]
pub(crate) enum Slot {
    Home(u32, Value),
    Out(u32),
}

/// What stands at a place beside its value: whether that is at home, and the mark.
#[derive(Clone, Copy)]
pub(crate) enum Mark {
    Home(u32),
    Out(u32),
}

// With a value of 16 bytes a place takes 24.
const _: () = prove!(size_of::<Mark>() <= 8);

impl Element for Mark {
    ghost plain = { λ mark. true };

    ghost undefined = { λ mark. false };

    fn is_plain(&self) -> bool {
        true
    }

    fn is_undefined(&self) -> bool {
        false
    }

    fn plain_copy(&self) -> Mark {
        *self
    }
}

impl Mark {
    pub(crate) fn number(self) -> u32
        ensures { (slot : AnySlot) → mark_in slot ≡ self → result ≡ mark_of slot }
    {
        match self {
            Mark::Home(number) | Mark::Out(number) => number,
        }
    }

    /// What stands at a place with this mark and a value.
    pub(crate) fn with(self, value: Value) -> Slot
        ensures { result ≡ slot_of self value }
    {
        match self {
            Mark::Home(number) => Slot::Home(number, value),
            Mark::Out(number) => Slot::Out(number),
        }
    }
}

impl Slot {
    /// The mark and the value apart. One that is moved out is undefined.
    pub(crate) fn apart(self) -> (Mark, Value)
        ensures mark { result.0 ≡ mark_in self }
        ensures value { result.1 ≡ value_read self }
    {
        match self {
            Slot::Home(number, value) => (Mark::Home(number), value),
            Slot::Out(number) => (Mark::Out(number), Value::Undefined),
        }
    }
}
