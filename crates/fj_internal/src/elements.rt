// The elements of an internal file as its records (ISO/IEC 1539-1:2004, 9.3).
ghost use Rattle.std.specs.Prelude.{◌≡◌, ◌≤◌, length};
ghost use Rattle.std.specs.List.{list_any};
ghost use Rattle.fj_internal.specs.Internal.{characters_of, holds_line_end, records_of, record_length, set_first};

use fj_moved::{Cells, define};
use fj_value::{Cell, Kind, Value};
use memchr::memchr2;

/// The characters of an element.
pub fn characters(cell: &Cell) -> &[u8]
    ensures { result.now ≡ characters_of cell.now.value }
{
    match &cell.value {
        Value::Chars(text) => text.bytes(),
        Value::Undefined | Value::Int(_) | Value::Log(_) => b"",
    }
}

/// Whether a line feed or a carriage return is among characters.
pub(crate) fn holds_line_end(chars: &[u8]) -> bool
    ensures { result ≡ holds_line_end chars.now }
{
    match memchr2(b'\n', b'\r', chars) {
        Some(_) => true,
        None => false,
    }
}

/// Whether an element holds a line feed or a carriage return.
#[tactic(auto, using(crate::proofs::Heads::ends_here, crate::proofs::Heads::ends_behind, crate::proofs::Heads::no_ends))]
pub fn any_line_end(elements: &[Cell]) -> bool
    ensures { result ≡ list_any holds_line_end (records_of elements.now) }
{
    let mut rest = elements;
    while let Some((element, behind)) = rest.split_first() {
        if holds_line_end(characters(element)) {
            return true;
        }
        rest = behind;
    }
    false
}

/// The length of the elements.
pub fn record_length(elements: &Cells) -> u32
    ensures { result ≡ record_length elements.now }
{
    match elements.get(0) {
        Some(cell) => match cell.kind {
            Kind::Chars(length) => length,
            Kind::Int4 | Kind::Int8 | Kind::Logical => 0,
        },
        None => 0,
    }
}

/// Gives the first elements these values. It takes no memory.
#[tactic(auto, using(crate::proofs::Cutting::set_push))]
pub fn set_first(elements: &mut Cells, values: Vec<Value>)
    requires { length values.items ≤ length elements.old }
    ensures { elements.new ≡ set_first values.items elements.old }
{
    let mut rest = values;
    'setting: while let Some(value) = rest.pop() {
        define(elements, rest.len(), value);
    }
}
