// Elements and scalars that are designated (ISO/IEC 1539-1:2004, 6.1 and 6.2.2).
ghost use Rattle.std.specs.Prelude.{◌≡◌};
ghost use Rattle.fj_names.specs.Giving.{Gives};
ghost use Rattle.fj_names.specs.Operands.{index_in, placed, is_integer, integer_place};

use crate::fault::Fault;
use crate::names::Names;
use fj_syntax::Designator;
use fj_value::{Kind, Place};

/// A place with the kind of its variable.
#[derive(Clone, Copy, PartialEq, Eq)]
pub struct Placed {
    pub place: Place,
    pub kind: Kind,
}

/// The index of an element by its subscript; 1 of a scalar, on which none stands.
pub fn index_in(count: u32, number: Option<u32>) -> Option<u32>
    ensures { result ≡ index_in count number }
{
    match number {
        None => { if count == 0 { Some(1) } else { None } }
        Some(n) => { if 1 <= n && n <= count { Some(n) } else { None } }
    }
}

/// The element or scalar that is designated.
#[tactic(auto, unfolding(crate::specs::Operands::placed))]
pub fn designated(names: &Names, designator: &Designator) -> Option<Placed>
    ensures { result ≡ placed names.now designator.now }
{
    let found = names.find(designator.name.bytes())?;
    let index = index_in(found.count, designator.number)?;
    Some(Placed {
        place: Place {
            var: found.var,
            index,
        },
        kind: found.kind,
    })
}

pub fn is_integer(kind: Kind) -> bool
    ensures { result ≡ is_integer kind }
{
    kind.integer_bits().is_some()
}

/// The element or scalar of an integer kind that is designated.
#[tactic(auto, unfolding(crate::specs::Operands::integer_place))]
pub fn integer_place(names: &Names, designator: &Designator) -> Option<Place>
    ensures { result ≡ integer_place names.now designator.now }
{
    let placed = designated(names, designator)?;
    if is_integer(placed.kind) {
        Some(placed.place)
    } else {
        None
    }
}
