// The items of READ and WRITE (ISO/IEC 1539-1:2004, 9.5.2).
ghost use Rattle.std.specs.Prelude.{◌≡◌, map, option_map};
ghost use Rattle.fj_names.specs.Giving.{Gives, each};
ghost use Rattle.fj_names.specs.Transfer.{are_few};
ghost use Rattle.fj_names.specs.Operands.{meant};

use crate::fault::Fault;
use crate::limits::{capped, size_of};
use crate::names::Names;
use crate::operand::meaning_of;
use fj_statement::Operands;
use fj_syntax::Operand;
use fj_value::Items;
use std::alloc::Global;

/// The most elements, and the most bytes of them, that a statement may have.
const MOST_ELEMENTS: u64 = 1_000_000;

const MOST_BYTES: u64 = 16_777_216;

/// What the items mean, and whether they are no more than a statement may have.
#[tactic(auto, unfolding(crate::specs::Transfer::are_few))]
pub fn choose(alloc: Global, names: &Names, operands: &[Operand]) -> Result<(Operands, bool), Fault>
    ensures { Gives result (option_map (λ ms. (map (λ m. m.operand) ms, are_few ms)) (each (meant names.now) operands.now)) }
{
    let mut items = Items::new(alloc);
    let mut elements = 0;
    let mut bytes = 0;
    for operand in operands {
        let meant = meaning_of(names, operand)?;
        elements = capped(elements, meant.count, 1, MOST_ELEMENTS);
        bytes = capped(bytes, meant.count, size_of(meant.kind), MOST_BYTES);
        items.push(meant.operand)?;
    }
    let few = elements <= MOST_ELEMENTS && bytes <= MOST_BYTES;
    Ok((items, few))
}
