// Operands with their kinds.
ghost use Rattle.std.specs.Prelude.{◌≡◌};
ghost use Rattle.fj_names.specs.Giving.{Gives};
ghost use Rattle.fj_names.specs.Operands.{part, variable_meant, meant, is_whole, integer_operand};

use crate::designator::{index_in, is_integer};
use crate::fault::Fault;
use crate::limits::narrow;
use crate::literal::{literal, number};
use crate::names::Names;
use crate::scope::Found;
use fj_statement::Operand;
use fj_syntax::Designator;
use fj_value::{Kind, Place, Value};

/// An operand with its kind, and how many elements it is.
#[derive(Drop)]
pub struct Meant {
    pub operand: Operand,
    pub kind: Kind,
    pub count: u32,
}

/// A whole array where no subscript stands on one, else the element or scalar.
fn part(found: Found, number: Option<u32>) -> Option<Meant>
    ensures { result ≡ part found number }
{
    if number.is_none() && found.count != 0 {
        return Some(Meant {
            operand: Operand::Whole { var: found.var },
            kind: found.kind,
            count: found.count,
        });
    }
    let index = index_in(found.count, number)?;
    Some(Meant {
        operand: Operand::One(Place {
            var: found.var,
            index,
        }),
        kind: found.kind,
        count: 1,
    })
}

#[tactic(auto, unfolding(crate::specs::Operands::variable_meant))]
pub fn variable_meant(names: &Names, designator: &Designator) -> Option<Meant>
    ensures { result ≡ variable_meant names.now designator.now }
{
    let found = names.find(designator.name.bytes())?;
    part(found, designator.number)
}

fn some(meant: Option<Meant>) -> Result<Meant, Fault>
    ensures { Gives result meant }
{
    match meant {
        Some(meant) => Ok(meant),
        None => Err(Fault::NoMeaning),
    }
}

#[tactic(auto, unfolding(crate::specs::Operands::meant))]
pub fn meaning_of(names: &Names, operand: &fj_syntax::Operand) -> Result<Meant, Fault>
    ensures { Gives result (meant names.now operand.now) }
{
    match operand {
        fj_syntax::Operand::Number { sign, amount } => some(number(*sign, *amount)),
        fj_syntax::Operand::Truth(truth) => Ok(literal(Kind::Logical, Value::Log(*truth))),
        fj_syntax::Operand::Literal(text) => {
            let len = narrow(text.len())?;
            let text = text.try_clone()?;
            Ok(literal(Kind::Chars(len), Value::of_text(text)?))
        }
        fj_syntax::Operand::Place(designator) => some(variable_meant(names, designator)),
    }
}

pub fn is_whole(operand: &Operand) -> bool
    ensures { result ≡ is_whole operand.now }
{
    matches!(operand, Operand::Whole { .. })
}

/// An integer literal or integer place.
#[tactic(auto, unfolding(crate::specs::Operands::integer_operand))]
pub fn integer_operand(names: &Names, operand: &fj_syntax::Operand) -> Result<Operand, Fault>
    ensures { Gives result (integer_operand names.now operand.now) }
{
    let meant = meaning_of(names, operand)?;
    if is_integer(meant.kind) && !is_whole(&meant.operand) {
        Ok(meant.operand)
    } else {
        Err(Fault::NoMeaning)
    }
}
