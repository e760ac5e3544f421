// Assignments (ISO/IEC 1539-1:2004, 7.4.1).
ghost use Rattle.std.specs.Prelude.{◌≡◌};
ghost use Rattle.fj_names.specs.Giving.{Gives};
ghost use Rattle.fj_names.specs.Calls.{takes, takes_literal, goes_to, assigned};

use crate::fault::Fault;
use crate::names::Names;
use crate::operand::{Meant, is_whole, meaning_of, variable_meant};
use fj_statement::{Operand, Statement};
use fj_syntax::Assignment;
use fj_value::Kind;

/// The same kind, or both are characters.
fn takes(to: Kind, from: Kind) -> bool
    ensures { result ≡ takes to from }
{
    matches!(
        (to, from),
        (Kind::Int4, Kind::Int4)
            | (Kind::Int8, Kind::Int8)
            | (Kind::Logical, Kind::Logical)
            | (Kind::Chars(_), Kind::Chars(_))
    )
}

/// A literal is of the class and the range of a kind.
fn takes_literal(to: Kind, from: Kind) -> bool
    ensures { result ≡ takes_literal to from }
{
    takes(to, from) || matches!((to, from), (Kind::Int8, Kind::Int4))
}

/// Whether a variable may get what an operand means.
fn goes_to(to: &Meant, from: &Meant) -> bool
    ensures { result ≡ goes_to to.now from.now }
{
    match &from.operand {
        Operand::Literal { .. } => takes_literal(to.kind, from.kind),
        Operand::One(_) => !is_whole(&to.operand) && takes(to.kind, from.kind),
        Operand::Whole { .. } => false,
    }
}

/// What an assignment means.
#[tactic(auto, unfolding(crate::specs::Calls::assigned))]
pub fn assigned(names: &Names, assignment: Assignment) -> Result<Statement, Fault>
    ensures { Gives result (assigned names.now assignment) }
{
    let Assignment { to, from } = assignment;
    let Some(to) = variable_meant(names, &to) else {
        return Err(Fault::NoMeaning);
    };
    let from = meaning_of(names, &from)?;
    if goes_to(&to, &from) {
        Ok(Statement::Assign {
            to: to.operand,
            from: from.operand,
        })
    } else {
        Err(Fault::NoMeaning)
    }
}
