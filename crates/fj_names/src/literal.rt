// Literals (ISO/IEC 1539-1:2004, 4.4).
ghost use Rattle.std.specs.Prelude.{◌≡◌, Some, None, if◌then◌else◌};
ghost use Rattle.fj_value.specs.Kind.{fits_bits};
ghost use Rattle.fj_names.specs.Operands.{signed, number, literal};

use crate::operand::Meant;
use fj_statement::Operand;
use fj_syntax::Sign;
use fj_value::{Kind, Value};

/// The size of the least INTEGER(8).
const LEAST: u64 = 9_223_372_036_854_775_808;

/// A number as an INTEGER(8), where it fits.
fn signed(sign: Sign, amount: u64) -> Option<i64>
    ensures { result ≡ (if fits_bits 64 (signed sign amount) then Some (signed sign amount) else None) }
{
    match sign {
        Sign::Minus => {
            if amount < LEAST {
                Some(-(amount as i64))
            } else if amount == LEAST {
                Some(i64::MIN)
            } else {
                None
            }
        }
        Sign::Unsigned | Sign::Plus => {
            if amount < LEAST {
                Some(amount as i64)
            } else {
                None
            }
        }
    }
}

pub fn literal(kind: Kind, value: Value) -> Meant
    ensures { result ≡ literal kind value }
{
    Meant {
        operand: Operand::Literal { kind, value },
        kind,
        count: 1,
    }
}

/// An integer literal with its kind.
#[tactic(auto, unfolding(crate::specs::Operands::number))]
pub fn number(sign: Sign, amount: u64) -> Option<Meant>
    ensures { result ≡ number (signed sign amount) }
{
    let number = signed(sign, amount)?;
    let kind = if -2_147_483_648 <= number && number <= 2_147_483_647 {
        Kind::Int4
    } else {
        Kind::Int8
    };
    Some(literal(kind, Value::Int(number)))
}
