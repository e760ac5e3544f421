// How a deck ends.
ghost use Rattle.std.specs.Prelude.{◌≡◌};
ghost use Rattle.std.specs.Option.{option_map};
ghost use Rattle.fj_meaning.specs.Statement.{ends, iostat_of};
ghost use Rattle.fj_run_script.specs.Machine.{ending_of};

use fj_statement::Statement;
use fj_value::{Condition, Place, Rule};

/// How the statement of a line ended the deck.
#[derive(Clone, Copy, PartialEq, Eq)]
pub enum Ending {
    /// END was carried out.
    Ended,
    /// A condition that no IOSTAT= caught, with its code.
    ErrorStop { line: u32, code: i32 },
    Prohibited { line: u32, rule: Rule },
}

/// The place of IOSTAT=.
pub(crate) fn iostat_of(statement: &Statement) -> Option<Place>
    ensures { result ≡ iostat_of statement.now }
{
    match statement {
        Statement::Assign { to: _, from: _ } | Statement::End => None,
        Statement::OpenUnit {
            unit: _,
            spec: _,
            iostat,
        } => *iostat,
        Statement::CloseUnit {
            unit: _,
            keep: _,
            iostat,
        } => *iostat,
        Statement::WaitFor {
            unit: _,
            id: _,
            iostat,
        } => *iostat,
        Statement::Move {
            how: _,
            unit: _,
            iostat,
        } => *iostat,
        Statement::Inquire {
            about: _,
            asked: _,
            id: _,
            iostat,
            done: _,
        } => *iostat,
        Statement::Transfer(transfer) => transfer.iostat,
    }
}

/// How a statement that came to a condition ends the deck, if it does.
pub(crate) fn ended_by(line: u32, statement: &Statement, condition: Condition) -> Option<Ending>
    ensures { option_map ending_of result ≡ ends line statement.now condition }
{
    if let (Statement::End, Condition::Fine) = (statement, condition) {
        return Some(Ending::Ended);
    }
    if iostat_of(statement).is_some() || condition == Condition::Fine {
        return None;
    }
    Some(Ending::ErrorStop {
        line,
        code: condition.code(),
    })
}
