// OPEN, CLOSE, WAIT, the motions and INQUIRE (ISO/IEC 1539-1:2004, 9.4 and 9.6 to 9.9).
ghost use Rattle.std.specs.Prelude.{◌≡◌};
ghost use Rattle.fj_names.specs.Giving.{Gives, optional, each};
ghost use Rattle.fj_names.specs.Operands.{integer_place, integer_operand};
ghost use Rattle.fj_names.specs.Calls.{opened, closed, awaited, moved, suits, wanted, inquired};

use crate::designator::{designated, integer_place, is_integer};
use crate::fault::Fault;
use crate::names::Names;
use crate::operand::integer_operand;
use crate::unit::{has_file, subject_meant, unit_meant};
use fj_modes::{Asked, Motion, OpenSpec, Question, Wanted};
use fj_statement::{Operand, Statement};
use fj_syntax::{Asking, Designator, Inquire, OnUnit};
use fj_value::{Items, Kind, Place};
use std::alloc::Global;

/// The integer place of a specifier that may stand.
pub fn optional_place(
    names: &Names,
    designator: &Option<Designator>,
) -> Result<Option<Place>, Fault>
    ensures { Gives result (optional (integer_place names.now) designator.now) }
{
    match designator {
        None => Ok(None),
        Some(designator) => match integer_place(names, designator) {
            Some(place) => Ok(Some(place)),
            None => Err(Fault::NoMeaning),
        },
    }
}

/// The integer literal or place of a specifier that may stand.
pub fn optional_operand(
    names: &Names,
    operand: &Option<fj_syntax::Operand>,
) -> Result<Option<Operand>, Fault>
    ensures { Gives result (optional (integer_operand names.now) operand.now) }
{
    match operand {
        None => Ok(None),
        Some(operand) => {
            let operand = integer_operand(names, operand)?;
            Ok(Some(operand))
        }
    }
}

#[tactic(auto, unfolding(crate::specs::Calls::opened))]
pub fn opened(names: &Names, statement: OnUnit<OpenSpec>) -> Result<Statement, Fault>
    ensures { Gives result (opened names.now statement) }
{
    let OnUnit {
        unit: written,
        what: spec,
        iostat,
    } = statement;
    let unit = unit_meant(names, &written)?;
    let iostat = optional_place(names, &iostat)?;
    if !has_file(&written, &spec) {
        return Err(Fault::NoMeaning);
    }
    Ok(Statement::OpenUnit { unit, spec, iostat })
}

#[tactic(auto, unfolding(crate::specs::Calls::closed))]
pub fn closed(names: &Names, close: OnUnit<Option<bool>>) -> Result<Statement, Fault>
    ensures { Gives result (closed names.now close) }
{
    let OnUnit { unit, what, iostat } = close;
    let unit = unit_meant(names, &unit)?;
    let iostat = optional_place(names, &iostat)?;
    let keep = what;
    Ok(Statement::CloseUnit { unit, keep, iostat })
}

#[tactic(auto, unfolding(crate::specs::Calls::awaited))]
pub fn awaited(names: &Names, wait: OnUnit<Option<fj_syntax::Operand>>) -> Result<Statement, Fault>
    ensures { Gives result (awaited names.now wait) }
{
    let OnUnit { unit, what, iostat } = wait;
    let unit = unit_meant(names, &unit)?;
    let id = optional_operand(names, &what)?;
    let iostat = optional_place(names, &iostat)?;
    Ok(Statement::WaitFor { unit, id, iostat })
}

#[tactic(auto, unfolding(crate::specs::Calls::moved))]
pub fn moved(names: &Names, motion: OnUnit<Motion>) -> Result<Statement, Fault>
    ensures { Gives result (moved names.now motion) }
{
    let OnUnit { unit, what, iostat } = motion;
    let unit = unit_meant(names, &unit)?;
    let iostat = optional_place(names, &iostat)?;
    let how = what;
    Ok(Statement::Move { how, unit, iostat })
}

/// Whether a variable of a kind may take the answer to a question.
fn suits(what: Question, kind: Kind) -> bool
    ensures { result ≡ suits what kind }
{
    match what {
        Question::Exist | Question::Opened | Question::Named | Question::Pending => {
            matches!(kind, Kind::Logical)
        }
        Question::Number | Question::Recl | Question::Nextrec | Question::Pos | Question::Size =>
            is_integer(kind),
        Question::Name
        | Question::Access
        | Question::Form
        | Question::Blank
        | Question::Delim
        | Question::Pad
        | Question::Decimal
        | Question::Sign
        | Question::Action
        | Question::Asynchronous => matches!(kind, Kind::Chars(_)),
    }
}

#[tactic(auto, unfolding(crate::specs::Calls::wanted))]
fn wanted(names: &Names, asking: &Asking) -> Option<Wanted>
    ensures { result ≡ wanted names.now asking.now }
{
    let placed = designated(names, &asking.place)?;
    if suits(asking.what, placed.kind) {
        Some(Wanted {
            what: asking.what,
            place: placed.place,
            kind: placed.kind,
        })
    } else {
        None
    }
}

fn all_wanted(alloc: Global, names: &Names, askings: &Items<Asking>) -> Result<Asked, Fault>
    ensures { Gives result (each (wanted names.now) askings.now) }
{
    let mut asked = Items::new(alloc);
    for asking in askings.as_slice() {
        let Some(wanted) = wanted(names, asking) else {
            return Err(Fault::NoMeaning);
        };
        asked.push(wanted)?;
    }
    Ok(asked)
}

#[tactic(auto, unfolding(crate::specs::Calls::inquired))]
pub fn inquired(alloc: Global, names: &Names, inquire: Inquire) -> Result<Statement, Fault>
    ensures { Gives result (inquired names.now inquire) }
{
    let Inquire {
        about,
        asked,
        id,
        iostat,
    } = inquire;
    let about = subject_meant(names, about)?;
    let asked = all_wanted(alloc, names, &asked)?;
    let id = optional_operand(names, &id)?;
    let iostat = optional_place(names, &iostat)?;
    Ok(Statement::Inquire {
        about,
        asked,
        id,
        iostat,
        done: None,
    })
}
