// Whether a statement names a variable.
ghost use Rattle.std.specs.Prelude.{◌≡◌, ◌==◌, IfSome};
ghost use Rattle.std.specs.List.{list_any};
ghost use Rattle.fj_statement.specs.Sound.{members_of};
ghost use Rattle.fj_explain.specs.Breaks.{asks_into, given_is_of, is_later, names, operand_is_of, subject_is_of, transfer_names, transfers, unit_is_of, value_is_of, IsEarlier};

use fj_modes::Asked;
use fj_statement::{
    Control, InternalFile, Lined, Operand, Operands, Statement, Subject, Transfer, UnitRef,
};
use fj_value::Place;

fn given_is_of(place: Option<Place>, var: u32) -> bool
    ensures { result ≡ given_is_of var place }
{
    match place {
        Some(place) => place.var == var,
        None => false,
    }
}

fn operand_is_of(operand: &Operand, var: u32) -> bool
    ensures { result ≡ operand_is_of var operand.now }
{
    match operand {
        Operand::Literal { kind: _, value: _ } => false,
        Operand::One(place) => place.var == var,
        Operand::Whole { var: whole } => *whole == var,
    }
}

fn value_is_of(value: &Option<Operand>, var: u32) -> bool
    ensures { result ≡ value_is_of var value.now }
{
    match value {
        Some(operand) => operand_is_of(operand, var),
        None => false,
    }
}

fn unit_is_of(unit: UnitRef, var: u32) -> bool
    ensures { result ≡ unit_is_of var unit }
{
    match unit {
        UnitRef::Star => false,
        UnitRef::Number(_) => false,
        UnitRef::Held { place, number: _ } => place.var == var,
        UnitRef::New { place, number: _ } => place.var == var,
        UnitRef::Internal(file) => match file {
            InternalFile::One(place) => place.var == var,
            InternalFile::Whole { var: whole } => whole == var,
        },
    }
}

fn subject_is_of(about: &Subject, var: u32) -> bool
    ensures { result ≡ subject_is_of var about.now }
{
    match about {
        Subject::Unit(unit) => unit_is_of(*unit, var),
        Subject::File(_) => false,
    }
}

fn asks_into(asked: &Asked, var: u32) -> bool
    ensures { result ≡ asks_into var asked.now }
{
    asked
        .as_slice()
        .iter()
        .any(|wanted| wanted.place.var == var)
}

fn has_item(items: &Operands, var: u32) -> bool
    ensures { result ≡ list_any (operand_is_of var) items.now }
{
    items.as_slice().iter().any(|item| operand_is_of(item, var))
}

fn has_member(control: &Control, var: u32) -> bool
    ensures { result ≡ list_any (λ v. v == var) (members_of control.now) }
{
    match control {
        Control::Group { name: _, vars } => vars.as_slice().iter().any(|member| *member == var),
        Control::Unformatted => false,
        Control::Explicit(_) => false,
        Control::Listed => false,
    }
}

fn transfers(transfer: &Transfer, var: u32) -> bool
    ensures { result ≡ transfers var transfer.now }
{
    has_item(&transfer.items, var)
        || has_member(&transfer.control, var)
        || given_is_of(transfer.size, var)
}

/// Whether it is a transfer with ASYNCHRONOUS='YES' that has the variable among its items, in its group or by SIZE=.
fn is_later(statement: &Statement, var: u32) -> bool
    ensures { result ≡ is_later var statement.now }
{
    match statement {
        Statement::Transfer(transfer) => transfer.asynchronous.unwrap_or(false)
            && transfers(transfer, var),
        _ => false,
    }
}

fn transfer_names(transfer: &Transfer, var: u32) -> bool
    ensures { result ≡ transfer_names var transfer.now }
{
    unit_is_of(transfer.unit, var)
        || transfers(transfer, var)
        || value_is_of(&transfer.rec, var)
        || value_is_of(&transfer.pos, var)
        || given_is_of(transfer.id, var)
        || given_is_of(transfer.iostat, var)
}

fn names(statement: &Statement, var: u32) -> bool
    ensures { result ≡ names var statement.now }
{
    match statement {
        Statement::Assign { to, from } => operand_is_of(to, var) || operand_is_of(from, var),
        Statement::OpenUnit { unit, iostat, .. } => unit_is_of(*unit, var)
            || given_is_of(*iostat, var),
        Statement::CloseUnit { unit, iostat, .. } => unit_is_of(*unit, var)
            || given_is_of(*iostat, var),
        Statement::WaitFor { unit, id, iostat } => unit_is_of(*unit, var)
            || value_is_of(id, var)
            || given_is_of(*iostat, var),
        Statement::Move { unit, iostat, .. } => unit_is_of(*unit, var) || given_is_of(*iostat, var),
        Statement::Inquire {
            about,
            asked,
            id,
            iostat,
            ..
        } => {
            subject_is_of(about, var)
                || asks_into(asked, var)
                || value_is_of(id, var)
                || given_is_of(*iostat, var)
        }
        Statement::Transfer(transfer) => transfer_names(transfer, var),
        Statement::End => false,
    }
}

/// The line of the statement of this number, where it is a transfer with ASYNCHRONOUS='YES' of a variable that a statement behind it names.
pub fn earlier(statements: &[Lined], at: usize, from: usize, var: u32) -> Option<u32>
    ensures { IfSome result (IsEarlier statements.now at) }
{
    if from >= at {
        return None;
    }
    let lined = statements.get(from)?;
    let stated = statements.get(at)?;
    if is_later(&lined.what, var) && names(&stated.what, var) {
        Some(lined.line)
    } else {
        None
    }
}
