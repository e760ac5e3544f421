// What a statement references, and what it defines.

use crate::spot::{Spot, push_file, push_given, push_items, push_operand, push_value};
use fj_modes::Asked;
use fj_statement::{Control, Operand, Statement, Transfer};
use fj_value::Place;
use std::alloc::{AllocError, Global};

/// What a statement references.
pub fn referenced(alloc: Global, statement: &Statement) -> Result<Vec<Spot>, AllocError> {
    let mut spots = Vec::new(alloc);
    if let Some(unit) = statement.unit() {
        push_given(&mut spots, unit.place_held())?;
    }
    match statement {
        Statement::Assign { to: _, from } => push_operand(&mut spots, from)?,
        Statement::WaitFor { id, .. } => push_value(&mut spots, id)?,
        Statement::Inquire { id, .. } => push_value(&mut spots, id)?,
        Statement::Transfer(transfer) => push_taken(&mut spots, transfer)?,
        Statement::OpenUnit { .. }
        | Statement::CloseUnit { .. }
        | Statement::Move { .. }
        | Statement::End => {}
    }
    Ok(spots)
}

/// Of a transfer its record or position, what an output takes, and the internal file of an input.
fn push_taken(spots: &mut Vec<Spot>, transfer: &Transfer) -> Result<(), AllocError> {
    push_value(spots, &transfer.rec)?;
    push_value(spots, &transfer.pos)?;
    if transfer.input {
        push_file(spots, transfer.unit)
    } else {
        push_items(spots, transfer)
    }
}

/// What a statement defines, if nothing comes between.
#[derive(Drop)]
pub struct Defined {
    /// What has a value behind each statement that the deck goes on from.
    pub surely: Vec<Spot>,
    /// What may get a value or lose it.
    pub maybe: Vec<Spot>,
}

/// What a statement defines.
pub fn definitions(alloc: Global, statement: &Statement) -> Result<Defined, AllocError> {
    let mut made = Defined {
        surely: Vec::new(alloc),
        maybe: Vec::new(alloc),
    };
    match statement {
        Statement::Assign { to, from: _ } => push_operand(&mut made.surely, to)?,
        Statement::OpenUnit { unit, iostat, .. } => {
            push_given(&mut made.maybe, unit.place_new())?;
            push_given(&mut made.surely, *iostat)?;
        }
        Statement::CloseUnit { iostat, .. } => push_given(&mut made.surely, *iostat)?,
        Statement::WaitFor { iostat, .. } => push_given(&mut made.surely, *iostat)?,
        Statement::Move { iostat, .. } => push_given(&mut made.surely, *iostat)?,
        Statement::Inquire { asked, iostat, .. } => push_answers(&mut made, asked, *iostat)?,
        Statement::Transfer(transfer) => push_made(&mut made, transfer)?,
        Statement::End => {}
    }
    Ok(made)
}

fn push_answers(
    made: &mut Defined,
    asked: &Asked,
    iostat: Option<Place>,
) -> Result<(), AllocError> {
    for wanted in asked.as_slice() {
        made.maybe.push(Spot::of(wanted.place))?;
    }
    push_given(&mut made.surely, iostat)
}

/// Whether each item of an input has a value where the deck goes on: it is read at once, a condition would have stopped the
/// deck, and no item stays as it was.
fn gives_all(transfer: &Transfer) -> bool {
    let is_plain = matches!(
        transfer.control,
        Control::Unformatted | Control::Explicit(_)
    );
    is_plain && transfer.iostat.is_none() && transfer.asynchronous != Some(true)
}

fn push_made(made: &mut Defined, transfer: &Transfer) -> Result<(), AllocError> {
    push_given(&mut made.surely, transfer.iostat)?;
    push_given(&mut made.maybe, transfer.id)?;
    push_given(&mut made.maybe, transfer.size)?;
    if !transfer.input {
        return push_file(&mut made.maybe, transfer.unit);
    }
    if gives_all(transfer) {
        push_items(&mut made.surely, transfer)
    } else {
        push_items(&mut made.maybe, transfer)
    }
}

/// All that a statement defines.
pub fn all_defined(alloc: Global, statement: &Statement) -> Result<Vec<Spot>, AllocError> {
    let made = definitions(alloc, statement)?;
    let mut spots = made.surely;
    spots.extend_from_slice(&made.maybe)?;
    Ok(spots)
}

/// The place that an operand is.
pub fn place_of(operand: &Operand) -> Option<Place> {
    match operand {
        Operand::One(place) => Some(*place),
        _ => None,
    }
}
