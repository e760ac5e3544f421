// The places that a statement names, as runs.
ghost use Rattle.std.specs.Prelude.{◌≡◌, ◌++◌, [], ◌∷◌, IfOk, OnOk};
ghost use Rattle.std.specs.Option.{option_map_or};
ghost use Rattle.std.specs.List.{flat_map};
ghost use Rattle.std.specs.Prelude.{slice_get};
ghost use Rattle.fj_store.specs.Places.{places_in, places_of};
ghost use Rattle.fj_meaning.specs.State.{elements};
ghost use Rattle.fj_meaning.specs.Items as plain;
ghost use Rattle.fj_meaning.specs.Needs.{group_places, transfer_places};
ghost use Rattle.fj_meaning.specs.Transfers.{held_places};

use fj_statement::{Control, Operand, Transfer, Variable};
use fj_store::{Run, Runs};
use std::alloc::{AllocError, Global};

/// The number of a variable's elements.
fn elements(variable: &Variable) -> u32
    ensures { result ≡ elements variable.now }
{
    if variable.count == 0 {
        1
    } else {
        variable.count
    }
}

/// The elements of a variable in their order.
pub(crate) fn run_of(variables: &[Variable], var: u32) -> Run
    ensures { places_of result ≡ plain.places_of variables.now var }
{
    let count = match variables.get(var as usize) {
        Some(variable) => elements(variable),
        None => 0,
    };
    Run {
        var,
        first: 1,
        count,
    }
}

/// Adds the places of an operand.
fn push_operand(
    runs: &mut Runs,
    variables: &[Variable],
    operand: &Operand,
) -> Result<(), AllocError>
    ensures { OnOk result (places_in runs.new ≡ places_in runs.old ++ plain.operand_places variables.now operand.now) }
{
    match operand {
        Operand::Literal { kind: _, value: _ } => Ok(()),
        Operand::One(place) => runs.push(Run::of_place(*place)),
        Operand::Whole { var } => runs.push(run_of(variables, *var)),
    }
}

/// Adds the places of operands.
fn push_operands(
    runs: &mut Runs,
    variables: &[Variable],
    operands: &[Operand],
) -> Result<(), AllocError>
    ensures { OnOk result (places_in runs.new ≡ places_in runs.old ++ flat_map (plain.operand_places variables.now) operands.now) }
{
    for operand in operands {
        push_operand(runs, variables, operand)?;
    }
    Ok(())
}

/// Adds the places of a variable.
fn push_variable(runs: &mut Runs, variables: &[Variable], var: u32) -> Result<(), AllocError>
    ensures { OnOk result (places_in runs.new ≡ places_in runs.old ++ plain.places_of variables.now var) }
{
    runs.push(run_of(variables, var))
}

/// Adds the places of variables.
fn push_variables(runs: &mut Runs, variables: &[Variable], vars: &[u32]) -> Result<(), AllocError>
    ensures { OnOk result (places_in runs.new ≡ places_in runs.old ++ flat_map (plain.places_of variables.now) vars.now) }
{
    for var in vars {
        push_variable(runs, variables, *var)?;
    }
    Ok(())
}

/// Adds the members of a group.
fn push_group(runs: &mut Runs, variables: &[Variable], control: &Control) -> Result<(), AllocError>
    ensures { OnOk result (places_in runs.new ≡ places_in runs.old ++ group_places variables.now control.now) }
{
    match control {
        Control::Group { name: _, vars } => push_variables(runs, variables, vars.as_slice()),
        _ => Ok(()),
    }
}

/// Adds the places of the items or of the group of a transfer.
fn push_transfer(
    runs: &mut Runs,
    variables: &[Variable],
    transfer: &Transfer,
) -> Result<(), AllocError>
    ensures { OnOk result (places_in runs.new ≡ places_in runs.old ++ transfer_places variables.now transfer.now) }
{
    push_operands(runs, variables, transfer.items.as_slice())?;
    push_group(runs, variables, &transfer.control)
}

/// The places that a pending transfer holds: of its items or its group, and of an input SIZE=.
pub fn runs_held(
    alloc: Global,
    variables: &[Variable],
    transfer: &Transfer,
) -> Result<Runs, AllocError>
    ensures { IfOk result (λ runs. places_in runs ≡ held_places variables.now transfer.now) }
{
    let mut runs = Runs::new(alloc);
    push_transfer(&mut runs, variables, transfer)?;
    if transfer.input {
        if let Some(size) = transfer.size {
            runs.push(Run::of_place(size))?;
        }
    }
    Ok(runs)
}
