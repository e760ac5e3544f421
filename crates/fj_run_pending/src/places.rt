// Whether some place that a statement names passes a test.
ghost use Rattle.std.specs.Prelude.{◌≡◌};
ghost use Rattle.std.specs.List.{list_any, flat_map};
ghost use Rattle.fj_store.specs.Places.{places_of};
ghost use Rattle.fj_meaning.specs.Items as plain;
ghost use Rattle.fj_meaning.specs.Needs.{if_given, given_places, group_places, transfer_places, wanted_places};

use crate::runs::run_of;
use fj_book::RunTest;
use fj_modes::Wanted;
use fj_statement::{Control, InternalFile, Operand, Transfer, Variable};
use fj_store::Run;
use fj_value::Place;

/// Of an operand.
pub(crate) fn any_in_operand<T: RunTest>(
    variables: &[Variable],
    operand: &Operand,
    test: &T,
) -> bool
    ensures { result ≡ list_any (T.passes test.now) (plain.operand_places variables.now operand.now) }
{
    match operand {
        Operand::Literal { kind: _, value: _ } => false,
        Operand::One(place) => test.test(Run::of_place(*place)),
        Operand::Whole { var } => test.test(run_of(variables, *var)),
    }
}

/// The elements of an internal file.
pub(crate) fn file_run(variables: &[Variable], file: InternalFile) -> Run
    ensures { places_of result ≡ plain.file_places variables.now file }
{
    match file {
        InternalFile::One(place) => Run::of_place(place),
        InternalFile::Whole { var } => run_of(variables, var),
    }
}

/// Of operands.
fn any_in_operands<T: RunTest>(variables: &[Variable], operands: &[Operand], test: &T) -> bool
    ensures { result ≡ list_any (T.passes test.now) (flat_map (plain.operand_places variables.now) operands.now) }
{
    for operand in operands {
        if any_in_operand(variables, operand, test) {
            return true;
        }
    }
    false
}

/// Of variables.
fn any_in_variables<T: RunTest>(variables: &[Variable], vars: &[u32], test: &T) -> bool
    ensures { result ≡ list_any (T.passes test.now) (flat_map (plain.places_of variables.now) vars.now) }
{
    for var in vars {
        if test.test(run_of(variables, *var)) {
            return true;
        }
    }
    false
}

/// Of the members of a group.
fn any_in_group<T: RunTest>(variables: &[Variable], control: &Control, test: &T) -> bool
    ensures { result ≡ list_any (T.passes test.now) (group_places variables.now control.now) }
{
    match control {
        Control::Group { name: _, vars } => any_in_variables(variables, vars.as_slice(), test),
        _ => false,
    }
}

/// Of the items or the group of a transfer.
pub(crate) fn any_in_transfer<T: RunTest>(
    variables: &[Variable],
    transfer: &Transfer,
    test: &T,
) -> bool
    ensures { result ≡ list_any (T.passes test.now) (transfer_places variables.now transfer.now) }
{
    any_in_operands(variables, transfer.items.as_slice(), test)
        || any_in_group(variables, &transfer.control, test)
}

/// Of a specifier that is referenced.
pub(crate) fn any_given<T: RunTest>(
    variables: &[Variable],
    operand: &Option<Operand>,
    test: &T,
) -> bool
    ensures { result ≡ list_any (T.passes test.now) (given_places variables.now operand.now) }
{
    match operand {
        Some(operand) => any_in_operand(variables, operand, test),
        None => false,
    }
}

/// Of a specifier that is defined.
pub(crate) fn any_if_given<T: RunTest>(place: Option<Place>, test: &T) -> bool
    ensures { result ≡ list_any (T.passes test.now) (if_given place) }
{
    match place {
        Some(place) => test.test(Run::of_place(place)),
        None => false,
    }
}

/// Of the answers of INQUIRE.
pub(crate) fn any_wanted<T: RunTest>(asked: &[Wanted], test: &T) -> bool
    ensures { result ≡ list_any (T.passes test.now) (wanted_places asked.now) }
{
    for wanted in asked {
        if test.test(Run::of_place(wanted.place)) {
            return true;
        }
    }
    false
}
