// Units as statements name them (ISO/IEC 1539-1:2004, 9.4.1).
ghost use Rattle.std.specs.Prelude.{◌≡◌};
ghost use Rattle.fj_names.specs.Giving.{Gives};
ghost use Rattle.fj_names.specs.Units.{unit_meant, held, internal, unit_in, variable_unit, suits_unit, unit_named, transfer_unit, subject_meant, has_file};

use crate::designator::integer_place;
use crate::fault::Fault;
use crate::names::Names;
use crate::operand::variable_meant;
use fj_modes::{FileStatus, OpenSpec};
use fj_statement::{InternalFile, Operand, Subject, UnitRef};
use fj_syntax::{Designator, Transfer, Unit};
use fj_value::Kind;

/// What a unit names. Its place is an integer's.
#[tactic(auto, unfolding(crate::specs::Units::unit_meant))]
pub fn unit_meant(names: &Names, unit: &Unit) -> Result<UnitRef, Fault>
    ensures { Gives result (unit_meant names.now unit.now) }
{
    match unit {
        Unit::Star => Ok(UnitRef::Star),
        Unit::Number(number) => Ok(UnitRef::Number(*number)),
        Unit::Place(designator) => match integer_place(names, designator) {
            Some(place) => Ok(UnitRef::Held { place, number: 0 }),
            None => Err(Fault::NoMeaning),
        },
        Unit::New(designator) => match integer_place(names, designator) {
            Some(place) => Ok(UnitRef::New { place, number: 0 }),
            None => Err(Fault::NoMeaning),
        },
    }
}

/// The unit whose number a scalar or element holds.
fn held(operand: &Operand) -> Option<UnitRef>
    ensures { result ≡ held operand.now }
{
    match operand {
        Operand::One(place) => Some(UnitRef::Held {
            place: *place,
            number: 0,
        }),
        _ => None,
    }
}

/// The internal file that a scalar, an element or all of an array is (9.3).
fn internal(operand: &Operand) -> Option<UnitRef>
    ensures { result ≡ internal operand.now }
{
    match operand {
        Operand::One(place) => Some(UnitRef::Internal(InternalFile::One(*place))),
        Operand::Whole { var } => Some(UnitRef::Internal(InternalFile::Whole { var: *var })),
        Operand::Literal { .. } => None,
    }
}

/// What a variable of this kind names: an integer is the number of a unit, and characters are an internal file.
fn unit_in(kind: Kind, operand: &Operand) -> Option<UnitRef>
    ensures { result ≡ unit_in kind operand.now }
{
    match kind {
        Kind::Int4 | Kind::Int8 => held(operand),
        Kind::Chars(_) => internal(operand),
        Kind::Logical => None,
    }
}

fn variable_unit(names: &Names, designator: &Designator) -> Option<UnitRef>
    ensures { result ≡ variable_unit names.now designator.now }
{
    let meant = variable_meant(names, designator)?;
    unit_in(meant.kind, &meant.operand)
}

/// What the unit of READ or WRITE names, which may be an internal file.
#[tactic(auto, unfolding(crate::specs::Units::unit_named))]
fn unit_named(names: &Names, unit: &Unit) -> Result<UnitRef, Fault>
    ensures { Gives result (unit_named names.now unit.now) }
{
    match unit {
        Unit::Place(designator) => match variable_unit(names, designator) {
            Some(unit) => Ok(unit),
            None => Err(Fault::NoMeaning),
        },
        _ => unit_meant(names, unit),
    }
}

/// Whether the specifiers go with the unit: an internal file has a format, and no position; no record of it stays open,
/// and no transfer is pending (9.5.1).
fn suits_unit(unit: UnitRef, transfer: &Transfer) -> bool
    ensures { result ≡ suits_unit unit transfer.now }
{
    match unit {
        UnitRef::Internal(_) => {
            transfer.format.is_some()
                && !(transfer.advance.is_some()
                    || transfer.asynchronous.is_some()
                    || transfer.rec.is_some()
                    || transfer.pos.is_some())
        }
        _ => true,
    }
}

/// The unit of READ or WRITE, with which its specifiers go.
#[tactic(auto, unfolding(crate::specs::Units::transfer_unit))]
pub fn transfer_unit(names: &Names, transfer: &Transfer) -> Result<UnitRef, Fault>
    ensures { Gives result (transfer_unit names.now transfer.now) }
{
    let unit = unit_named(names, &transfer.unit)?;
    if suits_unit(unit, transfer) {
        Ok(unit)
    } else {
        Err(Fault::NoMeaning)
    }
}

/// What INQUIRE asks about.
#[tactic(auto, unfolding(crate::specs::Units::subject_meant))]
pub fn subject_meant(names: &Names, about: fj_syntax::Subject) -> Result<Subject, Fault>
    ensures { Gives result (subject_meant names.now about) }
{
    match about {
        fj_syntax::Subject::Unit(unit) => {
            let unit = unit_meant(names, &unit)?;
            Ok(Subject::Unit(unit))
        }
        fj_syntax::Subject::File(name) => Ok(Subject::File(name)),
    }
}

/// Whether OPEN has a file for a unit of NEWUNIT=.
pub fn has_file(unit: &Unit, spec: &OpenSpec) -> bool
    ensures { result ≡ has_file unit.now spec.now }
{
    match unit {
        Unit::New(_) => spec.file.is_some() || spec.status == Some(FileStatus::Scratch),
        _ => true,
    }
}
