//! When a READ meets which condition, and what it leaves then (ISO/IEC 1539-1:2004, 9.5, 9.10, 10.6 to 10.8).
#![tactic(auto)]

ghost use Rattle.fj_input_laws.specs.Fields.{FieldsAreTold};
ghost use Rattle.fj_input_laws.specs.Reads.{InputIsExact};
ghost use Rattle.fj_input_laws.specs.Fitting.{FitsExactly, BeginsExactly, ChangesByName};

/// 12 is told of a field exactly where its descriptor is not for the item, and else only 13 and 14.
pub fn fields_are_told()
    ensures { FieldsAreTold }
{}

/// A READ under an explicit format is told the condition of the first part that meets one, from the left to the right, and is fine
/// exactly where none does.
pub fn input_is_exact()
    ensures { InputIsExact }
{}

/// 16 is told exactly where something does not fit the connection, and 10 exactly where ACTION= alone does not allow it.
pub fn fits_exactly()
    ensures { FitsExactly }
{}

/// 16, 10, 20, 21 and 17 are told in this order, each exactly where it comes and none of those before it does; else the transfer
/// begins at the record, the byte or the position.
pub fn begins_exactly()
    ensures { BeginsExactly }
{}

/// A statement's modes are those that it names, each by its own specifier, and else the connection's.
pub fn changes_by_name()
    ensures { ChangesByName }
{}
