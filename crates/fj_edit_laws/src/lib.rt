//! Input fields read what output fields write, and list-directed output writes what output fields show.
#![tactic(auto)]

ghost use Rattle.fj_edit_laws.specs.RoundTrip.{NumbersComeBack, CharactersComeBack};
ghost use Rattle.fj_edit_laws.specs.Shown.{ValuesAreShownAsFields};

/// An integer or a logical that a field of no asterisks shows is read back from it under the same descriptor into the
/// same kind, with any sign mode on output and under BN and BZ.
pub fn numbers_come_back()
    ensures { NumbersComeBack }
{}

/// Characters that a field has room for are read back from it under the same descriptor.
pub fn characters_come_back()
    ensures { CharactersComeBack }
{}

/// In list-directed and namelist output an integer is shown as under I0, a logical as under L1, and characters without
/// delimiters as under A.
pub fn values_are_shown_as_fields()
    ensures { ValuesAreShownAsFields }
{}
