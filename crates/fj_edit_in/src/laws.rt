// What holds of all input fields (ISO/IEC 1539-1:2004, 10.6).
ghost use Rattle.fj_edit_in.specs.InputField.{LeadingBlanksHaveNoEffect};

/// A blank in front of a field has no effect under BN and BZ, but where characters are read.
pub fn leading_blanks_have_no_effect()
    ensures { LeadingBlanksHaveNoEffect }
{}
