// What holds of all output fields (ISO/IEC 1539-1:2004, 10.6).
ghost use Rattle.fj_edit_out.specs.OutputField.{FieldsFillTheirWidth};

/// A field has exactly as many characters as the width of its descriptor, where that is not 0.
pub fn fields_fill_their_width()
    ensures { FieldsFillTheirWidth }
{}
