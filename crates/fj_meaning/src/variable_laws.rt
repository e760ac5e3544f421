// A law on variables.
ghost use Rattle.fj_meaning.specs.VariableLaws.{VariablesAreAsDeclared};

/// Each variable has as many values as elements, each of its kind or undefined.
pub fn variables_are_as_declared()
    ensures { VariablesAreAsDeclared }
{}
