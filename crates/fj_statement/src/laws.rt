// Laws of sound statements.
ghost use Rattle.fj_statement.specs.Naming.{ElementsAreFew, MembersAreFew, PlacesAreFew, PlacesAreThere, VariablesAreThere};

/// What a sound statement names is there, and no more than is allowed.
pub fn named_is_there()
    ensures places { PlacesAreThere }
    ensures variables { VariablesAreThere }
    ensures elements { ElementsAreFew }
    ensures few { PlacesAreFew }
    ensures members { MembersAreFew }
{}
