// Laws on the modes under which transfers are carried out.
ghost use Rattle.fj_meaning_laws.specs.ModeLaws.{TransfersUnderModes, StarPrintsUnderModes};

/// The modes of a transfer are those that the statement names, and else those of the connection.
pub fn transfers_under_modes()
    ensures { TransfersUnderModes }
{}

/// On `*` they are those that the statement names, and else those of an OPEN without specifiers.
pub fn star_prints_under_modes()
    ensures { StarPrintsUnderModes }
{}
