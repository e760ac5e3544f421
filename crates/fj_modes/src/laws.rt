// What OPEN of a new connection, OPEN of a connected unit and names of files have to do with each other. Each function does nothing: its
// contract is the law.
ghost use Rattle.fj_modes.specs.NameLaws.{NamesStandApart};
ghost use Rattle.fj_modes.specs.Laws.{DefaultsAreUsual, SettledIsConsistent, ChangedIsConsistent, InEffectStays, OpenedAgainStays, ChangedTakesOrKeeps, ChangedTwiceStays};

/// The defaults of OPEN, written out.
pub fn defaults_are_usual()
    ensures { DefaultsAreUsual }
{}

/// The modes of a new connection go together: a record length from 1 to its limit, no mode of formatted editing that
/// an unformatted connection would have.
pub fn settled_is_consistent()
    ensures { SettledIsConsistent }
{}

pub fn changed_is_consistent()
    ensures { ChangedIsConsistent }
{}

/// OPEN with what is in effect changes nothing.
pub fn in_effect_stays()
    ensures { InEffectStays }
{}

/// The OPEN that made a connection changes nothing when it comes again without STATUS= and POSITION=.
pub fn opened_again_stays()
    ensures { OpenedAgainStays }
{}

/// Each mode that may change has the given value or the old one.
pub fn changed_takes_or_keeps()
    ensures { ChangedTakesOrKeeps }
{}

pub fn changed_twice_stays()
    ensures { ChangedTwiceStays }
{}

/// No name of a deck is a scratch file's, two units have two scratch files and two files by default, and all are names
/// of the disk.
pub fn names_stand_apart()
    ensures { NamesStandApart }
{}
