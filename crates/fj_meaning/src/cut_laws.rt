// Laws on a run up to a statement.
ghost use Rattle.fj_meaning.specs.CutLaws.{CutIsBefore, ExecutionGoesOn};

/// Just before a statement is where the statements before it come to, unless they end the deck.
pub fn cut_is_before()
    ensures { CutIsBefore }
{}

/// Further statements go on from where the first ones come to, unless these end the deck.
pub fn execution_goes_on()
    ensures { ExecutionGoesOn }
{}
