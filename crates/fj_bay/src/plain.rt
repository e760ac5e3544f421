// Bays, jobs and answers as plain data, for contracts to speak of. No value of these types is made.
use std::marker::Model;

/// A bay as plain data.
#[derive(Drop)]
pub struct PlainBay {}

impl Model for PlainBay {
    ghost use Rattle.std.specs.Prelude.{None};
    ghost use Rattle.fj_bay.specs.Bay.{Bay};

    ghost Value = { Bay };

    ghost view = { λ _. record { connection = None; halt = None } };
}

/// A job as plain data.
#[derive(Drop)]
pub struct PlainJob {}

impl Model for PlainJob {
    ghost use Rattle.fj_bay.specs.Jobs.{Job, flush};
    ghost use Rattle.std.specs.Coded.{codes};
    ghost use Rattle.fj_format.specs.contracts.item.FormatItem as item;

    ghost Value = { Job };

    ghost coded = { Prim.hlevel (codes, item.the_row.coded) };

    ghost view = { λ _. flush };
}

/// An answer as plain data.
#[derive(Drop)]
pub struct PlainAnswer {}

impl Model for PlainAnswer {
    ghost use Rattle.fj_value.specs.declared.condition.Condition.TheVariants.{Fine};
    ghost use Rattle.fj_bay.specs.Jobs.{Answer, done};

    ghost Value = { Answer };

    ghost view = { λ _. done Fine };
}
