// Lists of runs.
ghost use Rattle.std.specs.Prelude.{◌≡◌, [], ◌∷◌, ◌++◌, OnOk, OnErr};

use crate::run::Run;
use smallvec::SmallVec;
use std::alloc::{AllocError, Global};
use std::marker::Model;

/// Runs in their order, of which contracts see the list. One alone takes no memory of its own.
#[derive(Drop)]
pub struct Runs {
    runs: SmallVec<Run, 1>,
}

impl Model for Runs {
    ghost use Rattle.std.specs.Prelude.{List};
    ghost use Rattle.fj_store.specs.declared.run.Run.{Run as AnyRun};

    ghost Value = { List AnyRun };

    ghost view = { λ runs. runs.runs.items };
}

impl Runs {
    pub fn new(alloc: Global) -> Runs
        ensures { result ≡ [] }
    {
        Runs {
            runs: SmallVec::new(alloc),
        }
    }

    pub fn as_slice(&self) -> &[Run]
        ensures { result.now ≡ self.now }
    {
        self.runs.as_slice()
    }

    /// Adds a run at the end. Want of memory changes nothing.
    pub fn push(&mut self, run: Run) -> Result<(), AllocError>
        ensures ok { OnOk result (self.new ≡ self.old ++ run ∷ []) }
        ensures err { OnErr result (self.new ≡ self.old) }
    {
        self.runs.push(run)?;
        Ok(())
    }
}
