// The names of the files that are out of the disk.
ghost use Rattle.std.specs.Prelude.{◌≡◌, ◌==◌, [], ◌∷◌, ◌++◌, length, OnOk, OnErr};
ghost use Rattle.fj_run_units.specs.Names.{stands, left_of};

use fj_modes::FileName;
use std::alloc::{AllocError, Global};
use std::marker::Model;

/// Names of files, as a list.
#[derive(Drop)]
pub struct Names {
    list: Vec<FileName>,
}

impl Model for Names {
    ghost use Rattle.std.specs.Prelude.{List, ℕ};

    ghost Value = { List (List ℕ) };

    ghost view = { λ names. names.list.items };
}

impl Names {
    /// No names.
    pub fn new(alloc: Global) -> Names
        ensures { result ≡ [] }
    {
        Names {
            list: Vec::new(alloc),
        }
    }

    /// Whether there are none.
    pub fn is_empty(&self) -> bool
        ensures { result ≡ (length self.now == 0) }
    {
        self.list.is_empty()
    }

    /// Whether a name is one of them.
    pub fn holds(&self, name: &FileName) -> bool
        ensures { result ≡ stands self.now name.now }
    {
        self.list
            .iter()
            .any(|other| other.as_str() == name.as_str())
    }

    /// Adds a name. Want of memory changes nothing.
    pub fn add(&mut self, name: &FileName) -> Result<(), AllocError>
        ensures ok { OnOk result (self.new ≡ self.old ++ name.now ∷ []) }
        ensures err { OnErr result (self.new ≡ self.old) }
    {
        let name = name.try_clone()?;
        self.list.push(name)?;
        Ok(())
    }

    /// Takes a name off.
    pub fn remove(&mut self, name: &FileName)
        ensures { self.new ≡ left_of self.old name.now }
    {
        self.list.retain(|other| other.as_str() != name.as_str());
    }
}
