// A connected unit.
ghost use Rattle.std.specs.Prelude.{◌<◌};
ghost use Rattle.fj_meaning_jobs.specs.Desks.{most_slots};

use fj_modes::{FileName, Modes};

/// A connected unit. Its connection is at its slot.
#[derive(Drop)]
pub struct Connected {
    pub number: u32,
    pub slot: u32,
    pub name: FileName,
    pub modes: Modes,
    /// The slot is one that there is.
    pub ghost place: { slot < most_slots },
}
