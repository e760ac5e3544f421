// What is known of a unit while its connection is elsewhere.

use fj_modes::{FileName, Modes};

/// The modes of the connection of a unit, and the name of its file.
#[derive(Drop)]
pub struct Connected {
    pub modes: Modes,
    pub name: FileName,
}
