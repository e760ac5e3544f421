// A connection: the file, the modes, the position, and the record that was looked at last.
ghost use Rattle.std.specs.Prelude.{◌≡◌, length};
ghost use Rattle.fj_connect.specs.Spot.{IsPlaced};

mod ahead;
mod closing;
mod direct;
mod frames;
mod motions;
mod opening;
mod places;
mod records;
mod stream;

use crate::spot::{Look, Spot};
use fj_modes::{FileName, Modes};
use fj_outside::{Buffered, FileStore};
use fj_value::{EditModes, Text};
pub use opening::{OpenFault, open_file};
use std::marker::Model;

/// The place of the record that was looked at last, and the place behind it.
#[derive(Clone, Copy, PartialEq, Eq)]
pub struct Looked {
    pub at: u64,
    pub next: u64,
}

/// A connection of a unit to a file (ISO/IEC 1539-1:2004, 9.4). It keeps the record that was looked at last, so that
/// a record that is read in many statements is read from the file once.
#[derive(Drop)]
pub struct Connection<F: FileStore> {
    modes: Modes,
    name: FileName,
    file: Buffered<F>,
    spot: Spot,
    hand: Text,
    looked: Option<Looked>,
}

impl<F: FileStore> Model for Connection<F> {
    ghost use Rattle.fj_outside.specs.Buffered.{file_in};
    ghost use Rattle.fj_connect.specs.Linked.{Linked, IsLinked};

    ghost Value = { Linked F };

    ghost view = { λ c. record { modes = c.modes; name = c.name; file = file_in c.file; spot = c.spot; hand = c.hand } };

    ghost invariant = { λ c. IsLinked (F.tells (file_in c.file)) (F.bytes (file_in c.file)) (F.size (file_in c.file)) c.modes c.spot c.looked c.hand };
}

impl<F: FileStore> Connection<F> {
    ghost use Rattle.fj_connect.specs.Linked.{HasLength};

    pub fn modes(&self) -> &Modes
        ensures value { result.now ≡ self.now.modes }
        ensures length { HasLength self.now.modes }
    {
        &self.modes
    }

    pub fn name(&self) -> &FileName
        ensures { result.now ≡ self.now.name }
    {
        &self.name
    }

    /// Where it stands.
    pub fn spot(&self) -> Spot
        ensures value { result ≡ self.now.spot }
        ensures placed { IsPlaced self.now.modes (F.size self.now.file) self.now.spot }
    {
        self.spot
    }

    /// The file's length in bytes.
    pub fn file_len(&self) -> u64
        ensures size { result ≡ F.size self.now.file }
        ensures bytes { F.tells self.now.file → result ≡ length (F.bytes self.now.file) }
        ensures placed { IsPlaced self.now.modes (F.size self.now.file) self.now.spot }
    {
        self.file.len()
    }

    /// Where it stands, and the file's length.
    pub fn look(&self) -> Look
        ensures value { result ≡ record { spot = self.now.spot; size = F.size self.now.file } }
        ensures bytes { F.tells self.now.file → result.size ≡ length (F.bytes self.now.file) }
    {
        Look {
            spot: self.spot,
            size: self.file.len(),
        }
    }

    /// How many faults the file had since it came out of the disk.
    pub fn faults(&self) -> u64
        ensures { result ≡ F.count self.now.file }
    {
        self.file.faults()
    }

    /// The characters of the record that was looked at last.
    pub fn hand(&self) -> &[u8]
        ensures { result.now ≡ self.now.hand }
    {
        self.hand.bytes()
    }

    /// Sets the modes that a statement may change.
    pub fn change(&mut self, edit: EditModes)
        ensures { self.new ≡ record self.old { modes = record self.old.modes { edit = edit } } }
    {
        self.modes.edit = edit;
    }
}
