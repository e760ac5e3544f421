// The bytes of a window, and where they stand.
ghost use Rattle.std.specs.Prelude.{◌≡◌, ◌-◌, ◌≤◌, [], ◌∷◌, length, take, drop, min, IfOk, OnOk, OnErr, ◌↔◌};
ghost use Rattle.fj_outside.specs.Faults.{Rose};
ghost use Rattle.fj_outside.specs.Windows.{IsWindowOf, lent};

use crate::errors::Failed;
use crate::outside::FileStore;
use std::alloc::{AllocError, Global};
use std::marker::Model;

/// A window holds at most so many bytes.
pub const WINDOW: usize = 8192;

/// Bytes that a file has at hand, and their place, seen as a window.
#[derive(Drop)]
pub struct WindowBytes {
    room: Vec<u8>,
    held: usize,
    at: u64,
}

impl Model for WindowBytes {
    ghost use Rattle.std.specs.Prelude.{◌≡◌, ◌≤◌, take, length, vec_len};
    ghost use Rattle.fj_outside.specs.Windows.{Window};

    ghost Value = { Window };

    ghost view = { λ w. record { at = w.at; bytes = take w.held w.room.items } };

    ghost invariant = { λ w. (vec_len w.room ≡ 8192) × (w.held ≤ 8192) };
}

impl WindowBytes {
    /// An empty window. It takes no more memory later on.
    pub fn new(alloc: Global) -> Result<WindowBytes, AllocError>
        ensures { IfOk result (λ window. window.bytes ≡ []) }
    {
        Ok(WindowBytes {
            room: vec![in alloc; 0; WINDOW]?,
            held: 0,
            at: 0,
        })
    }

    /// What it holds from a place on.
    pub fn from(&self, at: u64) -> &[u8]
        ensures { result.now ≡ lent self.now at }
    {
        let held = &self.room[..self.held];
        if self.at <= at && at - self.at <= held.len() as u64 {
            return &held[(at - self.at) as usize..];
        }
        &[]
    }

    /// Empties it.
    pub fn clear(&mut self)
        ensures { self.new.bytes ≡ [] }
    {
        self.held = 0;
    }

    /// Holds one byte.
    pub fn hold(&mut self, at: u64, byte: u8)
        ensures { self.new ≡ record { at = at; bytes = byte ∷ [] } }
    {
        self.room[0] = byte;
        self.held = 1;
        self.at = at;
    }

    /// Moves it to a place of a file. After `Failed` it is empty.
    pub fn move_to<F: FileStore>(&mut self, file: &mut F, at: u64) -> Result<(), Failed>
        ensures place { OnOk result (self.new.at ≡ at) }
        ensures amount { OnOk result (length self.new.bytes ≡ min 8192 (F.size file.old - at)) }
        ensures err { OnErr result (self.new.bytes ≡ []) }
        ensures telling { F.tells file.old ↔ F.tells file.new }
        ensures same { F.tells file.old → F.bytes file.new ≡ F.bytes file.old }
        ensures bytes { F.tells file.old → OnOk result (IsWindowOf (F.bytes file.old) self.new) }
        ensures size { F.size file.new ≡ F.size file.old }
        ensures later { F.count file.old ≤ F.count file.new }
        ensures failed { OnErr result (Rose (F.count file.old) (F.count file.new)) }
    {
        self.held = 0;
        self.held = file.read_at(at, &mut self.room)?;
        self.at = at;
        Ok(())
    }
}
