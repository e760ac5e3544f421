// A file that is read through a window.
ghost use Rattle.std.specs.Prelude.{◌≡◌, ◌≢◌, ◌⊎◌, ◌+◌, ◌-◌, ◌<◌, ◌≤◌, [], length, take, drop, min, max, ◌++◌, IfOk, IfErr, OnOk, OnErr, IsTrue, IsOk, ◌↔◌};
ghost use Rattle.fj_outside.specs.Faults.{Rose};
ghost use Rattle.fj_outside.specs.Bytes.{written, IsPartlyWritten};
ghost use Rattle.fj_outside.specs.Windows.{Window, IsWindowOf, lent, serves, after_read};

use crate::errors::{Failed, Stop};
use crate::outside::FileStore;
use crate::window::{WINDOW, WindowBytes};
use std::alloc::{AllocError, Global};

/// A file that keeps bytes of it in a window, those that were read last or the last one written, so that what it has at
/// hand is read without a call on the file. Its bytes, its length and its count of faults are those of the file in it.
#[derive(Drop)]
pub struct Buffered<F: FileStore> {
    file: F,
    window: WindowBytes,
    // The window lies in the file, and holds its bytes.
    ghost within: { length window.bytes ≤ F.size file - window.at },
    ghost of_file: { F.tells file → IsWindowOf (F.bytes file) window },
}

/// Room for the window of a file, which can be made before there is the file.
#[derive(Drop)]
pub struct WindowRoom {
    window: WindowBytes,
    ghost empty: { window.bytes ≡ [] },
}

impl WindowRoom {
    /// Room for one window.
    pub fn new(alloc: Global) -> Result<WindowRoom, AllocError> {
        Ok(WindowRoom {
            window: WindowBytes::new(alloc)?,
        })
    }
}

impl<F: FileStore> Buffered<F> {
    ghost use Rattle.fj_outside.specs.Buffered.{file_in, window_in};

    /// A file with an empty window, in room that was made before. It takes no memory.
    pub fn new(room: WindowRoom, file: F) -> Buffered<F>
        ensures file { file_in result ≡ file }
        ensures empty { (window_in result).bytes ≡ [] }
    {
        Buffered {
            file,
            window: room.window,
        }
    }

    /// The file in it, borrowed.
    pub fn get_ref(&self) -> &F
        ensures { result.now ≡ file_in self.now }
    {
        &self.file
    }

    /// The file in it. It takes no memory.
    pub fn into_inner(self) -> F
        ensures { result ≡ file_in self }
    {
        let Buffered { file, window: _ } = self;
        file
    }

    /// Has so many bytes from a place on in the window, which is moved there where it has fewer.
    fn ready(&mut self, at: u64, due: usize) -> Result<(), Failed>
        requires { due ≤ max (length (lent (window_in self.old) at)) (min 8192 (F.size (file_in self.old) - at)) }
        ensures kept { due ≤ length (lent (window_in self.old) at) → IsOk result × (self.new ≡ self.old) }
        ensures place { length (lent (window_in self.old) at) < due → OnOk result ((window_in self.new).at ≡ at) }
        ensures amount { length (lent (window_in self.old) at) < due →
            OnOk result (length (window_in self.new).bytes ≡ min 8192 (F.size (file_in self.old) - at)) }
        ensures size { F.size (file_in self.new) ≡ F.size (file_in self.old) }
        ensures telling { F.tells (file_in self.old) ↔ F.tells (file_in self.new) }
        ensures same { F.tells (file_in self.old) → F.bytes (file_in self.new) ≡ F.bytes (file_in self.old) }
        ensures later { F.count (file_in self.old) ≤ F.count (file_in self.new) }
        ensures failed { OnErr result (Rose (F.count (file_in self.old)) (F.count (file_in self.new))) }
    {
        if self.window.from(at).len() < due {
            self.window.move_to(&mut self.file, at)?;
        }
        Ok(())
    }
}

impl<F: FileStore> FileStore for Buffered<F> {
    ghost use Rattle.fj_outside.specs.Buffered.{file_in, window_in};

    ghost tells = { λ buffered. F.tells (file_in buffered) };

    ghost told = { λ buffered. F.told (file_in buffered) };

    ghost decided = { λ buffered. F.decided (file_in buffered) };

    ghost bytes = { λ buffered. F.bytes (file_in buffered) };

    ghost size = { λ buffered. F.size (file_in buffered) };

    ghost count = { λ buffered. F.count (file_in buffered) };

    fn len(&self) -> u64 {
        self.file.len()
    }

    fn read_at(&mut self, at: u64, buf: &mut [u8]) -> Result<usize, Failed>
        // What stands in the window is read from there, with no call on the file.
        ensures served { IsTrue (serves (window_in self.old) (F.size (file_in self.old)) at (length buf.old)) →
            IsOk result × (file_in self.new ≡ file_in self.old) }
        ensures window { F.tells (file_in self.old) →
            OnOk result (window_in self.new ≡ after_read (window_in self.old) (F.bytes (file_in self.old)) at (length buf.old)) }

        // The bytes are those of the file.
        ensures amount { IfOk result (λ n. n ≡ min (length buf.old) (F.size (file_in self.old) - at)) }
        ensures size { F.size (file_in self.new) ≡ F.size (file_in self.old) }
        ensures telling { F.tells (file_in self.old) ↔ F.tells (file_in self.new) }
        ensures same { F.tells (file_in self.old) → F.bytes (file_in self.new) ≡ F.bytes (file_in self.old) }
        ensures bytes { F.tells (file_in self.old) → IfOk result (λ n. buf.new ≡ take n (drop at (F.bytes (file_in self.old))) ++ drop n buf.old) }
        ensures later { F.count (file_in self.old) ≤ F.count (file_in self.new) }
        ensures failed { OnErr result (Rose (F.count (file_in self.old)) (F.count (file_in self.new))) }
    {
        let rest = self.file.len().saturating_sub(at);
        let due = rest.min(buf.len() as u64) as usize;
        if WINDOW < due && self.window.from(at).len() < due {
            return self.file.read_at(at, buf);
        }
        self.ready(at, due)?;
        buf[..due].copy_from_slice(&self.window.from(at)[..due]);
        Ok(due)
    }

    /// The last byte that was written stays at hand where the file ends with it: what is written next asks for it.
    fn write_at(&mut self, at: u64, piece: &[u8]) -> Result<(), Stop> {
        self.window.clear();
        self.file.write_at(at, piece)?;
        let len = self.file.len();
        if let Some(last) = piece.last() {
            if len - at == piece.len() as u64 {
                self.window.hold(len - 1, *last);
            }
        }
        Ok(())
    }

    fn cut(&mut self, len: u64) -> Result<(), Failed> {
        self.window.clear();
        self.file.cut(len)
    }

    /// Where it has nothing at hand from there on, it moves the window there.
    fn fill(&mut self, at: u64) -> Result<(), Failed>
        ensures kept { lent (window_in self.old) at ≢ [] → IsOk result × (self.new ≡ self.old) }
        ensures filled { lent (window_in self.old) at ≡ [] →
            OnOk result (length (lent (window_in self.new) at) ≡ min 8192 (F.size (file_in self.old) - at)) }
        ensures size { F.size (file_in self.new) ≡ F.size (file_in self.old) }
        ensures telling { F.tells (file_in self.old) ↔ F.tells (file_in self.new) }
        ensures same { F.tells (file_in self.old) → F.bytes (file_in self.new) ≡ F.bytes (file_in self.old) }
        ensures later { F.count (file_in self.old) ≤ F.count (file_in self.new) }
        ensures failed { OnErr result (Rose (F.count (file_in self.old)) (F.count (file_in self.new))) }
    {
        let due = self.file.len().saturating_sub(at).min(1);
        self.ready(at, due as usize)
    }

    /// What the window holds.
    fn at_hand(&self, at: u64) -> &[u8]
        ensures held { result.now ≡ lent (window_in self.now) at }
        ensures within { length result.now ≤ F.size (file_in self.now) - at }
        ensures bytes { F.tells (file_in self.now) → result.now ≡ take (length result.now) (drop at (F.bytes (file_in self.now))) }
    {
        self.window.from(at)
    }

    fn faults(&self) -> u64 {
        self.file.faults()
    }
}
