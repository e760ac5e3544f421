// Bytes of unformatted stream access.
ghost use Rattle.std.specs.Prelude.{◌≡◌, ◌+◌, ◌≤◌, ◌↔◌, length, max, IfOk, IsTrue, OnOk, OnErr, List, ℕ, Some, None, if◌then◌else◌};
ghost use Rattle.fj_outside.specs.Faults.{Rose};
ghost use Rattle.fj_span.specs.Change.{KeepsUpToChange};
ghost use Rattle.fj_byterec.specs.Pieces.{bytes_from};
ghost use Rattle.fj_modes.specs.Limits.{longest_file};
ghost use Rattle.fj_connect.specs.Spot.{spot_between};

use crate::connection::Connection;
use fj_byterec::{read_stream, write_stream};
use fj_outside::{FileStore, Stop};
use fj_value::Text;

impl<F: FileStore> Connection<F> {
    ghost use Rattle.fj_connect.specs.Connection.{with_bytes};
    ghost use Rattle.fj_connect.specs.Linked.{connection_of};

    /// Reads so many bytes from a place in the file (ISO/IEC 1539-1:2004, 9.2.2.3), counted from 0; false where fewer are left. The
    /// position stays. `into` gets the bytes, and after a `Stop` is of no account.
    pub fn read_bytes(&mut self, at: u64, want: u32, into: &mut Text) -> Result<bool, Stop>
        requires { at ≤ F.size self.old.file }
        ensures telling { F.tells self.old.file ↔ F.tells self.new.file }
        ensures same { F.tells self.old.file → F.bytes self.new.file ≡ F.bytes self.old.file }
        ensures bytes { F.tells self.old.file → IfOk result (λ there.
            (if there then Some into.new else None) ≡ bytes_from (F.bytes self.old.file) at want) }

        // Told or not.
        ensures enough { IfOk result (λ there. IsTrue there ↔ (at + want ≤ F.size self.old.file)) }
        ensures length { IfOk result (λ there. length into.new ≡ (if there then want else 0)) }
        ensures rest { self.new ≡ record self.old { file = self.new.file } }
        ensures size { F.size self.new.file ≡ F.size self.old.file }
        ensures later { F.count self.old.file ≤ F.count self.new.file }
        ensures failed { result ≡ Err Stop.Failed → Rose (F.count self.old.file) (F.count self.new.file) }
    {
        read_stream(&mut self.file, at, want, into)
    }

    /// Puts bytes at the position, over those that stand there (ISO/IEC 1539-1:2004, 9.2.2.3). After a `Stop` nothing is said of
    /// the position.
    pub fn put_bytes(&mut self, piece: &[u8]) -> Result<(), Stop>
        requires { self.old.spot.at + length piece.now ≤ longest_file }
        ensures telling { F.tells self.old.file ↔ F.tells self.new.file }
        ensures put { F.tells self.old.file → OnOk result
            (connection_of F.bytes self.new ≡ with_bytes (connection_of F.bytes self.old) piece.now) }
        ensures stopped { F.tells self.old.file → OnErr result (KeepsUpToChange (F.bytes self.old.file)
            (with_bytes (connection_of F.bytes self.old) piece.now).bytes (F.bytes self.new.file)) }

        // Told or not.
        ensures spot { OnOk result (self.new.spot ≡ spot_between self.old.spot (self.old.spot.at + length piece.now)) }
        ensures size { OnOk result (F.size self.new.file ≡ max (F.size self.old.file) (self.old.spot.at + length piece.now)) }
        ensures modes { self.new.modes ≡ self.old.modes }
        ensures name { self.new.name ≡ self.old.name }
        ensures later { F.count self.old.file ≤ F.count self.new.file }
        ensures failed { result ≡ Err Stop.Failed → Rose (F.count self.old.file) (F.count self.new.file) }
    {
        self.looked = None;
        let at = self.spot.at;
        self.spot = self.spot.between(at);
        let behind = write_stream(&mut self.file, at, piece)?;
        self.spot = self.spot.between(behind);
        Ok(())
    }
}
