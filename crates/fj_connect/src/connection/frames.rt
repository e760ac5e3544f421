// Unformatted records of sequential access.
ghost use Rattle.std.specs.Prelude.{◌≡◌, ◌≤◌, ◌↔◌, IfOk, List, ℕ};
ghost use Rattle.fj_outside.specs.Faults.{Rose};
ghost use Rattle.fj_unfrec.specs.Reading.{frame_at, HoldsFrame, IsWithin};

use crate::connection::Connection;
use fj_outside::{FileStore, Stop};
use fj_unfrec::{FrameRead, read_frame};
use fj_value::Text;

impl<F: FileStore> Connection<F> {
    /// Reads the unformatted record at the position (ISO/IEC 1539-1:2004, 9.1.2), which stays. `into` gets its bytes, and after a
    /// `Stop` is of no account.
    pub fn read_frame(&mut self, into: &mut Text) -> Result<FrameRead, Stop>
        ensures telling { F.tells self.old.file ↔ F.tells self.new.file }
        ensures same { F.tells self.old.file → F.bytes self.new.file ≡ F.bytes self.old.file }
        ensures answer { F.tells self.old.file → IfOk result (λ read.
            read ≡ frame_at (F.bytes self.old.file) self.old.spot.at self.old.modes.recl) }
        ensures text { F.tells self.old.file → IfOk result (λ read. HoldsFrame (F.bytes self.old.file) self.old.spot.at read into.new) }

        // Told or not.
        ensures within { IfOk result (λ read. IsWithin (F.size self.old.file) self.old.spot.at self.old.modes.recl read into.new) }
        ensures rest { self.new ≡ record self.old { file = self.new.file } }
        ensures size { F.size self.new.file ≡ F.size self.old.file }
        ensures later { F.count self.old.file ≤ F.count self.new.file }
        ensures failed { result ≡ Err Stop.Failed → Rose (F.count self.old.file) (F.count self.new.file) }
    {
        read_frame(&mut self.file, self.spot.at, self.modes.recl, into)
    }
}
