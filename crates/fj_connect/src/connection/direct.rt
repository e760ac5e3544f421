// Records of direct access.
ghost use Rattle.std.specs.Prelude.{◌≡◌, ◌+◌, ◌*◌, ◌<◌, ◌≤◌, ◌^◌, ◌↔◌, length, max, IfOk, IsTrue, OnOk, OnErr, List, ℕ, Some, None, if◌then◌else◌};
ghost use Rattle.fj_outside.specs.Faults.{Rose};
ghost use Rattle.fj_span.specs.Change.{KeepsUpToChange};
ghost use Rattle.fj_byterec.specs.Pieces.{piece};
ghost use Rattle.fj_modes.specs.Limits.{longest_file};

use crate::connection::Connection;
use fj_byterec::{read_direct, write_run};
use fj_modes::Access;
use fj_outside::{FileStore, Stop};
use fj_value::Text;

impl<F: FileStore> Connection<F> {
    ghost use Rattle.fj_connect.specs.DirectRuns.{with_direct_run};
    ghost use Rattle.fj_connect.specs.Linked.{connection_of};

    /// Reads the direct record of a number, counted from 1 (ISO/IEC 1539-1:2004, 9.2.2.2); false where there is none. The
    /// connection stays as it is. `into` gets the record, and after a `Stop` is of no account.
    pub fn read_direct(&mut self, number: u64, into: &mut Text) -> Result<bool, Stop>
        requires { 0 < number }
        ensures telling { F.tells self.old.file ↔ F.tells self.new.file }
        ensures same { F.tells self.old.file → F.bytes self.new.file ≡ F.bytes self.old.file }
        ensures record { F.tells self.old.file → IfOk result (λ there.
            (if there then Some into.new else None) ≡ piece (F.bytes self.old.file) self.old.modes.recl number) }

        // Told or not.
        ensures there { IfOk result (λ there. IsTrue there ↔ (number * self.old.modes.recl ≤ F.size self.old.file)) }
        ensures length { IfOk result (λ there. length into.new ≡ (if there then self.old.modes.recl else 0)) }
        ensures rest { self.new ≡ record self.old { file = self.new.file } }
        ensures size { F.size self.new.file ≡ F.size self.old.file }
        ensures later { F.count self.old.file ≤ F.count self.new.file }
        ensures failed { result ≡ Err Stop.Failed → Rose (F.count self.old.file) (F.count self.new.file) }
    {
        read_direct(&mut self.file, self.modes.recl, number, into)
    }

    /// Puts the bytes of whole direct records, one or more, from a place on by one write; the last has this number. The gap
    /// before them is filled up first, with a byte. After a `Stop` nothing is said of the next record's number.
    pub fn put_direct_run(
        &mut self,
        start: u64,
        run: &[u8],
        last: u64,
        fill: u8,
    ) -> Result<(), Stop>
        requires access { self.old.modes.access ≡ Access.Direct }
        requires limit { start + length run.now ≤ longest_file }
        requires last { last < 2 ^ 63 }
        ensures telling { F.tells self.old.file ↔ F.tells self.new.file }
        ensures put { F.tells self.old.file → OnOk result
            (connection_of F.bytes self.new ≡ with_direct_run (connection_of F.bytes self.old) start run.now last fill) }
        ensures stopped { F.tells self.old.file → OnErr result (KeepsUpToChange (F.bytes self.old.file)
            (with_direct_run (connection_of F.bytes self.old) start run.now last fill).bytes (F.bytes self.new.file)) }

        // Told or not.
        ensures modes { self.new.modes ≡ self.old.modes }
        ensures name { self.new.name ≡ self.old.name }
        ensures later { F.count self.old.file ≤ F.count self.new.file }
        ensures failed { result ≡ Err Stop.Failed → Rose (F.count self.old.file) (F.count self.new.file) }
    {
        self.looked = None;
        write_run(&mut self.file, start, run, fill)?;
        self.spot.next_number = last + 1;
        Ok(())
    }
}
