// Records of a connection: formatted ones, sequential and stream, and unformatted ones put as frames.
ghost use Rattle.std.specs.Prelude.{◌≡◌, ◌≢◌, ◌+◌, ◌<◌, ◌≤◌, ◌↔◌, true, length, IfOk, OnOk, OnErr, List, ℕ};
ghost use Rattle.fj_outside.specs.Faults.{Rose};
ghost use Rattle.fj_span.specs.Change.{KeepsUpToChange};
ghost use Rattle.fj_seqrec.specs.Reading.{record_at, HoldsRecord, IsWithin};
ghost use Rattle.fj_modes.specs.Limits.{longest_file};
ghost use Rattle.fj_connect.specs.Spot.{spot_between, spot_writing};

use crate::connection::{Connection, Looked};
use crate::spot::{Spot, Within};
use fj_modes::Access;
use fj_outside::{FileStore, Stop};
use fj_seqrec::{RecordRead, append_records, read_record};

impl<F: FileStore> Connection<F> {
    ghost use Rattle.fj_connect.specs.Connection.{with_records, with_open_record};
    ghost use Rattle.fj_connect.specs.Linked.{connection_of};

    /// Looks at the formatted record that begins at a place in the file (ISO/IEC 1539-1:2004, 9.1.1), counted in bytes from 0. Its
    /// characters are at hand from then on. The position stays. After a `Stop` nothing is said of what is at hand.
    pub fn look_at_record(&mut self, at: u64) -> Result<RecordRead, Stop>
        requires { at ≤ F.size self.old.file }
        ensures telling { F.tells self.old.file ↔ F.tells self.new.file }
        ensures same { F.tells self.old.file → F.bytes self.new.file ≡ F.bytes self.old.file }
        ensures answer { F.tells self.old.file → IfOk result (λ read. read ≡ record_at (F.bytes self.old.file) at self.old.modes.recl) }
        ensures text { F.tells self.old.file → IfOk result (λ read. HoldsRecord (F.bytes self.old.file) at read self.new.hand) }

        // Told or not.
        ensures within { IfOk result (λ read. IsWithin (F.size self.old.file) at self.old.modes.recl read self.new.hand) }
        ensures rest { self.new ≡ record self.old { file = self.new.file; hand = self.new.hand } }
        ensures size { F.size self.new.file ≡ F.size self.old.file }
        ensures later { F.count self.old.file ≤ F.count self.new.file }
        ensures failed { result ≡ Err Stop.Failed → Rose (F.count self.old.file) (F.count self.new.file) }
    {
        if let Some(looked) = self.looked {
            if looked.at == at {
                return Ok(RecordRead::Line { next: looked.next });
            }
        }
        self.looked = None;
        let read = read_record(&mut self.file, at, self.modes.recl, &mut self.hand)?;
        if let RecordRead::Line { next } = read {
            self.looked = Some(Looked { at, next });
        }
        Ok(read)
    }

    /// Puts records, formatted ones each with its line feed or an unformatted one as its frame, at the position by one
    /// write, as the last of the file. After a `Stop` nothing is said of the position.
    pub fn put_records(&mut self, text: &[u8]) -> Result<(), Stop>
        requires { self.old.spot.at + length text.now ≤ longest_file }
        ensures telling { F.tells self.old.file ↔ F.tells self.new.file }
        ensures put { F.tells self.old.file → OnOk result
            (connection_of F.bytes self.new ≡ with_records (connection_of F.bytes self.old) text.now) }
        ensures stopped { F.tells self.old.file → OnErr result (KeepsUpToChange (F.bytes self.old.file)
            (with_records (connection_of F.bytes self.old) text.now).bytes (F.bytes self.new.file)) }

        // Told or not.
        ensures spot { OnOk result (self.new.spot ≡ spot_between self.old.spot (self.old.spot.at + length text.now)) }
        ensures size { OnOk result (F.size self.new.file ≡ self.old.spot.at + length text.now) }
        ensures modes { self.new.modes ≡ self.old.modes }
        ensures name { self.new.name ≡ self.old.name }
        ensures later { F.count self.old.file ≤ F.count self.new.file }
        ensures failed { result ≡ Err Stop.Failed → Rose (F.count self.old.file) (F.count self.new.file) }
    {
        self.looked = None;
        let at = self.spot.at;
        self.spot = self.spot.between(at);
        let behind = append_records(&mut self.file, at, text, true)?;
        self.spot = self.spot.between(behind);
        Ok(())
    }

    /// Puts records at the position, as the last of the file, and leaves the last one open, which has so many characters.
    /// After a `Stop` nothing is said of the position.
    pub fn put_open_record(&mut self, text: &[u8], count: u64) -> Result<(), Stop>
        requires formatted { self.old.modes.formatted ≡ true }
        requires access { self.old.modes.access ≢ Access.Direct }
        requires limit { self.old.spot.at + length text.now < longest_file }
        requires count { count ≤ self.old.spot.at + length text.now }
        ensures telling { F.tells self.old.file ↔ F.tells self.new.file }
        ensures put { F.tells self.old.file → OnOk result
            (connection_of F.bytes self.new ≡ with_open_record (connection_of F.bytes self.old) text.now count) }
        ensures stopped { F.tells self.old.file → OnErr result (KeepsUpToChange (F.bytes self.old.file)
            (with_open_record (connection_of F.bytes self.old) text.now count).bytes (F.bytes self.new.file)) }

        // Told or not.
        ensures spot { OnOk result (self.new.spot ≡ spot_writing self.old.spot (self.old.spot.at + length text.now) count) }
        ensures size { OnOk result (F.size self.new.file ≡ self.old.spot.at + length text.now) }
        ensures modes { self.new.modes ≡ self.old.modes }
        ensures name { self.new.name ≡ self.old.name }
        ensures later { F.count self.old.file ≤ F.count self.new.file }
        ensures failed { result ≡ Err Stop.Failed → Rose (F.count self.old.file) (F.count self.new.file) }
    {
        self.put_records(text)?;
        let behind = self.spot.at;
        let next_number = self.spot.next_number;
        self.spot = Spot {
            at: behind,
            start: behind - count,
            within: Within::Writing,
            after_end: false,
            next_number,
        };
        Ok(())
    }
}
