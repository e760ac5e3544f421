// The records of a file as it is to be once its open record is ended.
ghost use Rattle.std.specs.Prelude.{◌≡◌, ◌≢◌, ◌+◌, ◌<◌, ◌≤◌, ◌^◌, ◌↔◌, length, IfOk, List, ℕ};
ghost use Rattle.std.specs.Str.Lines.{strip_carriage_return};
ghost use Rattle.fj_outside.specs.Faults.{Rose};
ghost use Rattle.fj_seqrec.specs.Reading.{record_at, HoldsRecord, IsWithin};
ghost use Rattle.fj_connect.specs.Spot.{size_ended};

use crate::connection::Connection;
use crate::spot::Within;
use fj_outside::{FileStore, Stop};
use fj_seqrec::{RecordRead, read_record};
use fj_value::Text;

/// Takes a record as it is once a line feed stands behind the file's last byte: where it had none at its end it has that
/// one, and a carriage return before it is no character of the record. Answers the place behind the record.
fn with_feed(held: &mut Text, at: u64, next: u64) -> u64
    requires behind { at + length held.old ≤ next }
    requires fits { next < 2 ^ 32 }
    ensures unfed { next ≡ at + length held.old → (result ≡ next + 1) × (held.new ≡ strip_carriage_return held.old) }
    ensures fed { next ≢ at + length held.old → (result ≡ next) × (held.new ≡ held.old) }
{
    if next > at + held.len() as u64 {
        return next;
    }
    if let Some(b'\r') = held.bytes().last() {
        held.truncate(held.len() - 1);
    }
    next + 1
}

impl<F: FileStore> Connection<F> {
    ghost use Rattle.fj_connect.specs.Linked.{connection_of};
    ghost use Rattle.fj_connect.specs.Positions.{ended};

    /// Looks at the record that begins at a place of the file as it is once the open record, if there is one, is ended.
    /// Its characters are at hand from then on. Nothing is written, and the position stays, so a statement that ends an
    /// open record knows what it will read before it changes the file. After a `Stop` nothing is said of what is at hand.
    pub fn look_as_ended(&mut self, at: u64) -> Result<RecordRead, Stop>
        requires { at ≤ size_ended self.old.spot (F.size self.old.file) }
        ensures telling { F.tells self.old.file ↔ F.tells self.new.file }
        ensures same { F.tells self.old.file → F.bytes self.new.file ≡ F.bytes self.old.file }
        ensures answer { F.tells self.old.file → IfOk result (λ read.
            read ≡ record_at (ended (connection_of F.bytes self.old)).bytes at self.old.modes.recl) }
        ensures text { F.tells self.old.file → IfOk result (λ read.
            HoldsRecord (ended (connection_of F.bytes self.old)).bytes at read self.new.hand) }

        // Told or not.
        ensures within { IfOk result (λ read.
            IsWithin (size_ended self.old.spot (F.size self.old.file)) at self.old.modes.recl read self.new.hand) }
        ensures rest { self.new ≡ record self.old { file = self.new.file; hand = self.new.hand } }
        ensures size { F.size self.new.file ≡ F.size self.old.file }
        ensures later { F.count self.old.file ≤ F.count self.new.file }
        ensures failed { result ≡ Err Stop.Failed → Rose (F.count self.old.file) (F.count self.new.file) }
    {
        if self.spot.within != Within::Writing {
            return self.look_at_record(at);
        }
        if at >= self.file.len() {
            return Ok(self.look_at_end(at));
        }
        self.look_in_front(at)
    }

    /// The same behind the last byte of a file with an open record.
    fn look_at_end(&mut self, at: u64) -> RecordRead
        requires writing { self.old.spot.within ≡ Within.Writing }
        requires end { F.size self.old.file ≤ at }
        requires last { at ≤ F.size self.old.file + 1 }
        ensures answer { F.tells self.old.file →
            result ≡ record_at (ended (connection_of F.bytes self.old)).bytes at self.old.modes.recl }
        ensures text { F.tells self.old.file →
            HoldsRecord (ended (connection_of F.bytes self.old)).bytes at result self.new.hand }
        ensures within { IsWithin (F.size self.old.file + 1) at self.old.modes.recl result self.new.hand }
        ensures rest { self.new ≡ record self.old { hand = self.new.hand } }
    {
        self.looked = None;
        self.hand.clear();
        if at > self.file.len() {
            return RecordRead::End;
        }
        RecordRead::Line { next: at + 1 }
    }

    /// The same of a record that begins before the last byte of a file with an open record.
    fn look_in_front(&mut self, at: u64) -> Result<RecordRead, Stop>
        requires writing { self.old.spot.within ≡ Within.Writing }
        requires front { at < F.size self.old.file }
        ensures telling { F.tells self.old.file ↔ F.tells self.new.file }
        ensures same { F.tells self.old.file → F.bytes self.new.file ≡ F.bytes self.old.file }
        ensures answer { F.tells self.old.file → IfOk result (λ read.
            read ≡ record_at (ended (connection_of F.bytes self.old)).bytes at self.old.modes.recl) }
        ensures text { F.tells self.old.file → IfOk result (λ read.
            HoldsRecord (ended (connection_of F.bytes self.old)).bytes at read self.new.hand) }
        ensures within { IfOk result (λ read. IsWithin (F.size self.old.file + 1) at self.old.modes.recl read self.new.hand) }
        ensures rest { self.new ≡ record self.old { file = self.new.file; hand = self.new.hand } }
        ensures size { F.size self.new.file ≡ F.size self.old.file }
        ensures later { F.count self.old.file ≤ F.count self.new.file }
        ensures failed { result ≡ Err Stop.Failed → Rose (F.count self.old.file) (F.count self.new.file) }
    {
        let in_front = at < self.file.len();
        prove!(in_front);
        self.looked = None;
        let limit = self.modes.recl;
        let read = read_record(&mut self.file, at, limit + 1, &mut self.hand)?;
        let RecordRead::Line { next } = read else {
            return Ok(read);
        };
        let next = with_feed(&mut self.hand, at, next);
        if self.hand.len() > limit as usize {
            self.hand.clear();
            return Ok(RecordRead::TooLong);
        }
        Ok(RecordRead::Line { next })
    }
}
