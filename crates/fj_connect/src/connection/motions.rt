// The end of an open record, and BACKSPACE, REWIND and ENDFILE (ISO/IEC 1539-1:2004, 9.7).
ghost use Rattle.std.specs.Prelude.{◌≡◌, ◌≢◌, false, ◌≤◌, ◌↔◌, IfOk, IfSome, OnOk, OnErr, List, ℕ};
ghost use Rattle.fj_outside.specs.Faults.{Rose};
ghost use Rattle.fj_span.specs.Change.{KeepsUpToChange};

use crate::connection::Connection;
use crate::spot::{Positioning, Within};
use fj_modes::{Access, Action};
use fj_outside::{Failed, FileStore, Stop};
use fj_seqrec::backspace_line;
use fj_unfrec::backspace_frame;
use fj_value::Condition;

impl<F: FileStore> Connection<F> {
    ghost use Rattle.fj_connect.specs.Spot.{spot_ended, spot_between};
    ghost use Rattle.fj_connect.specs.Connection.{bytes_before};
    ghost use Rattle.fj_connect.specs.Linked.{connection_of};
    ghost use Rattle.fj_connect.specs.Positions.{ended, moved, record_before, has_no_motion, cut_off, known_error};

    /// Puts the line feed that an open record lacks. After a `Stop` nothing is said of the position.
    pub fn end_record(&mut self) -> Result<(), Stop>
        ensures telling { F.tells self.old.file ↔ F.tells self.new.file }
        ensures ended { F.tells self.old.file → OnOk result
            (connection_of F.bytes self.new ≡ ended (connection_of F.bytes self.old)) }
        ensures stopped { F.tells self.old.file → OnErr result (KeepsUpToChange (F.bytes self.old.file)
            (ended (connection_of F.bytes self.old)).bytes (F.bytes self.new.file)) }

        // Told or not.
        ensures spot { OnOk result (self.new.spot ≡ spot_ended self.old.spot) }
        ensures modes { self.new.modes ≡ self.old.modes }
        ensures name { self.new.name ≡ self.old.name }
        ensures later { F.count self.old.file ≤ F.count self.new.file }
        ensures failed { result ≡ Err Stop.Failed → Rose (F.count self.old.file) (F.count self.new.file) }
    {
        if self.spot.within == Within::Writing {
            return self.put_records(b"\n");
        }
        Ok(())
    }

    fn has_no_motion(&self, how: Positioning) -> bool
        ensures { result ≡ has_no_motion self.now.modes how }
    {
        match self.modes.access {
            Access::Direct => true,
            Access::Stream => !self.modes.formatted && how == Positioning::Backspace,
            Access::Sequential => false,
        }
    }

    /// The error of a motion that is known before the file is looked at.
    fn known_error(&self, how: Positioning) -> Option<u8>
        ensures { result ≡ known_error self.now.modes self.now.spot how }
    {
        if self.has_no_motion(how) {
            return Some(28);
        }
        if how != Positioning::Endfile {
            return None;
        }
        if self.modes.action == Action::Read {
            return Some(10);
        }
        if self.spot.after_end {
            return Some(20);
        }
        None
    }

    /// Answers where the record before the position begins.
    fn record_before(&mut self) -> Result<Option<u64>, Failed>
        ensures telling { F.tells self.old.file ↔ F.tells self.new.file }
        ensures same { F.tells self.old.file → F.bytes self.new.file ≡ F.bytes self.old.file }
        ensures start { F.tells self.old.file → IfOk result (λ start. start ≡ record_before (connection_of F.bytes self.old)) }
        ensures before { IfOk result (λ start. IfSome start (λ place. place ≤ F.size self.new.file)) }
        ensures rest { self.new ≡ record self.old { file = self.new.file } }
        ensures later { F.count self.old.file ≤ F.count self.new.file }
        ensures failed { OnErr result (Rose (F.count self.old.file) (F.count self.new.file)) }
    {
        let at = self.spot.at;
        if self.modes.formatted {
            let start = backspace_line(&mut self.file, at)?;
            return Ok(Some(start));
        }
        backspace_frame(&mut self.file, at)
    }

    /// Goes to before the current record, or else the preceding one (9.7.1).
    fn backspace(&mut self) -> Result<Condition, Stop>
        requires { has_no_motion self.old.modes Positioning.Backspace ≡ false }
        ensures telling { F.tells self.old.file ↔ F.tells self.new.file }
        ensures moved { F.tells self.old.file → IfOk result (λ condition.
            (connection_of F.bytes self.new, condition) ≡ moved (connection_of F.bytes self.old) Positioning.Backspace) }
        ensures stopped { F.tells self.old.file → OnErr result (KeepsUpToChange (F.bytes self.old.file)
            (moved (connection_of F.bytes self.old) Positioning.Backspace).0.bytes (F.bytes self.new.file)) }
        ensures modes { self.new.modes ≡ self.old.modes }
        ensures name { self.new.name ≡ self.old.name }
        ensures later { F.count self.old.file ≤ F.count self.new.file }
        ensures failed { result ≡ Err Stop.Failed → Rose (F.count self.old.file) (F.count self.new.file) }
    {
        if self.spot.after_end {
            let at = self.spot.at;
            self.go_between(at);
            return Ok(Condition::Fine);
        }
        if self.spot.within == Within::Reading {
            let start = self.spot.start;
            self.go_between(start);
            return Ok(Condition::Fine);
        }
        self.end_record()?;
        match self.record_before()? {
            Some(place) => {
                self.go_between(place);
                Ok(Condition::Fine)
            }
            None => Ok(Condition::BROKEN_RECORD),
        }
    }

    /// Cuts the file at the position.
    fn cut_behind(&mut self) -> Result<(), Failed>
        requires { self.old.spot.within ≢ Within.Writing }
        ensures telling { F.tells self.old.file ↔ F.tells self.new.file }
        ensures cut { F.tells self.old.file → OnOk result (F.bytes self.new.file ≡ bytes_before (connection_of F.bytes self.old)) }
        ensures stopped { F.tells self.old.file → OnErr result (KeepsUpToChange (F.bytes self.old.file)
            (bytes_before (connection_of F.bytes self.old)) (F.bytes self.new.file)) }
        ensures modes { self.new.modes ≡ self.old.modes }
        ensures name { self.new.name ≡ self.old.name }
        ensures spot { OnOk result (self.new.spot ≡ spot_between self.old.spot self.old.spot.at) }
        ensures size { OnOk result (F.size self.new.file ≡ self.old.spot.at) }
        ensures later { F.count self.old.file ≤ F.count self.new.file }
        ensures failed { OnErr result (Rose (F.count self.old.file) (F.count self.new.file)) }
    {
        self.looked = None;
        let at = self.spot.at;
        self.spot = self.spot.between(at);
        if at < self.file.len() {
            self.file.cut(at)?;
        }
        Ok(())
    }

    /// Makes the position the end of the file (9.7.2).
    fn endfile(&mut self) -> Result<(), Stop>
        ensures telling { F.tells self.old.file ↔ F.tells self.new.file }
        ensures cut { F.tells self.old.file → OnOk result
            (connection_of F.bytes self.new ≡ cut_off (ended (connection_of F.bytes self.old))) }
        ensures stopped { F.tells self.old.file → OnErr result (KeepsUpToChange (F.bytes self.old.file)
            (cut_off (ended (connection_of F.bytes self.old))).bytes (F.bytes self.new.file)) }
        ensures modes { self.new.modes ≡ self.old.modes }
        ensures name { self.new.name ≡ self.old.name }
        ensures later { F.count self.old.file ≤ F.count self.new.file }
        ensures failed { result ≡ Err Stop.Failed → Rose (F.count self.old.file) (F.count self.new.file) }
    {
        if self.spot.within == Within::Writing {
            self.put_records(b"\n")?;
        } else {
            self.cut_behind()?;
        }
        self.go_past_end();
        Ok(())
    }

    /// Carries a motion out (ISO/IEC 1539-1:2004, 9.7). `NO_SUCH_MOTION` (28), `FORBIDDEN_ACTION` (10), `AFTER_ENDFILE` (20) and
    /// `BROKEN_RECORD` (18) are looked for in this order, and nothing changes then. After a `Stop` nothing is said of the position.
    pub fn move_to(&mut self, how: Positioning) -> Result<Condition, Stop>
        ensures telling { F.tells self.old.file ↔ F.tells self.new.file }
        ensures moved { F.tells self.old.file → IfOk result (λ condition.
            (connection_of F.bytes self.new, condition) ≡ moved (connection_of F.bytes self.old) how) }
        ensures stopped { F.tells self.old.file → OnErr result (KeepsUpToChange (F.bytes self.old.file)
            (moved (connection_of F.bytes self.old) how).0.bytes (F.bytes self.new.file)) }

        // Told or not.
        ensures modes { self.new.modes ≡ self.old.modes }
        ensures name { self.new.name ≡ self.old.name }
        ensures later { F.count self.old.file ≤ F.count self.new.file }
        ensures failed { result ≡ Err Stop.Failed → Rose (F.count self.old.file) (F.count self.new.file) }
    {
        if let Some(error) = self.known_error(how) {
            return Ok(Condition::Error(error));
        }
        match how {
            Positioning::Backspace => self.backspace(),
            Positioning::Rewind => {
                self.end_record()?;
                self.go_between(0);
                Ok(Condition::Fine)
            }
            Positioning::Endfile => {
                self.endfile()?;
                Ok(Condition::Fine)
            }
        }
    }
}
