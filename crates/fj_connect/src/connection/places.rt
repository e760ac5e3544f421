// Other positions in the same file (ISO/IEC 1539-1:2004, 9.2.3).
ghost use Rattle.std.specs.Prelude.{◌≡◌, ◌≢◌, ◌+◌, ◌<◌, ◌≤◌, ◌^◌, List, ℕ};
ghost use Rattle.fj_connect.specs.Spot.{spot_between, spot_in_record, spot_past_end};

use crate::connection::Connection;
use crate::spot::{Spot, Within};
use fj_modes::Access;
use fj_outside::FileStore;

impl<F: FileStore> Connection<F> {
    ghost use Rattle.fj_connect.specs.Connection.{past_end};
    ghost use Rattle.fj_connect.specs.Linked.{connection_of};

    /// Goes to a place in the file, between records.
    pub fn go_between(&mut self, place: u64)
        requires { place ≤ F.size self.old.file }
        ensures { self.new ≡ record self.old { spot = spot_between self.old.spot place } }
    {
        self.spot = self.spot.between(place);
    }

    /// Goes into a record of input that begins at a place, so many characters behind its start.
    pub fn go_into_record(&mut self, start: u64, count: u64)
        requires { start + count ≤ F.size self.old.file }
        ensures { self.new ≡ record self.old { spot = spot_in_record self.old.spot start count } }
    {
        let next_number = self.spot.next_number;
        self.spot = Spot {
            at: start + count,
            start,
            within: Within::Reading,
            after_end: false,
            next_number,
        };
    }

    /// Goes to the end of the file, in sequential access behind the endfile record.
    pub fn go_past_end(&mut self)
        ensures spot { self.new ≡ record self.old { spot = spot_past_end self.old.modes self.old.spot (F.size self.old.file) } }
        ensures end { F.tells self.old.file → connection_of F.bytes self.new ≡ past_end (connection_of F.bytes self.old) }
    {
        let mut spot = self.spot.between(self.file.len());
        spot.after_end = self.modes.access == Access::Sequential;
        self.spot = spot;
    }

    /// Tells that the direct record of a number was read or written.
    pub fn set_number(&mut self, number: u64)
        requires { number + 1 < 2 ^ 64 }
        ensures { self.new ≡ record self.old { spot = record self.old.spot { next_number = number + 1 } } }
    {
        self.spot.next_number = number + 1;
    }
}
