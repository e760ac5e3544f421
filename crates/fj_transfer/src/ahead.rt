// The records of a connection one after another, as list-directed and namelist input reads them, and where that comes to (ISO/IEC 1539-1:2004, 10.9.1 and 10.10.1).
ghost use Rattle.std.specs.Prelude.{◌≡◌, ◌≤◌, ◌↔◌, length, All, IfOk};
ghost use Rattle.fj_outside.specs.Faults.{Rose};
ghost use Rattle.fj_list.specs.ListInput.{list_input};
ghost use Rattle.fj_moved.specs.Cells.{places_of};
ghost use Rattle.fj_moved.specs.Moved.{IsOrdered};
ghost use Rattle.fj_namelist.specs.GroupInput.{group_input};
ghost use Rattle.fj_namelist.specs.GroupText.{IsWithin};
ghost use Rattle.fj_connect.specs.Linked.{connection_of};
ghost use Rattle.fj_connect.specs.Positions.{ended};
ghost use Rattle.fj_connect.specs.Spot.{size_ended};
ghost use Rattle.fj_transfer.specs.Ahead.{Begun, nowhere, HasCome, Comes};
ghost use Rattle.fj_transfer.specs.Places.{at_place, IsPlace};
ghost use Rattle.fj_transfer.specs.Transfer.{records_to_come, condition_to_come};

use crate::look::look_on;
use crate::reached::Reached;
use fj_connect::Connection;
use fj_list::{More, Records, read_list};
use fj_moved::{GroupMember, Moved};
use fj_namelist::read_group;
use fj_outside::{FileStore, Stop};
use fj_seqrec::RecordRead;
use fj_value::{Condition, EditModes, Text};
use std::alloc::Global;
use std::marker::{Brand, PhantomData};

/// Where an input began.
pub trait Beginning {
    ghost begun: { Begun };
}

impl Beginning for Brand {
    ghost begun = { nowhere };
}

/// The records of a connection from a place on, or from the position on. Nothing is written, and the position stays.
#[derive(Drop)]
struct RecordsAhead<'a, F: FileStore, B: Beginning> {
    connection: &'a mut Connection<F>,
    /// The place behind the last record that was looked at, if there is one.
    place: Option<u64>,
    begun: PhantomData<B>,
    ghost come: { HasCome (F.tells connection.now.file) (connection_of F.bytes connection.now) (F.size connection.now.file) place B.begun },
}

impl<F: FileStore, B: Beginning> Records for RecordsAhead<'_, F, B> {
    ghost use Rattle.fj_transfer.specs.Ahead.{ending_of, records_bound};

    ghost tells = { λ r. F.tells r.connection.now.file };

    ghost to_come = { λ r. records_to_come (at_place r.place (ended (connection_of F.bytes r.connection.now))) };

    ghost ending = { λ r. ending_of (condition_to_come (at_place r.place (ended (connection_of F.bytes r.connection.now)))) };

    ghost bound = { λ r. records_bound r.place (size_ended r.connection.now.spot (F.size r.connection.now.file)) };

    ghost count = { λ r. F.count r.connection.now.file };

    ghost source = { λ r. r.connection.ghost_name };

    fn next(&mut self, into: &mut Text) -> Result<More, Stop> {
        match look_on(self.connection, self.place)? {
            RecordRead::Line { next } => {
                into.clear();
                into.push_all(self.connection.hand())?;
                self.place = Some(next);
                Ok(More::Record)
            }
            RecordRead::End => Ok(More::End),
            RecordRead::TooLong => Ok(More::Refused(Condition::RECORD_TOO_LONG)),
        }
    }

    fn faults(&self) -> u64 {
        self.connection.faults()
    }
}

/// Reads the items by list-directed formatting. The connection stays.
#[tactic(auto, using(crate::proofs::AheadLemmas::same_as))]
pub fn list_from<F: FileStore, B: Beginning>(
    alloc: Global,
    connection: &mut Connection<F>,
    place: Option<u64>,
    modes: EditModes,
    moved: &mut Moved,
) -> Result<Reached, Stop>
    requires begun { B.begun ≡ record { connection = connection_of F.bytes connection.old; size = F.size connection.old.file; place = place } }
    requires place { IsPlace place (size_ended connection.old.spot (F.size connection.old.file)) }
    requires ordered { IsOrdered moved.old }
    ensures telling { F.tells connection.old.file ↔ F.tells connection.new.file }
    ensures same { F.tells connection.old.file → connection_of F.bytes connection.new ≡ connection_of F.bytes connection.old }
    ensures comes { F.tells connection.old.file → let old = ended (connection_of F.bytes connection.old) in let c = at_place place old in
        IfOk result (λ reached. Comes reached moved.new.cells old place
        (list_input modes.comma (records_to_come c) (condition_to_come c) moved.old.cells moved.old.order)) }

    // Told or not.
    ensures within { IfOk result (λ reached. IsPlace reached.place (size_ended connection.old.spot (F.size connection.old.file))) }
    ensures order { moved.new.order ≡ moved.old.order }
    ensures places { places_of moved.new.cells ≡ places_of moved.old.cells }
    ensures modes { connection.new.modes ≡ connection.old.modes }
    ensures name { connection.new.name ≡ connection.old.name }
    ensures spot { connection.new.spot ≡ connection.old.spot }
    ensures size { F.size connection.new.file ≡ F.size connection.old.file }
    ensures later { F.count connection.old.file ≤ F.count connection.new.file }
    ensures failed { result ≡ Err Stop.Failed → Rose (F.count connection.old.file) (F.count connection.new.file) }
{
    let mut records = RecordsAhead::<F, B> {
        connection,
        place,
        begun: PhantomData,
    };
    let condition = read_list(alloc, &mut records, moved, modes)?;
    let place = records.place;
    Ok(Reached { condition, place })
}

/// Reads a namelist group. The connection stays.
#[tactic(auto, using(crate::proofs::AheadLemmas::same_as))]
pub fn group_from<F: FileStore, B: Beginning>(
    alloc: Global,
    connection: &mut Connection<F>,
    place: Option<u64>,
    group: &[u8],
    members: &[GroupMember],
    modes: EditModes,
    moved: &mut Moved,
) -> Result<Reached, Stop>
    requires begun { B.begun ≡ record { connection = connection_of F.bytes connection.old; size = F.size connection.old.file; place = place } }
    requires place { IsPlace place (size_ended connection.old.spot (F.size connection.old.file)) }
    requires cells { All (IsWithin (length moved.old.cells)) members.now }
    ensures telling { F.tells connection.old.file ↔ F.tells connection.new.file }
    ensures same { F.tells connection.old.file → connection_of F.bytes connection.new ≡ connection_of F.bytes connection.old }
    ensures comes { F.tells connection.old.file → let old = ended (connection_of F.bytes connection.old) in let c = at_place place old in
        IfOk result (λ reached. Comes reached moved.new.cells old place
        (group_input modes.comma (records_to_come c) (condition_to_come c) group.now members.now moved.old.cells)) }

    // Told or not.
    ensures within { IfOk result (λ reached. IsPlace reached.place (size_ended connection.old.spot (F.size connection.old.file))) }
    ensures order { moved.new.order ≡ moved.old.order }
    ensures places { places_of moved.new.cells ≡ places_of moved.old.cells }
    ensures modes { connection.new.modes ≡ connection.old.modes }
    ensures name { connection.new.name ≡ connection.old.name }
    ensures spot { connection.new.spot ≡ connection.old.spot }
    ensures size { F.size connection.new.file ≡ F.size connection.old.file }
    ensures later { F.count connection.old.file ≤ F.count connection.new.file }
    ensures failed { result ≡ Err Stop.Failed → Rose (F.count connection.old.file) (F.count connection.new.file) }
{
    let mut records = RecordsAhead::<F, B> {
        connection,
        place,
        begun: PhantomData,
    };
    let condition = read_group(alloc, &mut records, group, members, moved, modes)?;
    let place = records.place;
    Ok(Reached { condition, place })
}
