// The calls of a program on its unit: each is a statement.
ghost use Rattle.std.specs.Prelude.{◌≡◌, ◌≢◌, ◌+◌, ◌<◌, ◌^◌, [], length, map, replicate, false, true, Some, slice_get, IfOk, IfErr, IfSome, IfNone, OnErr, OnOk, None, option_map, if◌then◌else◌, IsTrue};
ghost use Rattle.fj_value.specs.declared.value.Value.TheVariants.{Undefined, Int};
ghost use Rattle.fj_value.specs.declared.condition.Condition.TheVariants.{Fine};
ghost use Rattle.fj_transfer.specs.Moving.{members_of};
ghost use Rattle.fj_bay.specs.Jobs.{move, attach, detach};
ghost use Rattle.fj_bay.specs.Serving.{serve};
ghost use Rattle.fj_modes.specs.Modes.{settled};
ghost use Rattle.fj_connect.specs.Linked.{connection_of};
ghost use Rattle.fj_unit.specs.Held.{bytes};
ghost use Rattle.fj_unit.specs.Unit.{fresh, given, told};
ghost use Rattle.fj_unit.specs.Program.{waited_all, WaitsFor, LacksId, HasValues, MayEnd};
ghost use Rattle.fj_unit.specs.Statements.{by_format, moving, attached, connected_by, bytes_out, modes_of, refusal};

use crate::files::{bytes_left, connection_to};
use crate::refusal::refusal;
use crate::transfer::{short_values_of, transfer_job, undefined, values_of};
use crate::unit::{Outcome, Unit};
use crate::waits::{copy_told, tell_all, tell_one};
use fj_bay::Job;
use fj_connect::{Connection, OpenFault};
use fj_format::Format;
use fj_modes::{FileName, Modes, OpenSpec, settle_open};
use fj_outside::{MemoryFile, Stop};
use fj_transfer::Layout;
use fj_value::{Boxed, Condition, Items, Kind, Value};
use std::alloc::{AllocError, Global};
use std::marker::Model;

/// A unit as a program uses it.
#[derive(Drop)]
pub struct Session {
    unit: Unit,
    next: u32,
    // those of its connection
    modes: Option<Modes>,
    // what was taken out of the unit, and not told
    kept: Vec<Outcome>,
    told: Vec<Outcome>,
}

impl Model for Session {
    ghost use Rattle.fj_unit.specs.Program.{Program, held_by};
    ghost use Rattle.fj_unit.specs.Statements.{modes_of};
    ghost use Rattle.std.specs.Prelude.{◌≡◌};
    ghost use Rattle.std.specs.Coded.{codes};
    ghost use Rattle.fj_format.specs.contracts.item.FormatItem as item;

    ghost Value = { Program };

    ghost coded = { Prim.hlevel (codes, item.the_row.coded) };

    ghost view = { λ s. held_by s.unit s.next s.kept.items s.told.items };

    ghost invariant = { λ s. modes_of s.unit.bay ≡ s.modes };
}

/// The layout of a transfer under a format, or without one.
pub fn layout_of(format: &Option<Format>) -> Result<Layout, AllocError>
    ensures layout { IfOk result (λ layout. layout ≡ by_format format.now) }
    ensures alone { IfOk result (λ layout. members_of layout ≡ []) }
{
    match format {
        Some(format) => Ok(Layout::Explicit(format.try_clone()?)),
        None => Ok(Layout::Unformatted),
    }
}

/// Takes a connection in.
#[tactic(auto, using(crate::proofs::Modes::modes_attached, crate::proofs::Modes::modes_stand))]
fn take_in(
    unit: &mut Unit,
    modes: &mut Option<Modes>,
    alloc: Global,
    connection: Connection<MemoryFile>,
) -> Result<(), Stop>
    requires none { unit.old.pending ≡ [] }
    requires modes { modes_of unit.old.bay ≡ modes.old }
    ensures ok { OnOk result (unit.new ≡ told (given unit.old (attach (Some (connection_of bytes connection))))) }
    ensures modes { modes_of unit.new.bay ≡ modes.new }
{
    let brought = *connection.modes();
    let job = Job::Attach(Boxed::new(alloc, Some(connection))?);
    unit.give(job)?;
    if modes.is_none() {
        *modes = Some(brought);
    }
    match unit.tell_next() {
        Some(Ok(_)) => Ok(()),
        Some(Err(stop)) => Err(stop),
        None => Err(Stop::Failed),
    }
}

/// OPEN of a unit that is not connected.
fn open(
    unit: &mut Unit,
    modes: &mut Option<Modes>,
    alloc: Global,
    name: &FileName,
    spec: &OpenSpec,
    found: &[u8],
    is_there: bool,
) -> Result<Condition, Stop>
    requires none { unit.old.pending ≡ [] }
    requires modes { modes_of unit.old.bay ≡ modes.old }
    ensures modes { modes_of unit.new.bay ≡ modes.new }
    ensures opened { IfOk result (λ condition. (unit.new, condition)
        ≡ attached unit.old (connected_by (if is_there then Some found.now else None) name.now spec.now (settled spec.now))) }
{
    let settled = match settle_open(spec) {
        Ok(settled) => settled,
        Err(condition) => return Ok(condition),
    };
    match connection_to(alloc, name, spec, settled, found, is_there) {
        Ok(connection) => {
            take_in(unit, modes, alloc, connection)?;
            Ok(Condition::Fine)
        }
        Err(OpenFault::Refused(condition)) => Ok(condition),
        Err(OpenFault::Stop(stop)) => Err(stop),
    }
}

/// CLOSE of a unit that has nothing pending.
#[tactic(auto, using(crate::proofs::Modes::modes_detached))]
fn close(unit: &mut Unit, modes: &mut Option<Modes>, alloc: Global) -> Result<Option<Vec<u8>>, Stop>
    requires none { unit.old.pending ≡ [] }
    requires modes { modes_of unit.old.bay ≡ modes.old }
    ensures modes { modes_of unit.new.bay ≡ modes.new }
    ensures unit { OnOk result (unit.new ≡ told (given unit.old (detach None))) }
    ensures file { IfOk result (λ left. option_map (λ copy. copy.items) left ≡ bytes_out (serve unit.old.bay (detach None)).job) }
{
    let job = Job::Detach(Boxed::new(alloc, None)?);
    unit.give(job)?;
    *modes = None;
    match unit.tell_next() {
        Some(Ok(outcome)) => bytes_left(alloc, outcome.job),
        Some(Err(stop)) => Err(stop),
        None => Err(Stop::Failed),
    }
}

impl Session {
    /// A unit that is not connected.
    pub fn new(alloc: Global) -> Result<Session, AllocError>
        ensures { IfOk result (λ session. session ≡ record { unit = fresh; next = 1; told = [] }) }
    {
        Ok(Session {
            unit: Unit::new(alloc)?,
            next: 1,
            modes: None,
            kept: Vec::new(alloc),
            told: Vec::new(alloc),
        })
    }

    /// The identifier that the next transfer gets.
    pub fn next(&self) -> u32
        ensures { result ≡ self.now.next }
    {
        self.next
    }

    /// Whether a transfer is pending.
    pub fn has_pending(&self) -> bool
        ensures none { result ≡ false → self.now.unit.pending ≡ [] }
        ensures some { self.now.unit.pending ≡ [] → result ≡ false }
    {
        self.kept.len() != 0 || self.unit.count_pending() != 0
    }

    /// OPEN of a unit that is not connected, to a file of these bytes, or to one that is not there yet.
    pub fn open(
        &mut self,
        alloc: Global,
        name: &FileName,
        spec: &OpenSpec,
        found: &[u8],
        is_there: bool,
    ) -> Result<Condition, Stop>
        requires { self.old.unit.pending ≡ [] }
        ensures opened { IfOk result (λ condition. (self.new.unit, condition)
            ≡ attached self.old.unit (connected_by (if is_there then Some found.now else None) name.now spec.now (settled spec.now))) }
        ensures next { self.new.next ≡ self.old.next }
        ensures told { self.new.told ≡ self.old.told }
    {
        open(
            &mut self.unit,
            &mut self.modes,
            alloc,
            name,
            spec,
            found,
            is_there,
        )
    }

    /// CLOSE of a unit that has nothing pending: what its file is to hold then, where it was connected.
    pub fn close(&mut self, alloc: Global) -> Result<Option<Vec<u8>>, Stop>
        requires { self.old.unit.pending ≡ [] }
        ensures unit { OnOk result (self.new.unit ≡ told (given self.old.unit (detach None))) }
        ensures file { IfOk result (λ left. option_map (λ copy. copy.items) left ≡ bytes_out (serve self.old.unit.bay (detach None)).job) }
        ensures next { self.new.next ≡ self.old.next }
        ensures told { self.new.told ≡ self.old.told }
    {
        close(&mut self.unit, &mut self.modes, alloc)
    }

    /// Makes a READ or WRITE pending under the next identifier. A refusal or want of memory changes nothing.
    #[tactic(auto, using(crate::proofs::Modes::modes_moved))]
    fn begin(
        &mut self,
        alloc: Global,
        input: bool,
        layout: Layout,
        kind: Kind,
        values: Items<Value>,
    ) -> Result<Result<u32, Condition>, AllocError>
        requires few { length values < 2 ^ 32 }
        requires alone { members_of layout ≡ [] }
        requires next { self.old.next < 4294967295 }
        ensures refused { IfOk result (λ it. IfErr it (λ condition. (condition ≢ Fine) × (condition ≡ refusal (modes_of self.old.unit.bay) input layout) × (self.new ≡ self.old))) }
        ensures fits { IfOk result (λ it. IfOk it (λ _. refusal (modes_of self.old.unit.bay) input layout ≡ Fine)) }
        ensures id { IfOk result (λ it. IfOk it (λ id. id ≡ self.old.next)) }
        ensures pending { IfOk result (λ it. IfOk it (λ id. self.new ≡ record self.old { unit = given self.old.unit (move (moving id input layout kind values)); next = self.old.next + 1 })) }
        ensures err { OnErr result (self.new ≡ self.old) }
    {
        let condition = refusal(&self.modes, input, &layout);
        match condition {
            Condition::Fine => {}
            Condition::EndOfFile | Condition::EndOfRecord | Condition::Error(_) => {
                return Ok(Err(condition));
            }
        }
        let id = self.next;
        let job = transfer_job(alloc, id, input, layout, kind, values)?;
        self.unit.give(job)?;
        self.next += 1;
        Ok(Ok(id))
    }

    /// WRITE of an array of INTEGER(8), pending under the identifier that it answers. The values are those at the call.
    pub fn write(
        &mut self,
        alloc: Global,
        layout: Layout,
        numbers: &[i64],
    ) -> Result<Result<u32, Condition>, AllocError>
        requires few { length numbers.now < 2 ^ 32 }
        requires alone { members_of layout ≡ [] }
        requires next { self.old.next < 4294967295 }
        ensures refused { IfOk result (λ it. IfErr it (λ condition. (condition ≢ Fine) × (condition ≡ refusal (modes_of self.old.unit.bay) false layout) × (self.new ≡ self.old))) }
        ensures fits { IfOk result (λ it. IfOk it (λ _. refusal (modes_of self.old.unit.bay) false layout ≡ Fine)) }
        ensures id { IfOk result (λ it. IfOk it (λ id. id ≡ self.old.next)) }
        ensures pending { IfOk result (λ it. IfOk it (λ id. self.new ≡ record self.old {
          unit = given self.old.unit (move (moving id false layout Kind.Int8 (map Int numbers.now)));
          next = self.old.next + 1;
        })) }
        ensures err { OnErr result (self.new ≡ self.old) }
    {
        let values = values_of(alloc, numbers)?;
        self.begin(alloc, false, layout, Kind::Int8, values)
    }

    /// WRITE of an array of INTEGER(4).
    pub fn write_short(
        &mut self,
        alloc: Global,
        layout: Layout,
        numbers: &[i32],
    ) -> Result<Result<u32, Condition>, AllocError>
        requires few { length numbers.now < 2 ^ 32 }
        requires alone { members_of layout ≡ [] }
        requires next { self.old.next < 4294967295 }
        ensures refused { IfOk result (λ it. IfErr it (λ condition. (condition ≢ Fine) × (condition ≡ refusal (modes_of self.old.unit.bay) false layout) × (self.new ≡ self.old))) }
        ensures fits { IfOk result (λ it. IfOk it (λ _. refusal (modes_of self.old.unit.bay) false layout ≡ Fine)) }
        ensures id { IfOk result (λ it. IfOk it (λ id. id ≡ self.old.next)) }
        ensures pending { IfOk result (λ it. IfOk it (λ id. self.new ≡ record self.old {
          unit = given self.old.unit (move (moving id false layout Kind.Int4 (map Int numbers.now)));
          next = self.old.next + 1;
        })) }
        ensures err { OnErr result (self.new ≡ self.old) }
    {
        let values = short_values_of(alloc, numbers)?;
        self.begin(alloc, false, layout, Kind::Int4, values)
    }

    /// READ of so many integers of a kind, pending.
    pub fn read(
        &mut self,
        alloc: Global,
        layout: Layout,
        kind: Kind,
        count: usize,
    ) -> Result<Result<u32, Condition>, AllocError>
        requires few { count < 2 ^ 32 }
        requires alone { members_of layout ≡ [] }
        requires next { self.old.next < 4294967295 }
        ensures refused { IfOk result (λ it. IfErr it (λ condition. (condition ≢ Fine) × (condition ≡ refusal (modes_of self.old.unit.bay) true layout) × (self.new ≡ self.old))) }
        ensures fits { IfOk result (λ it. IfOk it (λ _. refusal (modes_of self.old.unit.bay) true layout ≡ Fine)) }
        ensures id { IfOk result (λ it. IfOk it (λ id. id ≡ self.old.next)) }
        ensures pending { IfOk result (λ it. IfOk it (λ id. self.new ≡ record self.old {
          unit = given self.old.unit (move (moving id true layout kind (replicate count Undefined)));
          next = self.old.next + 1;
        })) }
        ensures err { OnErr result (self.new ≡ self.old) }
    {
        let values = undefined(alloc, count)?;
        self.begin(alloc, true, layout, kind, values)
    }

    /// Lends the thread to one job. It tells whether there was one; what the calls have come to stays as it is.
    pub fn work(&mut self) -> bool
        ensures { self.new ≡ self.old }
    {
        self.unit.work()
    }

    /// WAIT without ID=: all pending transfers are told.
    pub fn wait_all(&mut self) -> Result<Condition, Stop>
        ensures ok { IfOk result (λ condition. (self.new, condition) ≡ waited_all self.old) }
        ensures unit { OnErr result (MayEnd self.old.unit self.new.unit) }
        ensures err { OnErr result ((self.new.next ≡ self.old.next) × (self.new.told ≡ self.old.told)) }
    {
        tell_all(&mut self.unit, &mut self.kept, &mut self.told)
    }

    /// WAIT with ID=: its transfer is told, and all others too where it met an error or the end of the file. `None`: none has it.
    pub fn wait_one(&mut self, id: u32) -> Result<Option<Condition>, Stop>
        ensures some { IfOk result (λ it. IfSome it (WaitsFor self.old self.new id)) }
        ensures none { IfOk result (λ it. IfNone it ((self.new ≡ self.old) × LacksId self.old.unit.pending id)) }
        ensures unit { OnErr result (MayEnd self.old.unit self.new.unit) }
        ensures err { OnErr result ((self.new.next ≡ self.old.next) × (self.new.told ≡ self.old.told)) }
    {
        tell_one(&mut self.unit, &mut self.kept, &mut self.told, id)
    }

    /// Copies what the READ of an identifier read into an array, where the last WAIT told it.
    pub fn values(&self, id: u32, out: &mut [i64]) -> bool
        ensures { IsTrue result → HasValues self.now.told id out.new }
    {
        copy_told(&self.told, id, out)
    }
}
