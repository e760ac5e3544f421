// A deck is carried out on slots, its files go back to the disk, and it is reported.
ghost use Rattle.std.specs.Prelude.{◌≡◌, ◌⊎◌, ◌≤◌, ◌++◌, ◌↔◌, ℕ, [], Some, None, Ok, Err, IfOk, IfSome, IfNone, OnOk, OnErr, true, false, length, slice_get, vec_capacity, List};
ghost use Rattle.std.specs.FinSet as set;
ghost use Rattle.fj_outside.specs.Faults.{Rose};
ghost use Rattle.fj_outside.specs.Holdings.{SameAt};
ghost use Rattle.fj_statement.specs.Sound.{IsSound};
ghost use Rattle.fj_world.specs.Alone.{AllHome};
ghost use Rattle.fj_bay.specs.Meaning.{bay_meaning};
ghost use Rattle.fj_run_items.specs.Handing.{open_record, TakesFront, TakesPart};
ghost use Rattle.fj_run_pending.specs.Plain.{tells_of};
ghost use Rattle.fj_run_units.specs.Names.{AreInUse, stands, left_of};
ghost use Rattle.fj_run_script.specs.Machine.{ending_of};
ghost use Rattle.fj_run_end.specs.Holding.{HoldUnits};
ghost use Rattle.fj_job.specs.Answers.{IsAnswer, IsLost, IsOfRun, HasCause};
ghost use Rattle.fj_job.specs.Reply.{status_of, lines_of, trace_of};
ghost use Rattle.fj_job.specs.Concluding.{HasEnded, run_text, fault_text};
ghost use Rattle.fj_job.specs.Fitting.{kept_name, IsOther, AreOut};
ghost use Rattle.fj_job.specs.Losing.{first_lost, settled_by};
ghost use Rattle.fj_job.specs.Cut.{Anywhere};
ghost use Rattle.fj_job.specs.Executing.{AreClosed, IsSettled, IsCarriedOut, IsConcluded, IsExecuted, IsFaultReported, IsFrontReported, IsWriteReported};

use crate::execution::{carry, carry_with};
use crate::middle::{Middle, traced};
use crate::ready::{Ready, ready_for};
use crate::report::{fault_report, run_report, status_of};
use crate::workers::workers_for;
use crate::writing::write_behind;
use fj_bay::Bay;
use fj_connect::Connection;
use fj_outside::{Disk, FileStore, Sink, Stop};
use fj_report::Status;
use fj_run_end::{Remains, finish, give_back};
use fj_run_items::Lost;
use fj_run_script::{Ending, Left, Machine};
use fj_run_statements::Core;
use fj_run_units::Names;
use fj_statement::{Deck, Lined, Variable};
use fj_world::Slots;
use std::alloc::{AllocError, Global};
use std::sync::Wait;
use std::thread::Threads;

/// Want of memory in closing, else what was lost before, else a fault of the disk in closing.
fn first_lost(lost: Option<Lost>, closed: Result<(), Stop>) -> Option<Lost>
    ensures { result ≡ first_lost lost closed }
{
    match closed {
        Ok(()) => lost,
        Err(Stop::Memory(error)) => Some(Lost::Memory(error)),
        Err(Stop::Failed) => match lost {
            Some(first) => Some(first),
            None => Some(Lost::Disk),
        },
    }
}

/// What is answered of what was lost first.
fn settled_by(lost: Option<Lost>) -> Result<(), Lost>
    ensures { result ≡ settled_by lost }
{
    match lost {
        Some(lost) => Err(lost),
        None => Ok(()),
    }
}

/// The line of the statement at hand; behind the last one, the line of that.
fn line_at(statements: &[Lined], at: usize) -> u32
    ensures { (lined : Lined) → slice_get statements.now at ≡ Some lined → result ≡ lined.line }
{
    match statements.get(at) {
        Some(lined) => lined.line,
        None => match statements.last() {
            Some(lined) => lined.line,
            None => 0,
        },
    }
}

/// Reports a deck that ended.
fn write_run<W: Sink>(
    alloc: Global,
    variables: &[Variable],
    middle: Middle<'_>,
    ending: Ending,
    core: &mut Core,
    out: &mut W,
) -> Status
    requires { length variables.now ≤ 4096 }
    ensures status { (result ≡ status_of (ending_of ending)) ⊎ IsLost result }
    ensures output { IsAnswer result → W.tells out.old
        → W.taken out.new ≡ W.taken out.old ++ (open_record core.old.output ++ run_text variables.now (lines_of middle.entry) (ending_of ending) core.old) }
    ensures front { W.tells out.old
        → TakesFront (W.taken out.old) (W.taken out.new) (open_record core.old.output ++ run_text variables.now (lines_of middle.entry) (ending_of ending) core.old) }
    ensures part { result ≡ Status.WriteFault → W.tells out.old
        → TakesPart (W.taken out.old) (W.taken out.new) (open_record core.old.output ++ run_text variables.now (lines_of middle.entry) (ending_of ending) core.old) }
    ensures cause { HasCause ⊥ (Rose (W.count out.old) (W.count out.new)) ⊥ result }
    ensures telling { W.tells out.old ↔ W.tells out.new }
    ensures later { W.count out.old ≤ W.count out.new }
{
    match run_report(alloc, variables, middle, ending, core) {
        Ok(text) => match write_behind(&mut core.output, text.bytes(), out) {
            Ok(()) => status_of(ending),
            Err(lost) => lost,
        },
        Err(_) => Status::Memory,
    }
}

/// Reports a fault of the disk at a statement. It stays the answer where the sink fails then.
fn write_fault<W: Sink>(
    alloc: Global,
    line: u32,
    middle: Middle<'_>,
    core: &mut Core,
    out: &mut W,
) -> Status
    ensures status { (result ≡ Status.DiskFault line) ⊎ (result ≡ Status.Memory) }
    ensures whole { result ≡ Status.DiskFault line → W.tells out.old
        → (W.taken out.new ≡ W.taken out.old ++ fault_text (lines_of middle.entry) line core.old.output (tells_of core.old.tells))
        ⊎ (Rose (W.count out.old) (W.count out.new) × TakesPart (W.taken out.old) (W.taken out.new) (fault_text (lines_of middle.entry) line core.old.output (tells_of core.old.tells))) }
    ensures front { W.tells out.old → TakesFront (W.taken out.old) (W.taken out.new) (fault_text (lines_of middle.entry) line core.old.output (tells_of core.old.tells)) }
    ensures telling { W.tells out.old ↔ W.tells out.new }
    ensures later { W.count out.old ≤ W.count out.new }
{
    match fault_report(alloc, middle, line, core) {
        Ok(text) => match write_behind(&mut core.output, text.bytes(), out) {
            Ok(()) | Err(Status::WriteFault) => Status::DiskFault { stmt: line },
            Err(_) => Status::Memory,
        },
        Err(_) => Status::Memory,
    }
}

/// How a run ended; none where it was given up or told a stop.
pub fn ending_of<F: FileStore>(left: &Left<F>) -> Option<Ending>
    ensures some { IfSome result (λ ending. (left.now.over ≡ false) × (left.now.ending ≡ Some ending)) }
    ensures none { IfNone result ((left.now.over ≡ true) ⊎ (left.now.ending ≡ None)) }
{
    if left.over { None } else { left.ending }
}

/// The line of a fault of the disk in a run.
fn line_of<F: FileStore>(left: &Left<F>) -> u32
    ensures { (lined : Lined) → slice_get left.now.deck.statements left.now.at ≡ Some lined → result ≡ lined.line }
{
    line_at(left.deck.statements.as_slice(), left.at)
}

/// Gives a connection back whose job was refused. A scratch file is removed.
fn give_kept<D: Disk>(
    kept: Option<Connection<D::File>>,
    names: &mut Names,
    disk: &mut D,
) -> Result<(), Stop>
    requires names { D.tells disk.old → AreInUse names.old (D.held disk.old).in_use }
    ensures names { D.tells disk.old → AreInUse names.new (D.held disk.new).in_use }
    ensures nothing { kept ≡ None → (names.new ≡ names.old) × (disk.new ≡ disk.old) }
    ensures off { IfSome kept (λ c. stands names.old c.name ≡ true → names.new ≡ left_of names.old c.name) }
    ensures others { D.tells disk.old → (name : List ℕ) → IsOther kept name → SameAt (D.held disk.old) (D.held disk.new) name }
    ensures failed { OnErr result (Rose (D.count disk.old) (D.count disk.new)) }
    ensures own { D.tells disk.old → D.refusals disk.old ≤ D.refusals disk.new }
    ensures telling { D.tells disk.old ↔ D.tells disk.new }
    ensures later { D.count disk.old ≤ D.count disk.new }
{
    let Some(connection) = kept else {
        return Ok(());
    };
    if !names.holds(connection.name()) {
        return Ok(());
    }
    let keep = !connection.modes().scratch;
    Ok(give_back(connection, keep, names, disk)?)
}

/// Gives the files of a run back, and answers what was lost first.
fn give_all<D: Disk>(
    left: &mut Left<D::File>,
    slots: Slots<Bay<D::File>>,
    room: Vec<Remains<D::File>>,
    disk: &mut D,
) -> Result<(), Lost>
    requires home { AllHome slots }
    requires empty { room.items ≡ [] }
    requires room { length slots.slots ≤ vec_capacity room }
    requires names { D.tells disk.old → AreInUse left.old.core.names (D.held disk.old).in_use }
    ensures left { left.new ≡ record left.old { core = record (left.old.core) { names = left.new.core.names }; kept = None } }
    ensures nothing { OnOk result (left.old.lost ≡ None) }
    ensures closed { D.tells disk.old → HoldUnits (bay_meaning D.File.told D.File.bytes D.File.count) slots left.old.core.units
        → AreOut (kept_name left.old.kept) left.old.core.names left.old.core.units → AreClosed (bay_meaning D.File.told D.File.bytes D.File.count) slots left.old.core.units left.old.kept
        (D.held disk.old) (D.held disk.new) (D.refusals disk.old) (D.refusals disk.new) result }
    ensures own { D.tells disk.old → D.refusals disk.old ≤ D.refusals disk.new }
    ensures sink { result ≡ Err Lost.Sink → left.old.lost ≡ Some Lost.Sink }
    ensures disk { result ≡ Err Lost.Disk → (left.old.lost ≡ Some Lost.Disk) ⊎ Rose (D.count disk.old) (D.count disk.new) }
    ensures alone { result ≡ Err Lost.Disk → (left.old.lost ≡ None) ⊎ (left.old.lost ≡ Some Lost.Disk) }
    ensures telling { D.tells disk.old ↔ D.tells disk.new }
    ensures later { D.count disk.old ≤ D.count disk.new }
{
    let lost = left.lost;
    let kept = left.kept.take();
    let core = &mut left.core;
    let closed = finish(&core.units, slots, room, &mut core.names, disk);
    let given = give_kept(kept, &mut core.names, disk);
    let first = first_lost(lost, closed);
    let last = first_lost(first, given);
    settled_by(last)
}

/// What a run left, and what was lost first, if anything was.
#[derive(Drop)]
pub struct Carried<F: FileStore> {
    pub left: Left<F>,
    pub settled: Result<(), Lost>,
}

/// What is left of a deck that was carried out, once its files went back.
pub fn settle<D: Disk>(
    machine: Machine<D::File>,
    slots: Slots<Bay<D::File>>,
    room: Vec<Remains<D::File>>,
    disk: &mut D,
) -> Carried<D::File>
    requires home { AllHome slots }
    requires empty { room.items ≡ [] }
    requires room { length slots.slots ≤ vec_capacity room }
    requires names { D.tells disk.old → AreInUse machine.state.core.names (D.held disk.old).in_use }
    ensures settled { IsSettled D.tells D.held D.count D.refusals (bay_meaning D.File.told D.File.bytes D.File.count) machine slots disk.old disk.new result }
{
    let mut left = machine.into_left();
    let settled = give_all(&mut left, slots, room, disk);
    Carried { left, settled }
}

/// Carries out a deck on slots of its own, on the calling thread, and gives the files back.
pub fn carry_out<W: Sink, D: Disk>(
    alloc: Global,
    deck: Deck,
    out: &mut W,
    disk: &mut D,
) -> Result<Carried<D::File>, AllocError>
    requires sound { IsSound deck }
    requires free { D.tells disk.old → (D.held disk.old).in_use ≡ set.empty }
    ensures carried { IsCarriedOut W.tells W.taken W.count D.tells D.held D.count D.refusals deck out.old disk.old out.new disk.new result }
{
    let Ready {
        machine,
        slots,
        room,
    } = ready_for::<D::File>(alloc, deck)?;
    let (mut machine, mut slots) = (machine, slots);
    carry(alloc, &mut machine, &mut slots, out, disk);
    Ok(settle(machine, slots, room, disk))
}

/// The same with so many threads besides.
fn carry_out_with<Rt: Threads + Wait + Sync, W: Sink + Send, D: Disk + Send>(
    rt: &Rt,
    alloc: Global,
    workers: u32,
    deck: Deck,
    out: &mut W,
    disk: &mut D,
) -> Result<Carried<D::File>, AllocError>
where
    D::File: Send,
    requires sound { IsSound deck }
    requires free { D.tells disk.old → (D.held disk.old).in_use ≡ set.empty }
    ensures carried { IsCarriedOut W.tells W.taken W.count D.tells D.held D.count D.refusals deck out.old disk.old out.new disk.new result }
{
    let Ready {
        machine,
        slots,
        room,
    } = ready_for::<D::File>(alloc, deck)?;
    let (mut machine, mut slots) = (machine, slots);
    carry_with(rt, alloc, workers, &mut machine, &mut slots, out, disk);
    Ok(settle(machine, slots, room, disk))
}

/// Reports a run.
fn report<F: FileStore, W: Sink>(
    alloc: Global,
    middle: Middle<'_>,
    it: Carried<F>,
    out: &mut W,
) -> Status
    requires { length it.left.deck.variables ≤ 4096 }
    ensures settled { IsAnswer result → it.settled ≡ Ok tt }
    ensures ended { IsAnswer result → HasEnded (lines_of middle.entry) it.left result (W.tells out.old) (W.taken out.old) (W.taken out.new) }
    ensures of_run { IsOfRun result }
    ensures fault { (line : ℕ) → result ≡ Status.DiskFault line
        → IsFaultReported (lines_of middle.entry) it line (W.tells out.old) (W.taken out.old) (W.taken out.new) (Rose (W.count out.old) (W.count out.new)) }
    ensures written { result ≡ Status.WriteFault → IsWriteReported (lines_of middle.entry) it (W.tells out.old) (W.taken out.old) (W.taken out.new) }
    ensures front { IsFrontReported (lines_of middle.entry) it result (W.tells out.old) (W.taken out.old) (W.taken out.new) }
    ensures cause { HasCause ⊥ ((it.settled ≡ Err Lost.Sink) ⊎ Rose (W.count out.old) (W.count out.new)) (it.settled ≡ Err Lost.Disk) result }
    ensures telling { W.tells out.old ↔ W.tells out.new }
    ensures later { W.count out.old ≤ W.count out.new }
{
    let Carried { left, settled } = it;
    let mut left = left;
    match settled {
        Err(Lost::Sink) => Status::WriteFault,
        Err(Lost::Disk) => write_fault(alloc, line_of(&left), middle, &mut left.core, out),
        Err(Lost::Memory(_) | Lost::Unfit) => Status::Memory,
        Ok(()) => match ending_of(&left) {
            Some(ending) => write_run(
                alloc,
                left.deck.variables.as_slice(),
                middle,
                ending,
                &mut left.core,
                out,
            ),
            None => Status::Memory,
        },
    }
}

/// Reports a run, if there was memory to begin it: how it ended, or `DiskFault`, `WriteFault` or `Memory`.
pub fn conclude<F: FileStore, W: Sink>(
    alloc: Global,
    middle: Middle<'_>,
    carried: Result<Carried<F>, AllocError>,
    out: &mut W,
) -> Status
    requires { IfOk carried (λ it. length it.left.deck.variables ≤ 4096) }
    ensures concluded { IsConcluded W.tells W.taken W.count (lines_of middle.entry) carried out.old out.new result }
{
    match carried {
        Ok(it) => report(alloc, middle, it, out),
        Err(_) => Status::Memory,
    }
}

/// Carries out a deck on the calling thread, and reports.
pub fn execute<W: Sink, D: Disk>(
    alloc: Global,
    deck: Deck,
    trace: bool,
    out: &mut W,
    disk: &mut D,
) -> Status
    requires sound { IsSound deck }
    requires free { D.tells disk.old → (D.held disk.old).in_use ≡ set.empty }
    ensures executed { IsExecuted W.tells W.taken W.count D.tells D.held D.count D.refusals deck (trace_of trace) Anywhere out.old disk.old out.new disk.new result }
{
    let carried = carry_out(alloc, deck, out, disk);
    conclude(alloc, traced(trace), carried, out)
}

/// The same with so many threads besides, or with none where no transfer of the deck has ASYNCHRONOUS='YES'.
pub fn execute_with<Rt: Threads + Wait + Sync, W: Sink + Send, D: Disk + Send>(
    rt: &Rt,
    alloc: Global,
    workers: u32,
    deck: Deck,
    trace: bool,
    out: &mut W,
    disk: &mut D,
) -> Status
where
    D::File: Send,
    requires sound { IsSound deck }
    requires free { D.tells disk.old → (D.held disk.old).in_use ≡ set.empty }
    ensures executed { IsExecuted W.tells W.taken W.count D.tells D.held D.count D.refusals deck (trace_of trace) Anywhere out.old disk.old out.new disk.new result }
{
    let workers = workers_for(deck.statements.as_slice(), workers);
    let carried = carry_out_with(rt, alloc, workers, deck, out, disk);
    conclude(alloc, traced(trace), carried, out)
}
