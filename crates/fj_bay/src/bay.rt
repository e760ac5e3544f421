// A place for one connection, with its halt.
ghost use Rattle.std.specs.Prelude.{◌≡◌, None, Some, Err, IsSome, IfOk};
ghost use Rattle.fj_outside.specs.Faults.{Rose};
ghost use Rattle.fj_connect.specs.Connection.{Connection as Connected};
ghost use Rattle.fj_transfer.specs.Performing.{comes_to, LeavesStatement};
ghost use Rattle.fj_transfer.specs.Transfer.{in_error};
ghost use Rattle.fj_slot.specs.Serving.{Serves};
ghost use Rattle.fj_bay.specs.Halt.{halt_behind};

use crate::job::{Answer, Job};
use crate::plain::{PlainAnswer, PlainBay, PlainJob};
use fj_connect::{Connection, Look, Positioning};
use fj_outside::{FileStore, Stop};
use fj_perform::perform;
use fj_slot::Engine;
use fj_transfer::Transfer;
use fj_value::{Boxed, Condition, EditModes};
use std::alloc::{AllocError, Global};

/// So many cells take longer to transfer than a thread takes to wake.
const MANY_CELLS: usize = 256;

/// The place of one connection, with the halt that an error or the end of the file sets.
#[derive(Drop)]
pub struct Bay<F: FileStore> {
    alloc: Global,
    /// On the heap, so that a bay is moved by few words.
    connection: Boxed<Option<Connection<F>>>,
    /// The condition that halted it, until the halt is ended.
    halt: Option<Condition>,
    /// How many of its jobs the outside failed.
    faults: u64,
}

/// The halt behind a transfer that was carried out: an error or the end of the file sets one.
fn halt_of(condition: Condition) -> Option<Condition>
    ensures { result ≡ halt_behind None condition }
{
    match condition {
        Condition::EndOfFile | Condition::Error(_) => Some(condition),
        Condition::Fine | Condition::EndOfRecord => None,
    }
}

/// Leaves the values of a transfer that is skipped: those of an input are undefined.
fn skip(job: &mut Transfer, cause: Condition) -> Answer
    ensures answer { result ≡ Answer.Skipped cause }
    ensures done { (c : Connected) → comes_to c job.new cause ≡ in_error c job.old.spec.input job.old.moved.cells cause }
    ensures statement { LeavesStatement job.old job.new }
{
    job.count = None;
    if job.spec.input {
        job.moved.undefine();
    }
    Answer::Skipped(cause)
}

impl<F: FileStore> Bay<F> {
    ghost use Rattle.fj_connect.specs.Linked.{Linked};
    ghost use Rattle.fj_connect.specs.Connection.{with_edit};
    ghost use Rattle.fj_bay.specs.Bay.{Bay as PlainState};
    ghost use Rattle.fj_bay.specs.Jobs.{Job as PlainTask, change, look};
    ghost use Rattle.std.specs.Prelude.{Ok, option_map};
    ghost use Rattle.fj_bay.specs.Plain.{state_of, task_of, looked_of};
    ghost use Rattle.fj_bay.specs.Meaning.{bay_meaning, file_faults};

    /// A bay with no connection, which is not halted.
    pub fn empty(alloc: Global) -> Result<Bay<F>, AllocError>
        ensures { IfOk result (λ bay. bay ≡ record { alloc = alloc; connection = None; halt = None; faults = 0 }) }
    {
        Ok(Bay {
            alloc,
            connection: Boxed::new(alloc, None)?,
            halt: None,
            faults: 0,
        })
    }

    /// The connection, if it has one. It takes no memory.
    pub fn into_connection(self) -> Option<Connection<F>>
        ensures { result ≡ self.connection }
    {
        self.connection.into_inner()
    }

    /// Takes a connection in. Where there is one, the other stays where it is.
    fn attach(&mut self, brought: &mut Option<Connection<F>>) -> Condition
        ensures refused { IsSome self.old.connection → (self.new ≡ self.old) × (brought.new ≡ brought.old) × (result ≡ Condition.Error 7) }
        ensures taken { self.old.connection ≡ None → (self.new ≡ record self.old { connection = brought.old }) × (brought.new ≡ None) × (result ≡ Condition.Fine) }
    {
        if self.connection.get().is_some() {
            return Condition::FILE_TAKEN;
        }
        *self.connection.get_mut() = brought.take();
        Condition::Fine
    }

    /// Ends the open record, and moves the connection out.
    fn detach(&mut self, place: &mut Option<Connection<F>>) -> Result<Answer, Stop>
        ensures serves { (s : PlainState) (t : PlainTask) → state_of F.told F.bytes self.old ≡ Some s → task_of F.told F.bytes (Job.Detach place.old) ≡ Some t
            → Serves (bay_meaning F.told F.bytes F.count) s t result self.new (Job.Detach place.new) }
        ensures failed { result ≡ Err Stop.Failed → Rose (file_faults F.count self.old.connection) (file_faults F.count self.new.connection) }
        ensures faults { self.new.faults ≡ self.old.faults }
    {
        let here = self.connection.get_mut();
        if let Some(connection) = here {
            connection.end_record()?;
            *place = here.take();
        }
        Ok(Answer::Done(Condition::Fine))
    }

    /// Carries a transfer out, or skips it in a halt.
    #[inline(always)]
    fn transfer(&mut self, job: &mut Transfer) -> Result<Answer, Stop>
        ensures serves { (s : PlainState) (t : PlainTask) → state_of F.told F.bytes self.old ≡ Some s → task_of F.told F.bytes (Job.Move job.old) ≡ Some t
            → Serves (bay_meaning F.told F.bytes F.count) s t result self.new (Job.Move job.new) }
        ensures failed { result ≡ Err Stop.Failed → Rose (file_faults F.count self.old.connection) (file_faults F.count self.new.connection) }
        ensures faults { self.new.faults ≡ self.old.faults }
    {
        let halt = self.halt;
        let Some(connection) = self.connection.get_mut() else {
            return Ok(Answer::Done(Condition::NOT_CONNECTED));
        };
        if let Some(cause) = halt {
            return Ok(skip(job, cause));
        }
        let condition = perform(self.alloc, connection, job)?;
        self.halt = halt_of(condition);
        Ok(Answer::Done(condition))
    }

    /// BACKSPACE, REWIND or ENDFILE.
    fn go(&mut self, how: Positioning) -> Result<Answer, Stop>
        ensures serves { (s : PlainState) (t : PlainTask) → state_of F.told F.bytes self.old ≡ Some s → task_of F.told F.bytes (Job.Go how) ≡ Some t
            → Serves (bay_meaning F.told F.bytes F.count) s t result self.new (Job.Go how) }
        ensures failed { result ≡ Err Stop.Failed → Rose (file_faults F.count self.old.connection) (file_faults F.count self.new.connection) }
        ensures faults { self.new.faults ≡ self.old.faults }
    {
        let Some(connection) = self.connection.get_mut() else {
            return Ok(Answer::Done(Condition::NOT_CONNECTED));
        };
        let condition = connection.move_to(how)?;
        Ok(Answer::Done(condition))
    }

    /// Sets the modes that a statement may change.
    fn change(&mut self, edit: EditModes) -> Condition
        ensures serves { (s : PlainState) → state_of F.told F.bytes self.old ≡ Some s
            → Serves (bay_meaning F.told F.bytes F.count) s (change edit) (Ok (Answer.Done result)) self.new (Job.Change edit) }
        ensures faults { self.new.faults ≡ self.old.faults }
    {
        let Some(connection) = self.connection.get_mut() else {
            return Condition::NOT_CONNECTED;
        };
        connection.change(edit);
        Condition::Fine
    }

    /// Tells where the connection stands, and the length of its file, also in a halt.
    fn look(&self, place: &mut Option<Look>) -> Condition
        ensures serves { (s : PlainState) → state_of F.told F.bytes self.now ≡ Some s
            → Serves (bay_meaning F.told F.bytes F.count) s (look (option_map looked_of place.old)) (Ok (Answer.Done result)) self.now (Job.Look place.new) }
    {
        let Some(connection) = self.connection.get() else {
            return Condition::NOT_CONNECTED;
        };
        *place = Some(connection.look());
        Condition::Fine
    }

    /// Serves a job. A stop comes of a call on the file alone.
    #[inline(always)]
    fn carry_out(&mut self, job: &mut Job<F>) -> Result<Answer, Stop>
        ensures serves { (s : PlainState) (t : PlainTask) → state_of F.told F.bytes self.old ≡ Some s → task_of F.told F.bytes job.old ≡ Some t
            → Serves (bay_meaning F.told F.bytes F.count) s t result self.new job.new }
        ensures failed { result ≡ Err Stop.Failed → Rose (file_faults F.count self.old.connection) (file_faults F.count self.new.connection) }
        ensures faults { self.new.faults ≡ self.old.faults }
    {
        match job {
            Job::Attach(brought) => Ok(Answer::Done(self.attach(brought.get_mut()))),
            Job::Detach(place) => self.detach(place.get_mut()),
            Job::Move(transfer) => self.transfer(transfer.get_mut()),
            Job::Go(how) => self.go(*how),
            Job::Change(edit) => Ok(Answer::Done(self.change(*edit))),
            Job::Flush => Ok(Answer::Done(Condition::Fine)),
            Job::Look(place) => Ok(Answer::Done(self.look(place.get_mut()))),
            Job::Resume => {
                self.halt = None;
                Ok(Answer::Done(Condition::Fine))
            }
        }
    }
}

impl<F: FileStore> Engine for Bay<F> {
    ghost use Rattle.fj_bay.specs.Meaning.{bay_meaning};

    type Job = Job<F>;

    type Answer = Answer;

    type State = PlainBay;

    type Task = PlainJob;

    type Reply = PlainAnswer;

    ghost meaning = { bay_meaning F.told F.bytes F.count };

    fn perform(&mut self, job: &mut Job<F>) -> Result<Answer, Stop> {
        let result = self.carry_out(job);
        if let Err(Stop::Failed) = &result {
            self.faults = self.faults.saturating_add(1);
        }
        result
    }

    fn faults(&self) -> u64 {
        self.faults
    }

    fn is_long(job: &Job<F>) -> bool {
        match job {
            Job::Move(transfer) => transfer.get().moved.len() >= MANY_CELLS,
            _ => false,
        }
    }
}
