// Asks that are made and answered.
ghost use Rattle.std.specs.Prelude.{◌≡◌, ◌⊎◌, ◌<◌, ℕ, get_or, true, false, IfErr, OnErr, OnOk, Some, None, IsSome};
ghost use Rattle.fj_bay.specs.Jobs.{Job as Task, Answer as Reply};
ghost use Rattle.fj_bay.specs.Meaning.{bay_meaning};
ghost use Rattle.fj_bay.specs.Plain.{task_of, reply_of};
ghost use Rattle.fj_meaning.specs.State.{Files};
ghost use Rattle.fj_meaning_jobs.specs.Desks.{Outcome};
ghost use Rattle.fj_meaning_turns.specs.Run.{Run};
ghost use Rattle.fj_meaning_turns.specs.Turns.{told_of};
ghost use Rattle.fj_meaning_looks.specs.Inquiring.{looks_by};
ghost use Rattle.fj_meaning_looks.specs.Looking.{asked_until};
ghost use Rattle.fj_run_units.specs.Names.{AreInUse};
ghost use Rattle.fj_run_units.specs.Files.{files_of};
ghost use Rattle.fj_world.specs.Conduct.{IsSubmitting, IsSettling, IsAnswer, is_done, owed_after_settle, owed_after_took};
ghost use Rattle.fj_run_script.specs.Admitting.{IsDue, IsAdmitted, MayAsk};
ghost use Rattle.fj_run_script.specs.Failing.{IsGivenUp, HasReason};
ghost use Rattle.fj_world.specs.Giving.{GivesOf};
ghost use Rattle.fj_run_script.specs.Kept.{KeepsFiles, MayKeep};
ghost use Rattle.fj_run_script.specs.Leaving.{Leaves, Rests};
ghost use Rattle.fj_run_script.specs.Machine.{run_of};
ghost use Rattle.fj_run_script.specs.Refused.{brought};
ghost use Rattle.fj_run_script.specs.Short.{FallsShort};
ghost use Rattle.fj_run_script.specs.Tallying.{due_of, owed_at};
ghost use Rattle.fj_run_script.specs.Turned.{IsAsked};
ghost use Rattle.fj_run_script.specs.declared.hand.Hand.TheVariants.{Idle};
ghost use Rattle.fj_run_script.specs.Fitting.{HasRoom};
ghost use Rattle.fj_run_script.specs.Going.{Hears, IsGoing, OwesAsGiven};
ghost use Rattle.fj_run_script.specs.Passing.{is_waiting};

use crate::machine::Machine;
use fj_bay::{Answer, Bay, Job};
use fj_outside::{Disk, FileStore, Sink};
use fj_run_items::Lost;
use fj_slot::{Refused, Told};
use fj_world::Ask;
use std::alloc::Global;

impl<F: FileStore> Machine<F> {
    /// Keeps the connection of a job that was refused.
    fn keep(&mut self, job: Job<F>)
        requires over { self.old.tally.over ≡ true }
        requires none { self.old.kept ≡ None }
        ensures kept { self.new.kept ≡ brought job }
        ensures looks { self.new.looks ≡ self.old.looks }
        ensures state { self.new.state ≡ self.old.state }
        ensures at { self.new.at ≡ self.old.at }
        ensures tally { self.new.tally ≡ self.old.tally }
        ensures deck { self.new.deck ≡ self.old.deck }
    {
        if let Job::Attach(brought) = job {
            self.kept = brought.into_inner();
        }
    }

    /// Asks.
    #[inline(always)]
    fn admit(&mut self, ask: Ask<Job<F>>) -> Ask<Job<F>>
        requires idle { self.old.tally.hand ≡ Idle }
        requires going { self.old.tally.over ≡ false }
        requires may { MayAsk ask self.old.tally.owed.items self.old.tally.left }
        ensures due { IsDue self.old.tally result self.new.tally }
        ensures admitted { IsAdmitted self.old.tally ask result self.new.tally }
        ensures kept { self.new.kept ≡ self.old.kept }
        ensures looks { self.new.looks ≡ self.old.looks }
        ensures state { self.new.state ≡ self.old.state }
        ensures at { self.new.at ≡ self.old.at }
        ensures deck { self.new.deck ≡ self.old.deck }
    {
        match &ask {
            Ask::Submit { slot, job: _ } => self.tally.submits(*slot),
            Ask::Settle { slot } => self.tally.settles(*slot),
            Ask::Finished => {}
        }
        ask
    }

    /// Asks what the deck asks next, unless it is over. Where it is to look, it finishes at a statement that looks.
    pub(crate) fn ask<W: Sink, D: Disk<File = F>>(
        &mut self,
        to_look: bool,
        alloc: Global,
        disk: &mut D,
        out: &mut W,
    ) -> Ask<Job<F>>
        requires idle { self.old.tally.hand ≡ Idle }
        requires names { D.tells disk.old → AreInUse self.old.state.core.names (D.held disk.old).in_use }
        requires room { self.old.tally.over ≡ false → HasRoom self.old.state.sent.items }
        requires owes { self.old.tally.over ≡ false → OwesAsGiven self.old.tally.hand self.old.tally.owed.items self.old.state.sent.items self.old.state.told.items }
        requires going { ∥ (self.old.tally.over ≡ false → IsGoing self.old) ∥₁ }
        ensures due { IsDue self.old.tally result self.new.tally }
        ensures rests { self.old.tally.over ≡ true → (self.new ≡ self.old) × (disk.new ≡ disk.old) × (out.new ≡ out.old) }
        ensures reason { HasReason self.old self.new }
        ensures asks { D.tells disk.old → (r : Run) → run_of F.told F.bytes (files_of (D.held disk.old)) self.old ≡ Some r → self.new.tally.over ≡ false
            → IsAsked F.told F.bytes (files_of (D.held disk.new)) self.new result (asked_until (looks_by to_look) r) }
        ensures names { D.tells disk.old → AreInUse self.new.state.core.names (D.held disk.new).in_use }
        ensures gives { GivesOf MayKeep self.new result }
        ensures keeps { KeepsFiles self.old self.new }
        ensures on { IsGoing self.old → self.new.tally.over ≡ false → IsGoing self.new }
        ensures leaves { Leaves W.tells W.taken W.count D.tells D.count D.refusals out.old disk.old self.old out.new disk.new self.new }
        ensures fails { D.tells disk.old → IsGivenUp (W.tells out.old) (W.taken out.old) (W.taken out.new) (D.held disk.new) (D.refusals disk.old) (D.refusals disk.new)
            (run_of F.told F.bytes (files_of (D.held disk.old)) self.old) self.old self.new }
        ensures short { D.tells disk.old → FallsShort (looks_by to_look) (run_of F.told F.bytes (files_of (D.held disk.old)) self.old) self.old self.new }
    {
        if self.tally.over {
            return Ask::Finished;
        }
        match self.next_ask(to_look, alloc, disk, out) {
            Ok(ask) => self.admit(ask),
            Err(lost) => {
                self.tally.lose(lost);
                Ask::Finished
            }
        }
    }

    /// Its job was submitted, or refused.
    pub(crate) fn take_number(&mut self, number: Result<u64, Refused<Job<F>>>)
        requires submitting { IsSubmitting (due_of self.old.tally.hand) }
        requires back { IfErr number (λ refused. MayKeep self.old refused.job) }
        ensures hand { self.new.tally.hand ≡ Idle }
        ensures left { self.new.tally.left < self.old.tally.left }
        ensures owed { (slot : ℕ) → owed_at self.new.tally.owed.items slot ≡ owed_after_took (due_of self.old.tally.hand) number (owed_at self.old.tally.owed.items) slot }
        ensures over { self.old.tally.over ≡ true → self.new.tally.over ≡ true }
        ensures refused { OnErr number (self.new.tally.over ≡ true) }
        ensures keeps { KeepsFiles self.old self.new }
        ensures goes { OnOk number (self.new.tally.over ≡ self.old.tally.over) }
        ensures reason { HasReason self.old self.new }
        ensures stopped { self.new.tally.stopped ≡ self.old.tally.stopped }
        ensures state { self.new.state ≡ self.old.state }
        ensures at { self.new.at ≡ self.old.at }
        ensures on { IsGoing self.old → self.new.tally.over ≡ false → IsGoing self.new }
        ensures rests { Rests self.old self.new }
    {
        match number {
            Ok(_) => self.tally.submitted(),
            Err(refused) => {
                let Refused { job, error } = refused;
                self.tally.refused(Lost::Memory(error));
                self.keep(job);
            }
        }
    }

    /// Takes the answer that it waited for.
    #[inline(always)]
    fn take_answer(&mut self, job: Job<F>, answer: Answer)
        requires room { HasRoom self.old.state.told.items }
        requires owed { get_or self.old.state.told.items self.old.state.due 0 < get_or self.old.state.sent.items self.old.state.due 0 }
        requires waits { is_waiting self.old.state.stage ≡ true }
        ensures told { (files : Files) (r : Run) (task : Task) → run_of F.told F.bytes files self.old ≡ Some r → task_of F.told F.bytes job ≡ Some task
            → run_of F.told F.bytes files self.new ≡ Some (told_of r (task, reply_of answer)) }
        ensures tally { self.new.tally ≡ self.old.tally }
        ensures kept { self.new.kept ≡ self.old.kept }
        ensures hears { Hears self.old.state self.new.state }
        ensures rests { Rests self.old self.new }
    {
        self.state.answer(job, answer);
    }

    /// Hears what became of the job that it waited for.
    pub(crate) fn hear(&mut self, told: Told<Bay<F>>)
        requires settling { IsSettling (due_of self.old.tally.hand) }
        requires room { HasRoom self.old.state.told.items }
        requires owed { get_or self.old.state.told.items self.old.state.due 0 < get_or self.old.state.sent.items self.old.state.due 0 }
        requires waits { is_waiting self.old.state.stage ≡ true }
        ensures hand { self.new.tally.hand ≡ Idle }
        ensures left { self.new.tally.left < self.old.tally.left }
        ensures owed { (slot : ℕ) → owed_at self.new.tally.owed.items slot ≡ owed_after_settle (due_of self.old.tally.hand) (owed_at self.old.tally.owed.items) slot }
        ensures over { self.old.tally.over ≡ true → self.new.tally.over ≡ true }
        ensures kept { self.new.kept ≡ self.old.kept }
        ensures reason { HasReason self.old self.new }
        ensures goes { is_done told ≡ true → self.new.tally.over ≡ self.old.tally.over }
        ensures halts { is_done told ≡ false → (self.new.tally.over ≡ true) × (self.new.tally.stopped ≡ true) }
        ensures stops { self.new.tally.stopped ≡ true → (is_done told ≡ false) × (self.new.state ≡ self.old.state) × (self.new.at ≡ self.old.at) }
        ensures told { (files : Files) (r : Run) (reply : Outcome) → run_of F.told F.bytes files self.old ≡ Some r → self.new.tally.over ≡ false
            → IsAnswer (bay_meaning F.told F.bytes F.count) told reply → run_of F.told F.bytes files self.new ≡ Some (told_of r reply) }
        ensures on { IsGoing self.old → self.new.tally.over ≡ false → IsGoing self.new }
        ensures rests { Rests self.old self.new }
    {
        self.tally.settled();
        match told {
            Told::Done { job, answer } => self.take_answer(job, answer),
            Told::Stopped {
                job: _,
                stop: _,
                before: _,
                after: _,
            } => self.tally.stop(),
        }
    }
}
