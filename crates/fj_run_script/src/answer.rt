// What is done with an answer.
ghost use Rattle.std.specs.Prelude.{◌≡◌, ◌≢◌, ◌+◌, ◌<◌, ◌^◌, true, List, get_or, Some, Err, OnOk, OnErr};
ghost use Rattle.std.specs.List.{list_any};
ghost use Rattle.fj_statement.specs.declared.deck.Variable.{Variable};
ghost use Rattle.fj_bay.specs.Jobs.{Job as Task};
ghost use Rattle.fj_bay.specs.Plain.{task_of, reply_of};
ghost use Rattle.fj_meaning.specs.State.{Files};
ghost use Rattle.fj_meaning.specs.Statement.{Stated};
ghost use Rattle.fj_meaning_turns.specs.Run.{Stage as PlainStage};
ghost use Rattle.fj_meaning_turns.specs.Turns.{is_at, told_of, with_answer};
ghost use Rattle.fj_run_pending.specs.Plain.{brought_of, held};
ghost use Rattle.fj_run_statements.specs.State.{core_of};
ghost use Rattle.fj_run_script.specs.Closing.{may_be_at};
ghost use Rattle.fj_statement.specs.declared.statement.Statement.{Statement as PlainStatement};
ghost use Rattle.fj_run_script.specs.Answering.{with_own};
ghost use Rattle.fj_run_script.specs.Machine.{run_in, stage_of};
ghost use Rattle.fj_run_script.specs.Passing.{is_waiting};
ghost use Rattle.fj_run_script.specs.Turned.{Stands};
ghost use Rattle.fj_run_script.specs.Fitting.{HasRoom};
ghost use Rattle.fj_run_script.specs.Going.{Hears};

use crate::stage::Stage;
use crate::state::State;
use fj_bay::{Answer, Job};
use fj_outside::FileStore;
use fj_run_pending::{Pendings, Told};
use fj_run_statements::told_by;
use std::mem;

/// Keeps what the job of a pending transfer brought.
fn keep(pending: &mut Pendings, slot: u32, number: u64, told: Told)
    requires { list_any (λ h. is_at slot number h.pending) (held pending.old) ≡ true }
    ensures { held pending.new ≡ with_answer slot number (brought_of told) (held pending.old) }
{
    let Ok(()) = pending.answer(slot, number, told) else {
        unreachable!();
    };
}

/// The stage once the job of that slot and number came back: the answer of the statement's own job is taken, and that of another one
/// is let go.
#[inline(always)]
fn own<F: FileStore>(
    stage: Stage<F>,
    slot: u32,
    number: u64,
    job: Job<F>,
    answer: Answer,
) -> Stage<F>
    ensures { result ≡ with_own slot number job answer stage }
{
    match stage {
        Stage::Awaiting {
            slot: own,
            number: last,
            then,
        } => {
            if own == slot && last == number {
                return Stage::Answered { then, job, answer };
            }
            Stage::Awaiting {
                slot: own,
                number: last,
                then,
            }
        }
        stage => stage,
    }
}

impl<F: FileStore> State<F> {
    /// Takes the answer of the first job of the slot that it waits for which was not told.
    #[inline(always)]
    pub(crate) fn answer(&mut self, job: Job<F>, answer: Answer)
        requires room { HasRoom self.old.told.items }
        requires owed { get_or self.old.told.items self.old.due 0 < get_or self.old.sent.items self.old.due 0 }
        requires waits { is_waiting self.old.stage ≡ true }
        ensures told { (variables : List Variable) (rest : List Stated) (files : Files) (task : Task) (stage : PlainStage)
            → task_of F.told F.bytes job ≡ Some task
            → stage_of F.told F.bytes variables rest (core_of files self.old.core) self.old.stage ≡ Some stage
            → Stands F.told F.bytes variables rest files self.new (told_of (run_in variables rest files self.old stage) (task, reply_of answer)) }
        ensures kept { self.new.core ≡ record (self.old.core) { pending = self.new.core.pending } }
        ensures hears { Hears self.old self.new }
        ensures may { (what : PlainStatement) → may_be_at what self.old.stage ≡ true → may_be_at what self.new.stage ≡ true }
    {
        let at = self.due as usize;
        let number = self.told[at];
        if self.core.pending.has(self.due, number) {
            let told = told_by(job, answer);
            keep(&mut self.core.pending, self.due, number, told);
            self.told[at] = number + 1;
            return;
        }
        let stage = mem::replace(&mut self.stage, Stage::Start);
        self.stage = own(stage, self.due, number, job, answer);
        self.told[at] = number + 1;
    }
}
