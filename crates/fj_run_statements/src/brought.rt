// What a job that came back brought.
ghost use Rattle.std.specs.Prelude.{◌≡◌};
ghost use Rattle.fj_bay.specs.Plain.{reply_of};
ghost use Rattle.fj_meaning_jobs.specs.Desks.{condition_in};
ghost use Rattle.fj_run_statements.specs.Steps.{told_in};

use fj_bay::{Answer, Job};
use fj_outside::FileStore;
use fj_run_pending::Told;
use fj_value::Condition;

/// The condition that an answer tells.
#[inline(always)]
pub(crate) fn condition_in(answer: Answer) -> Condition
    ensures { result ≡ condition_in (reply_of answer) }
{
    match answer {
        Answer::Done(condition) | Answer::Skipped(condition) => condition,
    }
}

/// The values and the count of a transfer, with the condition of its answer. Another job has none.
#[inline(always)]
pub fn told_by<F: FileStore>(job: Job<F>, answer: Answer) -> Told
    ensures { result ≡ told_in job (condition_in (reply_of answer)) }
{
    let condition = condition_in(answer);
    match job {
        Job::Move(transfer) => {
            let transfer = transfer.into_inner();
            Told {
                moved: Some(transfer.moved),
                count: transfer.count,
                condition,
            }
        }
        _ => Told {
            moved: None,
            count: None,
            condition,
        },
    }
}
