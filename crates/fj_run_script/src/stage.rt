// Where the statement at hand is.
ghost use Rattle.std.specs.Prelude.{◌≡◌};

use fj_bay::{Answer, Job};
use fj_outside::FileStore;
use fj_run_pending::Whose;
use fj_run_statements::{Given, Then};
use fj_value::{Condition, Items};

/// Where the statement at hand is between two asks.
#[derive(Drop)]
pub(crate) enum Stage<F: FileStore> {
    /// Nothing of it is done.
    Start,
    /// It waits for transfers that it tells; those before a place have answers.
    Waiting {
        whose: Whose,
        from: usize,
    },
    /// They are told; the halts at these slots end, and then it does what is its own where that condition was told.
    Resuming {
        slots: Items<u32>,
        next: usize,
        condition: Condition,
    },
    /// It goes on with the number of the job that it gave.
    Going {
        next: Given,
        number: u64,
    },
    /// It waits for its own job, of that slot and number.
    Awaiting {
        slot: u32,
        number: u64,
        then: Then,
    },
    /// It goes on with what became of its own job.
    Answered {
        then: Then,
        job: Job<F>,
        answer: Answer,
    },
}

/// Goes on to a stage.
#[inline(always)]
pub(crate) fn put_stage<F: FileStore>(place: &mut Stage<F>, stage: Stage<F>)
    ensures { place.new ≡ stage }
{
    *place = stage;
}

/// Goes back to the start.
#[inline(always)]
pub(crate) fn put_start<F: FileStore>(place: &mut Stage<F>)
    ensures { place.new ≡ Stage.Start }
{
    if let Stage::Start = place {
        return;
    }
    *place = Stage::Start;
}
