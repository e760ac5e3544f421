// What serves jobs, one after another.
ghost use Rattle.std.specs.Prelude.{◌≡◌, Some};
ghost use Rattle.fj_slot.specs.Causes.{HasCause};
ghost use Rattle.fj_slot.specs.Serving.{Meaning, Serves};

use fj_outside::Stop;

/// What serves jobs, one after another.
pub trait Engine: Drop {
    type Job: Drop;

    type Answer: Drop;

    /// The engine, a job and an answer as plain data, of which no value is made.
    type State;

    type Task;

    type Reply;

    /// What the engine, its jobs and its answers are as plain data, and what serving a job gives.
    ghost meaning: { Meaning Self Self.Job Self.Answer Self.State Self.Task Self.Reply };

    /// Performs one job.
    fn perform(&mut self, job: &mut Self::Job) -> Result<Self::Answer, Stop>
        ensures serves { (s : Self.State) (t : Self.Task) → meaning.state self.old ≡ Some s → meaning.task job.old ≡ Some t
            → Serves meaning s t result self.new job.new }
        ensures cause { HasCause (meaning.faults self.old) (meaning.faults self.new) result };

    /// How often something of the outside has failed.
    fn faults(&self) -> u64
        ensures { result ≡ meaning.faults self.now };

    /// Whether a job may take so long that a thread is worth waking for it. It is a hint: no clause rests on it.
    fn is_long(_job: &Self::Job) -> bool {
        true
    }
}
