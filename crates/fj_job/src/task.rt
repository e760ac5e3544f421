// What the words ask for.
ghost use Rattle.std.specs.Prelude.{◌≡◌};
ghost use Rattle.fj_job.specs.Task.{task_of, alone_task};

use fj_report::Form;

/// What is done, and with which deck.
#[derive(Clone, Copy, PartialEq, Eq)]
pub enum Task {
    /// Nothing: the words are no form.
    Refuse,
    /// It is read.
    Check,
    /// It is carried out, with so many workers beside; with a line for each transfer that was told, where `trace` holds.
    Execute { workers: u32, trace: bool },
    /// A deck is made from a seed; its text is told where `text` holds, and else it is carried out on a disk of its own.
    Generate { seed: u32, count: u32, text: bool },
}

pub fn task_of(form: Form) -> Task
    ensures { result ≡ task_of form }
{
    match form {
        Form::Run { workers, trace } => Task::Execute { workers, trace },
        Form::Alone { trace } => Task::Execute { workers: 0, trace },
        Form::Check => Task::Check,
        Form::Gen { seed, count, text } => Task::Generate { seed, count, text },
        Form::Wrong => Task::Refuse,
    }
}

/// The same where no worker may be started.
pub fn alone_task(form: Form) -> Task
    ensures { result ≡ alone_task form }
{
    match form {
        Form::Run { .. } => Task::Refuse,
        form => task_of(form),
    }
}
