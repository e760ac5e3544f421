// Words that are no form.
ghost use Rattle.std.specs.Prelude.{◌≡◌, ◌⊎◌, ◌≤◌, ◌++◌, ◌↔◌};
ghost use Rattle.fj_outside.specs.Faults.{Rose};
ghost use Rattle.fj_run_items.specs.Handing.{TakesFront};
ghost use Rattle.fj_job.specs.Answers.{IsAnswer, IsLost, HasCause};
ghost use Rattle.fj_poll.specs.Answers.{usage_text};

use fj_job::{Status, write_text};
use fj_outside::Sink;

/// The line for words that are no form.
#[tactic(auto, unfolding(crate::specs::Answers::usage_text))]
fn usage() -> &'static [u8]
    ensures { result.now ≡ usage_text }
{
    b"usage: fjob poll [--workers N]\n"
}

/// Reports words that are no form.
pub(crate) fn refuse_words<W: Sink>(out: &mut W) -> Status
    ensures usage { (result ≡ Status.Usage) ⊎ IsLost result }
    ensures output { IsAnswer result → W.tells out.old → W.taken out.new ≡ W.taken out.old ++ usage_text }
    ensures front { W.tells out.old → TakesFront (W.taken out.old) (W.taken out.new) usage_text }
    ensures cause { HasCause ⊥ (Rose (W.count out.old) (W.count out.new)) ⊥ result }
    ensures telling { W.tells out.old ↔ W.tells out.new }
    ensures later { W.count out.old ≤ W.count out.new }
{
    match write_text(out, usage()) {
        Ok(()) => Status::Usage,
        Err(lost) => lost,
    }
}
