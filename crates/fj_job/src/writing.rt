// Texts that are written to a sink, and why not.
ghost use Rattle.std.specs.Prelude.{◌≡◌, ◌≤◌, ◌++◌, ◌⊎◌, OnOk, IfErr, Err, ◌↔◌};
ghost use Rattle.fj_outside.specs.Faults.{Rose};
ghost use Rattle.fj_run_items.specs.Handing.{open_record, TakesFront, TakesPart};
ghost use Rattle.fj_job.specs.Answers.{IsLost};

use fj_outside::Sink;
use fj_report::Status;
use fj_run_items::{Lost, Output, put_all};

/// The answer where a sink did not take all of it.
fn not_taken(lost: Lost) -> Status
    ensures lost { IsLost result }
    ensures sink { result ≡ Status.WriteFault → lost ≡ Lost.Sink }
{
    match lost {
        Lost::Sink => Status::WriteFault,
        _ => Status::Memory,
    }
}

/// Writes a text, or answers why it was not written whole: `WriteFault` or `Memory`. A part of it may be written then.
pub fn write_text<W: Sink>(out: &mut W, text: &[u8]) -> Result<(), Status>
    ensures telling { W.tells out.old ↔ W.tells out.new }
    ensures ok { W.tells out.old → OnOk result (W.taken out.new ≡ W.taken out.old ++ text.now) }
    ensures front { W.tells out.old → TakesFront (W.taken out.old) (W.taken out.new) text.now }
    ensures part { W.tells out.old → result ≡ Err Status.WriteFault → TakesPart (W.taken out.old) (W.taken out.new) text.now }
    ensures later { W.count out.old ≤ W.count out.new }
    ensures lost { IfErr result IsLost }
    ensures failed { result ≡ Err Status.WriteFault → Rose (W.count out.old) (W.count out.new) }
{
    match put_all(out, text) {
        Ok(()) => Ok(()),
        Err(lost) => Err(not_taken(lost)),
    }
}

/// Ends an open record of the output, and writes a text behind it.
pub fn write_behind<W: Sink>(output: &mut Output, text: &[u8], out: &mut W) -> Result<(), Status>
    ensures telling { W.tells out.old ↔ W.tells out.new }
    ensures ok { W.tells out.old → OnOk result (W.taken out.new ≡ W.taken out.old ++ (open_record output.old ++ text.now)) }
    ensures front { W.tells out.old → TakesFront (W.taken out.old) (W.taken out.new) (open_record output.old ++ text.now) }
    ensures part { W.tells out.old → result ≡ Err Status.WriteFault → TakesPart (W.taken out.old) (W.taken out.new) (open_record output.old ++ text.now) }
    ensures later { W.count out.old ≤ W.count out.new }
    ensures lost { IfErr result IsLost }
    ensures failed { result ≡ Err Status.WriteFault → Rose (W.count out.old) (W.count out.new) }
{
    match output.end_open(out) {
        Ok(()) => write_text(out, text),
        Err(lost) => Err(not_taken(lost)),
    }
}
