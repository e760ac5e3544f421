// A text that was read: it is carried out or checked, and reported.
ghost use Rattle.std.specs.Prelude.{◌≡◌, ◌⊎◌, ◌≤◌, ◌++◌, ◌↔◌, IfOk, IfErr, length};
ghost use Rattle.fj_outside.specs.Faults.{Rose};
ghost use Rattle.fj_outside.specs.Holdings.{Files};
ghost use Rattle.fj_run_items.specs.Handing.{TakesFront};
ghost use Rattle.fj_report.specs.Lines.{status_text, check_text, usage_text};
ghost use Rattle.fj_deck.specs.Deck.{IsDeck};
ghost use Rattle.fj_statement.specs.Sound.{IsSound};
ghost use Rattle.fj_statement.specs.declared.reason.Reason.{Reason};
ghost use Rattle.fj_job.specs.Answers.{IsAnswer, IsLost, HasCause, IfEnded, IfRefused, HasDeck, Replied, TookFor, TookRefusal};
ghost use Rattle.fj_job.specs.Asking.{IsUnread};
ghost use Rattle.fj_job.specs.Reply.{IsRefusal, files_in};

use crate::report::{check_report, status_report};
use crate::task::Task;
use crate::writing::write_text;
use fj_deck::{DeckFault, parse_deck};
use fj_outside::Sink;
use fj_report::{Status, usage};
use fj_statement::{Deck, Reason};
use std::alloc::Global;

/// Reports what is refused at a line.
pub fn refuse_line<W: Sink>(alloc: Global, line: u32, reason: Reason, out: &mut W) -> Status
    ensures refused { (result ≡ Status.DeckRefused line reason) ⊎ IsLost result }
    ensures output { IsAnswer result → W.tells out.old → W.taken out.new ≡ W.taken out.old ++ status_text (Status.DeckRefused line reason) }
    ensures front { W.tells out.old → TakesFront (W.taken out.old) (W.taken out.new) (status_text (Status.DeckRefused line reason)) }
    ensures cause { HasCause ⊥ (Rose (W.count out.old) (W.count out.new)) ⊥ result }
    ensures telling { W.tells out.old ↔ W.tells out.new }
    ensures later { W.count out.old ≤ W.count out.new }
{
    match status_report(alloc, Status::DeckRefused { line, reason }) {
        Ok(text) => match write_text(out, text.bytes()) {
            Ok(()) => Status::DeckRefused { line, reason },
            Err(lost) => lost,
        },
        Err(_) => Status::Memory,
    }
}

/// Reports words that are no form.
pub fn refuse_words<W: Sink>(out: &mut W) -> Status
    ensures usage { (result ≡ Status.Usage) ⊎ IsLost result }
    ensures output { IsAnswer result → W.tells out.old → W.taken out.new ≡ W.taken out.old ++ usage_text }
    ensures front { W.tells out.old → TakesFront (W.taken out.old) (W.taken out.new) usage_text }
    ensures cause { HasCause ⊥ (Rose (W.count out.old) (W.count out.new)) ⊥ result }
    ensures telling { W.tells out.old ↔ W.tells out.new }
    ensures later { W.count out.old ≤ W.count out.new }
{
    match write_text(out, usage()) {
        Ok(()) => Status::Usage,
        Err(lost) => lost,
    }
}

/// A text that is to be carried out: it is a deck, or what it is refused for is reported: `DeckRefused`, or `WriteFault` or
/// `Memory` where it could not be.
pub fn read_deck<W: Sink>(alloc: Global, text: &[u8], out: &mut W) -> Result<Deck, Status>
    ensures deck { IfOk result (λ deck. IsDeck text.now deck × IsSound deck × (out.new ≡ out.old)) }
    ensures refused { IfErr result (λ status. IsUnread status (Unit {0}) text.now) }
    ensures output { IfErr result (λ status. IfRefused status (λ line reason. W.tells out.old → W.taken out.new ≡ W.taken out.old ++ status_text (Status.DeckRefused line reason))) }
    ensures front { IfErr result (λ _. W.tells out.old → TookRefusal text.now (W.taken out.old) (W.taken out.new)) }
    ensures cause { IfErr result (HasCause ⊥ (Rose (W.count out.old) (W.count out.new)) ⊥) }
    ensures telling { W.tells out.old ↔ W.tells out.new }
    ensures later { W.count out.old ≤ W.count out.new }
{
    match parse_deck(alloc, text) {
        Ok(deck) => Ok(deck),
        Err(DeckFault::Refused { line, reason }) => Err(refuse_line(alloc, line, reason, out)),
        Err(DeckFault::Memory(_)) => Err(Status::Memory),
    }
}

/// Reports a deck that was read and is not carried out.
fn check_deck<W: Sink>(alloc: Global, deck: &Deck, out: &mut W) -> Status
    ensures ended { (result ≡ Status.Ended) ⊎ IsLost result }
    ensures output { IsAnswer result → W.tells out.old → W.taken out.new ≡ W.taken out.old ++ check_text (length deck.now.statements) }
    ensures front { W.tells out.old → TakesFront (W.taken out.old) (W.taken out.new) (check_text (length deck.now.statements)) }
    ensures cause { HasCause ⊥ (Rose (W.count out.old) (W.count out.new)) ⊥ result }
    ensures telling { W.tells out.old ↔ W.tells out.new }
    ensures later { W.count out.old ≤ W.count out.new }
{
    match check_report(alloc, deck.statements.len()) {
        Ok(text) => match write_text(out, text.bytes()) {
            Ok(()) => Status::Ended,
            Err(lost) => lost,
        },
        Err(_) => Status::Memory,
    }
}

/// Reads a text, and tells whether it is a deck.
pub fn check_text<W: Sink>(alloc: Global, text: &[u8], out: &mut W) -> Status
    ensures replied { (files : Files) → IsAnswer result → Replied Task.Check text.now files result files
        (λ output. W.tells out.old → W.taken out.new ≡ W.taken out.old ++ output) }
    ensures front { (files : Files) → W.tells out.old → TookFor Task.Check text.now (files_in files) (W.taken out.old) (W.taken out.new) }
    ensures no_usage { result ≡ Status.Usage → ⊥ }
    ensures ended { IfEnded result (HasDeck Task.Check text.now) }
    ensures refused { IfRefused result (IsRefusal Task.Check text.now) }
    ensures cause { HasCause ⊥ (Rose (W.count out.old) (W.count out.new)) ⊥ result }
    ensures telling { W.tells out.old ↔ W.tells out.new }
    ensures later { W.count out.old ≤ W.count out.new }
{
    match parse_deck(alloc, text) {
        Ok(deck) => check_deck(alloc, &deck, out),
        Err(DeckFault::Refused { line, reason }) => refuse_line(alloc, line, reason, out),
        Err(DeckFault::Memory(_)) => Status::Memory,
    }
}
