// What is asked for: it is answered at once, or is a deck that is to be carried out.
ghost use Rattle.std.specs.Prelude.{◌≡◌, ◌≤◌, ◌++◌, ◌↔◌, IfErr, IfOk};
ghost use Rattle.fj_outside.specs.Faults.{Rose};
ghost use Rattle.fj_outside.specs.Holdings.{Files};
ghost use Rattle.fj_deck.specs.Deck.{IsDeck};
ghost use Rattle.fj_statement.specs.Sound.{IsSound};
ghost use Rattle.fj_report.specs.Lines.{status_text};
ghost use Rattle.fj_job.specs.Answers.{IsAnswer, HasCause, IfEnded, IfRefused, HasDeck, Replied, TookFor, TookRefusal};
ghost use Rattle.fj_job.specs.Reply.{IsRefusal, files_in};
ghost use Rattle.fj_job.specs.Asking.{IsAsked, IsUnread};
ghost use Rattle.fj_job.specs.Seen.{seen};

use crate::made::make;
use crate::streams::read_text;
use crate::task::Task;
use crate::text::{check_text, read_deck, refuse_words};
use fj_outside::{Sink, Source, Stop};
use fj_report::Status;
use fj_statement::Deck;
use std::alloc::Global;

/// An answer, or a deck that is to be carried out.
#[derive(Drop)]
pub enum Asked {
    Answered(Status),
    Deck {
        deck: Deck,
        workers: u32,
        trace: bool,
    },
}

/// Reads a source, and tells whether its text is a deck.
fn check_source<R: Source, W: Sink>(alloc: Global, deck: &mut R, out: &mut W) -> Status
    ensures replied { (files : Files) → IsAnswer result → R.tells deck.old → Replied Task.Check (R.left deck.old) files result files
        (λ output. W.tells out.old → W.taken out.new ≡ W.taken out.old ++ output) }
    ensures front { (files : Files) → R.tells deck.old → W.tells out.old → TookFor Task.Check (R.left deck.old) (files_in files) (W.taken out.old) (W.taken out.new) }
    ensures no_usage { result ≡ Status.Usage → ⊥ }
    ensures ended { R.tells deck.old → IfEnded result (HasDeck Task.Check (R.left deck.old)) }
    ensures refused { R.tells deck.old → IfRefused result (IsRefusal Task.Check (R.left deck.old)) }
    ensures untold { result ≡ Status.ReadFault → out.new ≡ out.old }
    ensures cause { HasCause (Rose (R.count deck.old) (R.count deck.new)) (Rose (W.count out.old) (W.count out.new)) ⊥ result }
    ensures deck_telling { R.tells deck.old ↔ R.tells deck.new }
    ensures out_telling { W.tells out.old ↔ W.tells out.new }
    ensures deck_later { R.count deck.old ≤ R.count deck.new }
    ensures out_later { W.count out.old ≤ W.count out.new }
{
    match read_text(alloc, deck) {
        Ok(text) => check_text(alloc, &text, out),
        Err(Stop::Failed) => Status::ReadFault,
        Err(Stop::Memory(_)) => Status::Memory,
    }
}

/// Reads a source whose text is to be carried out.
fn deck_of<R: Source, W: Sink>(alloc: Global, deck: &mut R, out: &mut W) -> Result<Deck, Status>
    ensures deck { R.tells deck.old → IfOk result (λ it. IsDeck (R.left deck.old) it) }
    ensures sound { IfOk result (λ it. IsSound it × (out.new ≡ out.old)) }
    ensures refused { IfErr result (λ status. IsUnread status (R.tells deck.old) (R.left deck.old)) }
    ensures output { IfErr result (λ status. IfRefused status (λ line reason. W.tells out.old → W.taken out.new ≡ W.taken out.old ++ status_text (Status.DeckRefused line reason))) }
    ensures front { IfErr result (λ _. R.tells deck.old → W.tells out.old → TookRefusal (R.left deck.old) (W.taken out.old) (W.taken out.new)) }
    ensures untold { IfErr result (λ status. status ≡ Status.ReadFault → out.new ≡ out.old) }
    ensures cause { IfErr result (HasCause (Rose (R.count deck.old) (R.count deck.new)) (Rose (W.count out.old) (W.count out.new)) ⊥) }
    ensures deck_telling { R.tells deck.old ↔ R.tells deck.new }
    ensures out_telling { W.tells out.old ↔ W.tells out.new }
    ensures deck_later { R.count deck.old ≤ R.count deck.new }
    ensures out_later { W.count out.old ≤ W.count out.new }
{
    match read_text(alloc, deck) {
        Ok(text) => read_deck(alloc, &text, out),
        Err(Stop::Failed) => Err(Status::ReadFault),
        Err(Stop::Memory(_)) => Err(Status::Memory),
    }
}

/// Does with a source what is asked for, but for carrying out a deck: answers, or hands out the deck that was read.
pub fn answer<R: Source, W: Sink>(alloc: Global, task: Task, deck: &mut R, out: &mut W) -> Asked
    ensures asked { IsAsked task (seen R.tells R.left R.count deck.old deck.new) (seen W.tells W.taken W.count out.old out.new) result }
{
    match task {
        Task::Refuse => Asked::Answered(refuse_words(out)),
        Task::Check => Asked::Answered(check_source(alloc, deck, out)),
        Task::Execute { workers, trace } => match deck_of(alloc, deck, out) {
            Ok(deck) => Asked::Deck {
                deck,
                workers,
                trace,
            },
            Err(status) => Asked::Answered(status),
        },
        Task::Generate { seed, count, text } => {
            Asked::Answered(make(alloc, seed, count, text, out))
        }
    }
}
