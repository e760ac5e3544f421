// A deck that is made from a seed: its text is told, or it is carried out on a disk of its own and summed up.
ghost use Rattle.std.specs.Prelude.{◌≡◌, ◌⊎◌, ◌≤◌, ◌++◌, ◌↔◌, List, ℕ, [], length, sum, unwrap_or, false, Ok, IfOk, IfSome};
ghost use Rattle.fj_outside.specs.Faults.{Rose};
ghost use Rattle.fj_outside.specs.Holdings.{Files};
ghost use Rattle.fj_statement.specs.Sound.{IsSound};
ghost use Rattle.fj_run_pending.specs.Plain.{tells_of};
ghost use Rattle.fj_deck.specs.Deck.{IsRefused};
ghost use Rattle.fj_gen.specs.Generated.{generated_text};
ghost use Rattle.fj_run_items.specs.Handing.{open_record, TakesFront};
ghost use Rattle.fj_report.specs.Lines.{summary_text};
ghost use Rattle.fj_run_script.specs.Machine.{ending_of};
ghost use Rattle.fj_job.specs.Answers.{IsAnswer, IsLost, IsOfRun, HasCause, IfRefused, Replied, TookFor};
ghost use Rattle.fj_job.specs.Reply.{IsRefusal, is_condition, conditions_in, summed, files_in, status_of};
ghost use Rattle.fj_job.specs.Making.{made_text, HasMade, IsMadeFront, IsMadeReplied, TookMade};

use crate::ending::{Carried, carry_out, ending_of};
use crate::middle::Middle;
use crate::report::{run_report, status_of, summary_report};
use crate::task::Task;
use crate::text::refuse_line;
use crate::writing::{write_behind, write_text};
use fj_deck::{DeckFault, parse_deck};
use fj_gen::{byte_sum, generate};
use fj_outside::{MemoryDisk, MemoryFile, Sink};
use fj_report::{Status, Summary};
use fj_run_items::Lost;
use fj_run_pending::Tell;
use fj_run_script::{Ending, Left};
use fj_statement::Deck;
use fj_value::{Condition, Text};
use std::alloc::{AllocError, Global};

/// A file of a connection has at most so many bytes.
const MOST_BYTES: usize = 268_435_456;

fn is_condition(condition: Condition) -> bool
    ensures { result ≡ is_condition condition }
{
    match condition {
        Condition::Fine => false,
        Condition::EndOfFile => true,
        Condition::EndOfRecord => true,
        Condition::Error(_) => true,
    }
}

/// How many transfers were told with a condition.
fn conditions(tells: &[Tell]) -> usize
    ensures { result ≡ conditions_in (tells_of tells.now) }
{
    let mut count = 0;
    'counting: for tell in tells {
        if is_condition(tell.condition) {
            count += 1;
        }
    }
    count
}

/// The bytes of a file of a disk; none where there is none.
fn bytes_of<'a>(disk: &'a MemoryDisk, name: &str) -> &'a [u8]
    ensures { result.now ≡ unwrap_or (files_in disk.now.files name.now) [] }
{
    match disk.bytes_of(name) {
        Some(bytes) => bytes,
        None => &[],
    }
}

/// The sum of the bytes of two files.
fn sum_of(first: &[u8], second: &[u8]) -> u64
    requires first { length first.now ≤ 268435456 }
    requires second { length second.now ≤ 268435456 }
    ensures { result ≡ sum (first.now ++ second.now) }
{
    byte_sum(first) + byte_sum(second)
}

/// What the deck of a seed and a count came to; none where a file has more bytes than a connection can write.
fn summary_of(seed: u32, count: u32, left: &Left<MemoryFile>, disk: &MemoryDisk) -> Option<Summary>
    ensures { IfSome result (λ summary. summary ≡ summed seed count (length left.now.deck.statements) (tells_of left.now.core.tells) (files_in disk.now.files)) }
{
    let first = bytes_of(disk, "G10");
    let second = bytes_of(disk, "G11");
    if first.len() > MOST_BYTES || second.len() > MOST_BYTES {
        return None;
    }
    let tells = left.core.tells.as_slice();
    Some(Summary {
        seed,
        count,
        statements: left.deck.statements.len() as u64,
        tells: tells.len() as u64,
        conditions: conditions(tells) as u64,
        bytes: (first.len() + second.len()) as u64,
        sum: sum_of(first, second),
    })
}

/// The lines behind the output of a deck that was made.
fn made_report(
    alloc: Global,
    seed: u32,
    count: u32,
    ending: Ending,
    left: &Left<MemoryFile>,
    disk: &MemoryDisk,
) -> Result<Text, AllocError>
    requires { length left.now.deck.variables ≤ 4096 }
    ensures { IfOk result (λ text. text ≡ made_text seed count (ending_of ending) left.now (files_in disk.now.files)) }
{
    match ending {
        Ending::Ended => match summary_of(seed, count, left, disk) {
            Some(summary) => summary_report(alloc, &summary),
            None => Err(AllocError),
        },
        Ending::ErrorStop { .. } | Ending::Prohibited { .. } => run_report(
            alloc,
            left.deck.variables.as_slice(),
            Middle::Nothing,
            ending,
            &left.core,
        ),
    }
}

/// Writes what a deck that was made came to.
fn write_made<W: Sink>(
    alloc: Global,
    seed: u32,
    count: u32,
    ending: Ending,
    left: &mut Left<MemoryFile>,
    disk: &MemoryDisk,
    out: &mut W,
) -> Status
    requires { length left.old.deck.variables ≤ 4096 }
    ensures status { (result ≡ status_of (ending_of ending)) ⊎ IsLost result }
    ensures output { IsAnswer result → W.tells out.old → W.taken out.new ≡ W.taken out.old
        ++ (open_record left.old.core.output ++ made_text seed count (ending_of ending) left.old (files_in disk.now.files)) }
    ensures front { W.tells out.old → TakesFront (W.taken out.old) (W.taken out.new)
        (open_record left.old.core.output ++ made_text seed count (ending_of ending) left.old (files_in disk.now.files)) }
    ensures cause { HasCause ⊥ (Rose (W.count out.old) (W.count out.new)) ⊥ result }
    ensures telling { W.tells out.old ↔ W.tells out.new }
    ensures later { W.count out.old ≤ W.count out.new }
{
    match made_report(alloc, seed, count, ending, left, disk) {
        Ok(text) => match write_behind(&mut left.core.output, text.bytes(), out) {
            Ok(()) => status_of(ending),
            Err(lost) => lost,
        },
        Err(_) => Status::Memory,
    }
}

/// Reports the run of a deck that was made.
fn report_made<W: Sink>(
    alloc: Global,
    seed: u32,
    count: u32,
    it: Carried<MemoryFile>,
    disk: &MemoryDisk,
    out: &mut W,
) -> Status
    requires { length it.left.deck.variables ≤ 4096 }
    ensures settled { IsAnswer result → it.settled ≡ Ok tt }
    ensures made { IsAnswer result → HasMade seed count it.left (files_in disk.now.files) result (W.tells out.old) (W.taken out.old) (W.taken out.new) }
    ensures front { W.tells out.old → IsMadeFront seed count it (files_in disk.now.files) (W.taken out.old) (W.taken out.new) }
    ensures of_run { IsOfRun result }
    ensures cause { HasCause ⊥ ((it.settled ≡ Err Lost.Sink) ⊎ Rose (W.count out.old) (W.count out.new)) ⊥ result }
    ensures telling { W.tells out.old ↔ W.tells out.new }
    ensures later { W.count out.old ≤ W.count out.new }
{
    let Carried { left, settled } = it;
    let mut left = left;
    match settled {
        Err(Lost::Sink) => Status::WriteFault,
        Err(Lost::Disk | Lost::Memory(_) | Lost::Unfit) => Status::Memory,
        Ok(()) => match ending_of(&left) {
            Some(ending) => write_made(alloc, seed, count, ending, &mut left, disk, out),
            None => Status::Memory,
        },
    }
}

/// Carries out a deck that was made, where no file is, and sums it up.
fn run_made<W: Sink>(alloc: Global, seed: u32, count: u32, deck: Deck, out: &mut W) -> Status
    requires { IsSound deck }
    ensures replied { (files : Files) → IsAnswer result → IsMadeReplied deck seed count (files_in files) result
        (λ output. W.tells out.old → W.taken out.new ≡ W.taken out.old ++ output) }
    ensures front { (files : Files) → W.tells out.old → TookMade deck seed count (files_in files) (W.taken out.old) (W.taken out.new) }
    ensures of_run { IsOfRun result }
    ensures cause { HasCause ⊥ (Rose (W.count out.old) (W.count out.new)) ⊥ result }
    ensures telling { W.tells out.old ↔ W.tells out.new }
    ensures later { W.count out.old ≤ W.count out.new }
{
    let mut disk = MemoryDisk::new(alloc);
    match carry_out(alloc, deck, out, &mut disk) {
        Ok(it) => report_made(alloc, seed, count, it, &disk, out),
        Err(_) => Status::Memory,
    }
}

/// Makes the deck of a seed and a count, and carries it out.
fn make_and_run<W: Sink>(alloc: Global, seed: u32, count: u32, out: &mut W) -> Status
    ensures replied { (text : List ℕ) (files : Files) → IsAnswer result → Replied (Task.Generate seed count false) text files result files
        (λ output. W.tells out.old → W.taken out.new ≡ W.taken out.old ++ output) }
    ensures front { (text : List ℕ) (files : Files) → W.tells out.old
        → TookFor (Task.Generate seed count false) text (files_in files) (W.taken out.old) (W.taken out.new) }
    ensures no_usage { result ≡ Status.Usage → ⊥ }
    ensures refused { IfRefused result (IsRefused (generated_text seed count)) }
    ensures cause { HasCause ⊥ (Rose (W.count out.old) (W.count out.new)) ⊥ result }
    ensures telling { W.tells out.old ↔ W.tells out.new }
    ensures later { W.count out.old ≤ W.count out.new }
{
    let Ok(text) = generate(alloc, seed, count) else {
        return Status::Memory;
    };
    match parse_deck(alloc, text.bytes()) {
        Ok(deck) => run_made(alloc, seed, count, deck, out),
        Err(DeckFault::Refused { line, reason }) => refuse_line(alloc, line, reason, out),
        Err(DeckFault::Memory(_)) => Status::Memory,
    }
}

/// Makes the deck of a seed and a count, and tells its text.
fn make_and_show<W: Sink>(alloc: Global, seed: u32, count: u32, out: &mut W) -> Status
    ensures ended { (result ≡ Status.Ended) ⊎ IsLost result }
    ensures output { IsAnswer result → W.tells out.old → W.taken out.new ≡ W.taken out.old ++ generated_text seed count }
    ensures front { W.tells out.old → TakesFront (W.taken out.old) (W.taken out.new) (generated_text seed count) }
    ensures cause { HasCause ⊥ (Rose (W.count out.old) (W.count out.new)) ⊥ result }
    ensures telling { W.tells out.old ↔ W.tells out.new }
    ensures later { W.count out.old ≤ W.count out.new }
{
    match generate(alloc, seed, count) {
        Ok(text) => match write_text(out, text.bytes()) {
            Ok(()) => Status::Ended,
            Err(lost) => lost,
        },
        Err(_) => Status::Memory,
    }
}

/// Makes the deck of a seed and a count, and tells its text or carries it out.
pub fn make<W: Sink>(alloc: Global, seed: u32, count: u32, shown: bool, out: &mut W) -> Status
    ensures replied { (text : List ℕ) (files : Files) → IsAnswer result → Replied (Task.Generate seed count shown) text files result files
        (λ output. W.tells out.old → W.taken out.new ≡ W.taken out.old ++ output) }
    ensures front { (text : List ℕ) (files : Files) → W.tells out.old
        → TookFor (Task.Generate seed count shown) text (files_in files) (W.taken out.old) (W.taken out.new) }
    ensures no_usage { result ≡ Status.Usage → ⊥ }
    ensures refused { IfRefused result (IsRefused (generated_text seed count)) }
    ensures cause { HasCause ⊥ (Rose (W.count out.old) (W.count out.new)) ⊥ result }
    ensures telling { W.tells out.old ↔ W.tells out.new }
    ensures later { W.count out.old ≤ W.count out.new }
{
    if shown {
        make_and_show(alloc, seed, count, out)
    } else {
        make_and_run(alloc, seed, count, out)
    }
}
