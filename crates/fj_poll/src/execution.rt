// A deck is carried out with looks, and reported.
ghost use Rattle.std.specs.Prelude.{◌≡◌, ◌≤◌, ◌++◌, length, IfOk, OnOk};
ghost use Rattle.std.specs.List.{flat_map};
ghost use Rattle.std.specs.FinSet as set;
ghost use Rattle.fj_statement.specs.Sound.{IsSound};
ghost use Rattle.fj_job.specs.Executing.{IsConcluded};
ghost use Rattle.fj_poll.specs.Answers.{IsCarriedOutPolled, IsExecutedPolled, looks_left};
ghost use Rattle.fj_poll.specs.Lines.{line_of, look_lines};

use crate::stretches::carry_polled;
use fj_job::{Carried, Middle, Ready, Status, conclude, ready_for, settle, workers_for};
use fj_outside::{Disk, FileStore, Sink};
use fj_report::look_line;
use fj_run_script::Look;
use fj_statement::{Deck, unit_number};
use fj_value::Text;
use std::alloc::{AllocError, Global};
use std::sync::Wait;
use std::thread::Threads;

/// Carries out a deck on slots of its own, with so many threads besides, and gives the files back.
fn carry_out_polled<Rt: Threads + Wait + Sync, W: Sink + Send, D: Disk + Send>(
    rt: &Rt,
    alloc: Global,
    workers: u32,
    deck: Deck,
    out: &mut W,
    disk: &mut D,
) -> Result<Carried<D::File>, AllocError>
where
    D::File: Send,
    requires sound { IsSound deck }
    requires free { D.tells disk.old → (D.held disk.old).in_use ≡ set.empty }
    ensures carried { IsCarriedOutPolled W.tells W.taken W.count D.tells D.held D.count D.refusals deck out.old disk.old out.new disk.new result }
{
    let Ready {
        machine,
        slots,
        room,
    } = ready_for::<D::File>(alloc, deck)?;
    let (mut machine, mut slots) = (machine, slots);
    carry_polled(rt, alloc, workers, &mut machine, &mut slots, out, disk);
    Ok(settle(machine, slots, room, disk))
}

/// Adds the lines of looks.
fn push_looks(text: &mut Text, looks: &[Look]) -> Result<(), AllocError>
    ensures { OnOk result (text.new ≡ text.old ++ flat_map line_of looks.now) }
{
    'adding: for look in looks {
        look_line(
            look.line,
            unit_number(look.unit),
            look.pending,
            look.done,
            text,
        )?;
    }
    Ok(())
}

/// The lines of looks.
fn looks_text(alloc: Global, looks: &[Look]) -> Result<Text, AllocError>
    ensures { IfOk result (λ text. text ≡ flat_map line_of looks.now) }
{
    let mut text = Text::new(alloc);
    push_looks(&mut text, looks)?;
    Ok(text)
}

/// The lines of the looks that a run left, if it began.
fn looks_report<F: FileStore>(
    alloc: Global,
    carried: &Result<Carried<F>, AllocError>,
) -> Result<Text, AllocError>
    ensures { IfOk result (λ text. text ≡ flat_map line_of (looks_left carried.now)) }
{
    match carried {
        Ok(it) => looks_text(alloc, it.left.looks.as_slice()),
        Err(_) => Ok(Text::new(alloc)),
    }
}

/// Reports a run with its looks, if there was memory to begin it.
fn conclude_polled<F: FileStore, W: Sink>(
    alloc: Global,
    carried: Result<Carried<F>, AllocError>,
    out: &mut W,
) -> Status
    requires { IfOk carried (λ it. length it.left.deck.variables ≤ 4096) }
    ensures concluded { IsConcluded W.tells W.taken W.count (look_lines (looks_left carried)) carried out.old out.new result }
{
    let Ok(text) = looks_report(alloc, &carried) else {
        return Status::Memory;
    };
    conclude(alloc, Middle::Given(text.bytes()), carried, out)
}

/// Carries out a deck with so many threads besides, or with none where no transfer of the deck has ASYNCHRONOUS='YES', and reports it with its looks.
pub(crate) fn execute_polled<Rt: Threads + Wait + Sync, W: Sink + Send, D: Disk + Send>(
    rt: &Rt,
    alloc: Global,
    workers: u32,
    deck: Deck,
    out: &mut W,
    disk: &mut D,
) -> Status
where
    D::File: Send,
    requires sound { IsSound deck }
    requires free { D.tells disk.old → (D.held disk.old).in_use ≡ set.empty }
    ensures executed { IsExecutedPolled W.tells W.taken W.count D.tells D.held D.count D.refusals deck out.old disk.old out.new disk.new result }
{
    let workers = workers_for(deck.statements.as_slice(), workers);
    let carried = carry_out_polled(rt, alloc, workers, deck, out, disk);
    conclude_polled(alloc, carried, out)
}
