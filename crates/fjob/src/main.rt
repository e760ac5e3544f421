//! Runs a deck from standard input, or a batch of decks, over the files of the current folder.
#![tactic(auto)]

mod batch;
mod commands;
mod conditions;
mod help;
mod refused;
mod rules;
mod told;
mod wrong;

use crate::batch::{batch, is_batch};
use crate::commands::carry_out;
use crate::told::{Seen, tell};
use fj_exit::exit_status;
use fj_poll::Status;
use fj_real::{Kept, RealDisk, RealOutput, RealSink, RealSource, hold_standard_numbers};
use std::alloc::AllocError;
use std::env;
use std::fs::File;
use std::io::{ErrorKind, Write};
use std::process::ExitCode;
use std::rt::{Files, Stdin};

/// The words behind the program's name. None where one of them is no text, and so no form.
fn words(rt: &HostRuntime) -> Result<Vec<String>, AllocError> {
    let mut words = Vec::new(rt.alloc());
    match env::args(rt) {
        Ok(args) => {
            for word in args.skip(1) {
                words.push(word)?;
            }
        }
        Err(e) => {
            if e.kind() == ErrorKind::OutOfMemory {
                return Err(AllocError);
            }
        }
    }
    Ok(words)
}

/// Tells a person on standard error how a run ended that did not end well.
fn tell_end<W: Write, F: Files<File = File>>(
    rt: &HostRuntime,
    words: &[String],
    status: Status,
    deck: &Kept<RealSource<Stdin>>,
    out: &RealSink<W>,
    disk: &RealDisk<F>,
) {
    if status == Status::Ended {
        return;
    }
    let seen = Seen {
        text: deck.text(),
        read: deck.get_ref().why(),
        written: out.why(),
        failures: disk.failures(),
    };
    let _ = tell(&mut rt.stderr(), rt.alloc(), words, status, seen);
}

/// Gives a run up before it is begun, with a sentence on standard error.
fn give_up(rt: &HostRuntime, sentence: &str, status: Status) -> ExitCode {
    let _ = eprintln!(rt; "fjob: {sentence}");
    ExitCode::from(exit_status(status))
}

fn main(rt: HostRuntime) -> ExitCode {
    if hold_standard_numbers(&rt).is_err() {
        return give_up(
            &rt,
            "whether standard output is open could not be found out",
            Status::WriteFault,
        );
    }
    let Ok(words) = words(&rt) else {
        return give_up(&rt, "memory was refused", Status::Memory);
    };
    if is_batch(&words) {
        return match batch(&rt, &rt, &words) {
            Ok(code) => code,
            Err(_) => give_up(&rt, "memory was refused", Status::Memory),
        };
    }
    let Ok(output) = rt.clone() else {
        return give_up(&rt, "memory was refused", Status::Memory);
    };
    let Ok(files) = rt.clone() else {
        return give_up(&rt, "memory was refused", Status::Memory);
    };
    let mut deck = Kept::new(rt.alloc(), RealSource::new(rt.stdin()));
    let mut out = RealSink::new(RealOutput::new(output, rt.stdout()));
    let mut disk = RealDisk::new(rt.alloc(), files);
    let status = carry_out(&rt, rt.alloc(), &words, &mut deck, &mut out, &mut disk);
    tell_end(&rt, &words, status, &deck, &out, &disk);
    ExitCode::from(exit_status(status))
}
