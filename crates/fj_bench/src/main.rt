//! Counts the records of the file `records` in the current folder, and their characters: what the benchmark of reading times.
#![tactic(auto)]

use fj_outside::{Buffered, Disk, FileStore, Stop, WindowRoom};
use fj_real::RealDisk;
use fj_seqrec::{RecordRead, read_record};
use fj_value::Text;
use std::alloc::Global;
use std::process::ExitCode;

/// The longest record that is read, in characters.
const LIMIT: u32 = 65_536;

/// How many records a file has, and how many characters they have together.
#[derive(Clone, Copy)]
struct Count {
    records: u64,
    characters: u64,
}

/// Reads the records of a file one after another, up to the end or to one that is too long.
fn counted<F: FileStore>(file: &mut F, into: &mut Text) -> Result<Count, Stop> {
    let mut count = Count {
        records: 0,
        characters: 0,
    };
    let mut at = 0;
    for _ in 0..file.len() {
        if at >= file.len() {
            break;
        }
        match read_record(file, at, LIMIT, into)? {
            RecordRead::Line { next } => at = next,
            _ => break,
        }
        count.records = count.records.saturating_add(1);
        count.characters = count.characters.saturating_add(into.bytes().len() as u64);
    }
    Ok(count)
}

/// The same of the file of that name, through a window.
fn counted_in<D: Disk>(alloc: Global, disk: &mut D, name: &str) -> Result<Count, Stop>
    requires { D.tells disk.old → ⊥ }
{
    let room = WindowRoom::new(alloc)?;
    let Some(file) = disk.take(alloc, name)? else {
        return Err(Stop::Failed);
    };
    let mut file = Buffered::new(room, file);
    let mut into = Text::new(alloc);
    counted(&mut file, &mut into)
}

fn main(rt: HostRuntime) -> ExitCode {
    let Ok(files) = rt.clone() else {
        return ExitCode::FAILURE;
    };
    let mut disk = RealDisk::new(rt.alloc(), files);
    match counted_in(rt.alloc(), &mut disk, "records") {
        Ok(count) => {
            match println!(rt; "{} {}", count.records, count.characters) {
                Ok(()) => ExitCode::SUCCESS,
                Err(_) => ExitCode::FAILURE,
            }
        }
        Err(_) => ExitCode::FAILURE,
    }
}
