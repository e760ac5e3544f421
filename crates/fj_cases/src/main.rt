//! Carries out each case of data/ over disks in memory, and says whether it prints, answers and leaves what stands beside it; and
//! checks each text of data/texts.
//!
//! data/names has the names of the cases, one a line. The case NAME is the folder data/decks/NAME: deck (the deck), words (the words
//! of fjob, one a line), files/ (what lies there before), expected/output, expected/status, expected/files/ (all that is to lie there
//! afterwards), and about.txt, which is for people. One whose words begin with `alone` is carried out by `run` with 0 and with 4
//! workers too.
#![tactic(auto)]

mod case;
mod difference;
mod escapes;
mod listed_disk;
mod run;
mod texts;

use case::read_case;
use run::verdict;
use std::{fs, io};
use texts::check_texts;

/// How many folders lie in a folder.
fn count_folders(rt: &HostRuntime, folder: &str) -> io::Result<usize> {
    let mut count: usize = 0;
    for entry in fs::read_dir(rt, folder)? {
        if entry?.metadata()?.is_dir() {
            count = count.saturating_add(1);
        }
    }
    Ok(count)
}

fn main(rt: HostRuntime) -> io::Result<()> {
    let alloc = rt.alloc();
    let names = fs::read_to_string(&rt, "names")?;
    let mut count: usize = 0;
    for name in names.as_str().lines() {
        let said = match read_case(&rt, alloc, name) {
            Ok(case) => verdict(&rt, alloc, &case)?,
            Err(e) => format!(in alloc; "cannot be read: {}", e)?,
        };
        println!(rt; "{}: {}", name, said.as_str())?;
        count = count.saturating_add(1);
    }
    let folders = count_folders(&rt, "decks")?;
    println!(rt; "{} cases of {} folders", count, folders)?;
    let texts = fs::read(&rt, "texts")?;
    let (right, wrong) = check_texts(&rt, alloc, &texts)?;
    println!(rt; "{} texts as expected, {} not", right, wrong)?;
    Ok(())
}
