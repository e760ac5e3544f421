// Texts with what `check` answers on each.
//
// The file has lines that begin with a mark. `#`: a heading, behind which no line stands before or behind a text. `<`: a line that
// stands before each of the texts below. `>`: one that stands behind. `=`: what is answered on the texts below. `|`: a text, in which
// `\n` is a line feed.
use crate::escapes::{escaped, push_unescaped};
use fj_job::alone_job;
use fj_outside::{MemoryDisk, MemorySink, MemorySource};
use fj_value::Text;
use std::alloc::{AllocError, Global};
use std::io;

/// What was read up to a line.
#[derive(Drop)]
struct Section {
    before: Text,
    behind: Text,
    answer: Text,
}

/// How many bytes of an answer are shown.
const SHOWN: usize = 60;

/// What `check` prints on a text.
fn answered(alloc: Global, text: &[u8]) -> Result<MemorySink, AllocError> {
    let mut words = Vec::new(alloc);
    words.push(String::from_str(alloc, "check")?)?;
    let mut deck = MemorySource::new(alloc, text)?;
    let mut out = MemorySink::new(alloc);
    let mut disk = MemoryDisk::new(alloc);
    let _status = alone_job(alloc, &words, &mut deck, &mut out, &mut disk);
    Ok(out)
}

/// The text that a line stands for.
fn text_of(alloc: Global, section: &Section, line: &[u8]) -> Result<Text, AllocError> {
    let mut text = Text::from_bytes(alloc, section.before.bytes())?;
    push_unescaped(&mut text, line)?;
    if !section.behind.is_empty() {
        text.push_all(b"\n")?;
        text.push_all(section.behind.bytes())?;
    }
    Ok(text)
}

/// What is to be said of a text; none where it is answered as expected.
fn wrong_answer(
    alloc: Global,
    section: &Section,
    line: &[u8],
) -> Result<Option<String>, AllocError> {
    let text = text_of(alloc, section, line)?;
    let out = answered(alloc, text.bytes())?;
    if out.taken() == section.answer.bytes() {
        return Ok(None);
    }
    let shown = escaped(alloc, line, 0, SHOWN)?;
    let due = escaped(alloc, section.answer.bytes(), 0, SHOWN)?;
    let found = escaped(alloc, out.taken(), 0, SHOWN)?;
    Ok(Some(format!(in alloc;
        "the text {}: '{}' is expected, '{}' is answered",
        shown.as_str(),
        due.as_str(),
        found.as_str()
    )?))
}

/// Adds a line to lines.
fn add_line(alloc: Global, lines: &Text, line: &[u8]) -> Result<Text, AllocError> {
    let mut longer = Text::from_bytes(alloc, lines.bytes())?;
    push_unescaped(&mut longer, line)?;
    longer.push_all(b"\n")?;
    Ok(longer)
}

fn no_section(alloc: Global) -> Section {
    Section {
        before: Text::new(alloc),
        behind: Text::new(alloc),
        answer: Text::new(alloc),
    }
}

/// Reads a line that is no text.
fn read_mark(
    alloc: Global,
    section: &mut Section,
    mark: u8,
    line: &[u8],
) -> Result<(), AllocError> {
    match mark {
        b'#' => *section = no_section(alloc),
        b'<' => section.before = add_line(alloc, &section.before, line)?,
        b'>' => section.behind = add_line(alloc, &section.behind, line)?,
        b'=' => {
            let mark = Text::from_bytes(alloc, b"=")?;
            section.answer = add_line(alloc, &mark, line)?;
        }
        _ => (),
    }
    Ok(())
}

/// Checks each text, and prints a line for each that is answered otherwise than expected. How many are as expected, and how many not.
pub fn check_texts(rt: &HostRuntime, alloc: Global, texts: &[u8]) -> io::Result<(u64, u64)> {
    let mut section = no_section(alloc);
    let mut right: u64 = 0;
    let mut wrong: u64 = 0;
    for line in texts.split(|byte| *byte == b'\n') {
        match line.split_first() {
            Some((mark, rest)) if *mark == b'|' => match wrong_answer(alloc, &section, rest)? {
                Some(said) => {
                    println!(rt; "{}", said.as_str())?;
                    wrong = wrong.saturating_add(1);
                }
                None => right = right.saturating_add(1),
            },
            Some((mark, rest)) => read_mark(alloc, &mut section, *mark, rest)?,
            None => (),
        }
    }
    Ok((right, wrong))
}
