// What a person is told on standard error of how a run ended.
use crate::conditions::condition_words;
use crate::help::{PAGE, VERSION, is_help};
use crate::refused::tell_refused;
use crate::rules::tell_prohibited;
use crate::wrong::what_is_wrong;
use fj_poll::Status;
use fj_real::{Failure, Why};
use std::alloc::Global;
use std::io::{Result, Write};

/// What is known of a run behind its end.
#[derive(Clone, Copy)]
pub struct Seen<'a> {
    /// The text that was read, if there was memory to keep it.
    pub text: Option<&'a [u8]>,
    /// Why standard input could not be read.
    pub read: Option<Why>,
    /// Why standard output could not be written.
    pub written: Option<Why>,
    /// The files on which calls failed.
    pub failures: &'a [Failure],
}

/// Tells the files on which calls failed, and why.
fn tell_disk<W: Write>(err: &mut W, line: u32, failures: &[Failure]) -> Result<()> {
    write!(
        err,
        "fjob: line {line}: a file could not be opened, read, written or removed"
    )?;
    for failure in failures {
        write!(err, "; {}: {}", failure.name, failure.why)?;
    }
    writeln!(err)
}

/// Tells a sentence, with the reason where there is one.
fn tell_why<W: Write>(err: &mut W, sentence: &str, why: Option<Why>) -> Result<()> {
    match why {
        Some(why) => writeln!(err, "fjob: {sentence}: {why}"),
        None => writeln!(err, "fjob: {sentence}"),
    }
}

/// Tells the version, or what is wrong with the words, and the page of help.
fn tell_usage<W: Write>(err: &mut W, words: &[String]) -> Result<()> {
    match words {
        [word] if word.as_str() == "--version" => writeln!(err, "fjob {VERSION}"),
        [word] if is_help(word.as_str()) => write!(err, "{PAGE}"),
        _ => write!(err, "fjob: {}\n\n{PAGE}", what_is_wrong(words)),
    }
}

/// Tells how a run ended, in one line, and of one that ended well nothing. Behind the line for a text that is refused the
/// line of the text stands, and behind the one for words that are no form the page of help.
pub fn tell<W: Write>(
    err: &mut W,
    alloc: Global,
    words: &[String],
    status: Status,
    seen: Seen<'_>,
) -> Result<()> {
    match status {
        Status::Ended => Ok(()),
        Status::ErrorStop { stmt, code } => {
            writeln!(
                err,
                "fjob: line {stmt}: condition {code}: {}",
                condition_words(code)
            )
        }
        Status::Prohibited { stmt, rule } => tell_prohibited(err, alloc, stmt, rule, seen.text),
        Status::DeckRefused { line, reason } => tell_refused(err, alloc, line, reason, seen.text),
        Status::Usage => tell_usage(err, words),
        Status::ReadFault => tell_why(err, "standard input could not be read", seen.read),
        Status::WriteFault => tell_why(err, "standard output could not be written", seen.written),
        Status::DiskFault { stmt } => tell_disk(err, stmt, seen.failures),
        Status::Memory => tell_why(err, "memory was refused; the run was given up", None),
    }
}
