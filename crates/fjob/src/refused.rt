// What a person is told of a text that is no deck: the line, the column, what is wrong, and the deck's line.
use fj_explain::{Explanation, explain};
use fj_poll::Reason;
use std::alloc::{AllocError, Global};
use std::io::{self, Write};

/// The most bytes of a deck's line that are shown.
const WIDTH: usize = 150;
/// The most bytes that are shown before the column.
const BEFORE: usize = 100;

/// A reason in words, where there is no more to say.
fn reason_words(reason: Reason) -> &'static str {
    match reason {
        Reason::TextTooLong => "the text has more than 4,194,304 bytes",
        Reason::LineTooLong => "the line has more than 1,000 bytes",
        Reason::Syntax => "the line is no statement, or one that has no place here",
        Reason::Format { .. } => "a literal is no format",
        Reason::Meaning =>
            "a name, a subscript, a literal, a kind or a combination of specifiers has no meaning",
        Reason::TooMany => "a limit is passed",
        Reason::NoEnd => "the text has no END",
    }
}

/// A line of a text, from 1 on, without its end.
fn line_of(text: &[u8], line: u32) -> Option<&[u8]> {
    let mut at = 1;
    for piece in text.split(|byte| *byte == b'\n') {
        if at == line {
            return Some(piece);
        }
        at = at.saturating_add(1);
    }
    None
}

/// A byte as it is shown: a tab and what a terminal obeys as one other character.
fn shown(byte: u8) -> u8 {
    match byte {
        b'\t' | b'\r' => b' ',
        0..=31 | 127 => b'?',
        _ => byte,
    }
}

/// Whether a byte begins a character of UTF-8.
fn begins_character(byte: u8) -> bool {
    !(0x80..=0xBF).contains(&byte)
}

/// Puts a part of a line down, and a mark under its column.
fn mark(alloc: Global, part: &[u8], before: usize) -> Result<Vec<u8>, AllocError> {
    let mut lines = Vec::new(alloc);
    lines.extend_from_slice(b"    ")?;
    for byte in part {
        lines.push(shown(*byte))?;
    }
    lines.extend_from_slice(b"\n    ")?;
    for byte in part.iter().take(before) {
        if begins_character(*byte) {
            lines.push(b' ')?;
        }
    }
    lines.extend_from_slice(b"^\n")?;
    Ok(lines)
}

/// Shows the deck's line, or the part of it around the column, with a mark under the column.
fn show_line<W: Write>(err: &mut W, alloc: Global, line: &[u8], column: u32) -> io::Result<()> {
    let before = (column.saturating_sub(1) as usize).min(line.len());
    let start = before.saturating_sub(BEFORE);
    let end = start.saturating_add(WIDTH).min(line.len());
    match mark(alloc, &line[start..end], before - start) {
        Ok(lines) => err.write_all(&lines),
        Err(_) => Ok(()),
    }
}

/// What is known of a refusal besides its line and reason, if there is a text and memory.
fn explained(alloc: Global, text: Option<&[u8]>) -> Option<Explanation> {
    match explain(alloc, text?) {
        Ok(said) => said,
        Err(_) => None,
    }
}

/// Tells why a text is refused at a line, and shows the line.
pub fn tell_refused<W: Write>(
    err: &mut W,
    alloc: Global,
    line: u32,
    reason: Reason,
    text: Option<&[u8]>,
) -> io::Result<()> {
    let Some(said) = explained(alloc, text) else {
        return writeln!(err, "fjob: line {line}: {}", reason_words(reason));
    };
    writeln!(
        err,
        "fjob: line {}, column {}: {}",
        said.line, said.column, said.what
    )?;
    match text.and_then(|text| line_of(text, said.line)) {
        Some(shown) if !shown.is_empty() => show_line(err, alloc, shown, said.column),
        _ => Ok(()),
    }
}
