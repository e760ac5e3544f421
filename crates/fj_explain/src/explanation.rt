// Whether a text is a deck, and if not what is told of it.
ghost use Rattle.fj_explain.specs.Explains.{Explains};

use crate::before::Before;
use crate::format;
use crate::line::line;
use crate::token::{Token, tokens};
use crate::told::{Part, Told};
use fj_deck::{DeckFault, parse_deck};
use fj_statement::Reason;
use std::alloc::{AllocError, Global};

/// The refusal of a text, and what a person is told of it.
#[derive(Drop)]
pub struct Explanation {
    /// The first line that is refused, from 1 on.
    pub line: u32,
    pub reason: Reason,
    /// A column of that line, in bytes from 1 on.
    pub column: u32,
    /// One line of printable ASCII text, of at most 160 bytes.
    pub what: String,
}

/// What is wrong with a text; `None` exactly where it is a deck.
pub fn explain(alloc: Global, text: &[u8]) -> Result<Option<Explanation>, AllocError>
    ensures { Explains text.now result }
{
    match parse_deck(alloc, text) {
        Ok(_) => Ok(None),
        Err(DeckFault::Memory(error)) => Err(error),
        Err(DeckFault::Refused { line, reason }) => {
            let (column, what) = told(alloc, text, line, reason)?;
            Ok(Some(Explanation {
                line,
                reason,
                column,
                what,
            }))
        }
    }
}

/// The column and the words for a line that is refused.
fn told(
    alloc: Global,
    text: &[u8],
    line: u32,
    reason: Reason,
) -> Result<(u32, String), AllocError> {
    if let Some((at, text)) = of_text(reason) {
        return shown(alloc, Told::new(at, text));
    }
    let before = Before::of(alloc, text, line)?;
    let tokens = tokens(alloc, before.line)?;
    let written = before.is_written(alloc)?;
    let told = of_reason(&before, written, &tokens, reason);
    shown(alloc, told)
}

fn shown(alloc: Global, told: Told<'_>) -> Result<(u32, String), AllocError> {
    let column = match u32::try_from(told.at) {
        Ok(column) => column,
        Err(_) => 1,
    };
    let what = told.line(alloc)?;
    Ok((column, what))
}

fn of_reason<'a>(
    before: &Before<'a>,
    written: bool,
    tokens: &[Token<'a>],
    reason: Reason,
) -> Told<'a> {
    match reason {
        Reason::Format { at } => found(tokens, format::told(tokens, at)),
        Reason::Syntax => no_statement(before, written, tokens),
        Reason::Meaning => no_meaning(before, tokens),
        _ => too_many(tokens),
    }
}

/// The column, and what is told, where the line is not looked at.
fn of_text(reason: Reason) -> Option<(usize, &'static str)> {
    match reason {
        Reason::TextTooLong => Some((1, "the text has more than 4,194,304 bytes")),
        Reason::LineTooLong => Some((1_001, "the line has more than 1,000 bytes")),
        Reason::NoEnd => Some((1, "END is missing: it is the last statement of a deck")),
        _ => None,
    }
}

/// What is told of a line that is no statement, or none in its place.
fn no_statement<'a>(before: &Before<'a>, written: bool, tokens: &[Token<'a>]) -> Told<'a> {
    if written {
        return misplaced(before, tokens);
    }
    let looked = line(None, tokens);
    found(tokens, looked.err())
}

/// What is told of a statement or declaration that means nothing.
fn no_meaning<'a>(before: &Before<'a>, tokens: &[Token<'a>]) -> Told<'a> {
    if let Err(told) = line(Some(&before.names), tokens) {
        return told;
    }
    Told::new(1, "the names and values of this line do not fit together")
}

/// What was found, or else how the line begins.
fn found<'a>(tokens: &[Token<'a>], told: Option<Told<'a>>) -> Told<'a> {
    if let Some(told) = told {
        return told;
    }
    let Some(first) = tokens.first() else {
        return Told::new(1, "this is not a statement of the deck language");
    };
    first.told("this is not a statement of the deck language: it begins with %")
}

/// What is told of a statement or declaration in the wrong place.
fn misplaced<'a>(before: &Before<'a>, tokens: &[Token<'a>]) -> Told<'a> {
    let Some(first) = tokens.first() else {
        return Told::new(1, "this is in the wrong place");
    };
    if let Some(line) = before.end {
        let told = first.told("END is in line % already, and only comments may follow it");
        return told.with(Part::Number(line));
    }
    let told = first.told("declarations come before all statements, and line % is a statement");
    told.with(Part::Number(before.statement.unwrap_or(0)))
}

/// What is told of a line that passes a limit.
fn too_many<'a>(tokens: &[Token<'a>]) -> Told<'a> {
    let [first, ..] = tokens else {
        return Told::new(1, "the deck is too long");
    };
    if first.is("READ") || first.is("WRITE") {
        return first.told(
            "over a limit: 1,000,000 items of 16,777,216 bytes, 1,000,000 steps of a format, or 100,000 statements of the deck",
        );
    }
    if first.is("INTEGER") || first.is("LOGICAL") || first.is("CHARACTER") {
        return first.told(
            "more than 4,096 variables, 1,000,000 elements or 16,777,216 bytes of characters are declared",
        );
    }
    first.told("a deck has at most 100,000 statements")
}
