// What is told: a text with places, what stands in these, and the column that it is about.

use crate::specifiers::{SPECIFIERS, Statement};
use fj_value::Kind;
use std::alloc::{AllocError, Global};

/// The most bytes that are told.
const MOST: usize = 160;

/// What stands in the place of a `%`.
#[derive(Clone, Copy)]
pub enum Part<'a> {
    Nothing,
    /// A word of the deck, told in upper case.
    Word(&'a [u8]),
    /// Other bytes of the deck, told as they are written.
    Written(&'a [u8]),
    Text(&'static str),
    Number(u32),
    Kind(Kind),
    /// Words with blanks between them.
    List(&'static [&'static str]),
    /// The specifiers that a statement has.
    Specifiers(Statement),
}

#[derive(Clone, Copy)]
pub struct Told<'a> {
    /// From 1 on.
    pub at: usize,
    pub text: &'static str,
    pub first: Part<'a>,
    pub second: Part<'a>,
}

/// What a look at some tokens answers: `Err` where something is wrong with them.
pub type Look<'a> = Result<(), Told<'a>>;

impl<'a> Told<'a> {
    pub fn new(at: usize, text: &'static str) -> Told<'a> {
        Told {
            at,
            text,
            first: Part::Nothing,
            second: Part::Nothing,
        }
    }

    /// With what stands in its first place.
    pub fn with(self, first: Part<'a>) -> Told<'a> {
        Told { first, ..self }
    }

    /// With what stands in its second place.
    pub fn and(self, second: Part<'a>) -> Told<'a> {
        Told { second, ..self }
    }

    /// The line that a person reads. A byte that is no printable ASCII is told as `?`, and what is too long ends in dots.
    pub fn line(self, alloc: Global) -> Result<String, AllocError> {
        let mut out = Vec::new(alloc);
        let mut next = self.first;
        for byte in self.text.as_bytes() {
            if *byte == b'%' {
                push_part(alloc, &mut out, next)?;
                next = self.second;
            } else {
                out.push(*byte)?;
            }
        }
        if out.len() > MOST {
            out.truncate(MOST - 2);
            out.extend_from_slice(b"..")?;
        }
        match String::from_utf8(out) {
            Ok(line) => Ok(line),
            Err(_) => Ok(String::new(alloc)),
        }
    }
}

fn push_part(alloc: Global, out: &mut Vec<u8>, part: Part<'_>) -> Result<(), AllocError> {
    match part {
        Part::Nothing => Ok(()),
        Part::Word(word) => {
            let word = word.to_ascii_uppercase(alloc)?;
            push_shown(out, &word)
        }
        Part::Written(bytes) => push_shown(out, bytes),
        Part::Text(text) => out.extend_from_slice(text.as_bytes()),
        Part::Number(number) => {
            let digits = number.to_string(alloc)?;
            out.extend_from_slice(digits.as_bytes())
        }
        Part::Kind(kind) => out.extend_from_slice(kind_text(kind).as_bytes()),
        Part::List(words) => {
            for word in words {
                push_listed(out, word)?;
            }
            Ok(())
        }
        Part::Specifiers(statement) => push_specifiers(out, statement),
    }
}

fn push_shown(out: &mut Vec<u8>, bytes: &[u8]) -> Result<(), AllocError> {
    for byte in bytes {
        let is_shown = byte.is_ascii_graphic() || *byte == b' ';
        out.push(if is_shown { *byte } else { b'?' })?;
    }
    Ok(())
}

/// A word of a list, behind a blank.
fn push_listed(out: &mut Vec<u8>, word: &str) -> Result<(), AllocError> {
    out.push(b' ')?;
    out.extend_from_slice(word.as_bytes())
}

fn push_specifiers(out: &mut Vec<u8>, statement: Statement) -> Result<(), AllocError> {
    for row in SPECIFIERS {
        if row.1.contains(&statement) {
            push_listed(out, row.0)?;
        }
    }
    Ok(())
}

fn kind_text(kind: Kind) -> &'static str {
    match kind {
        Kind::Int4 => "INTEGER(4)",
        Kind::Int8 => "INTEGER(8)",
        Kind::Logical => "LOGICAL",
        Kind::Chars(_) => "CHARACTER",
    }
}
