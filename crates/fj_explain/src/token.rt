// A line as tokens with their columns. Every line has some: what fits nowhere is a mark.

use crate::told::{Part, Told};
use std::alloc::{AllocError, Global};

#[derive(Clone, Copy, PartialEq, Eq)]
pub enum Shape {
    Word,
    /// Digits, with a sign directly before them or without.
    Number,
    /// With its delimiters.
    Literal,
    /// A literal that does not end.
    Endless,
    Truth,
    /// A byte, or what is one operator.
    Mark,
}

#[derive(Clone, Copy)]
pub struct Token<'a> {
    pub shape: Shape,
    pub text: &'a [u8],
    /// Its column, from 1 on.
    pub at: usize,
}

impl<'a> Token<'a> {
    /// Whether it is written so, in either case.
    pub fn is(&self, text: &str) -> bool {
        self.text.eq_ignore_ascii_case(text.as_bytes())
    }

    pub fn is_word(&self) -> bool {
        self.shape == Shape::Word
    }

    /// What is told of it, with itself in the first place.
    pub fn told(&self, text: &'static str) -> Told<'a> {
        let part = if self.is_word() {
            Part::Word(self.text)
        } else {
            Part::Written(self.text)
        };
        Told::new(self.at, text).with(part)
    }

    /// What a number without a sign amounts to, up to what a u64 has.
    pub fn amount(&self) -> Option<u64> {
        match (self.shape, self.text) {
            (Shape::Number, [b'0'..=b'9', ..]) => Some(amount(self.text)),
            _ => None,
        }
    }

    /// What stands between the delimiters of a literal.
    pub fn inside(&self) -> Option<&'a [u8]> {
        match (self.shape, self.text) {
            (Shape::Literal, [_, inside @ .., _]) => Some(inside),
            _ => None,
        }
    }
}

/// What digits amount to, up to what a u64 has.
pub fn amount(digits: &[u8]) -> u64 {
    let mut amount: u64 = 0;
    for digit in digits {
        let value = u64::from(digit.wrapping_sub(b'0'));
        amount = amount.saturating_mul(10).saturating_add(value);
    }
    amount
}

fn is_in_word(byte: u8) -> bool {
    byte.is_ascii_alphanumeric() || byte == b'_'
}

fn word_len(line: &[u8]) -> usize {
    line.iter().take_while(|byte| is_in_word(**byte)).count()
}

fn digits_len(line: &[u8]) -> usize {
    line.iter().take_while(|byte| byte.is_ascii_digit()).count()
}

/// A literal behind its first delimiter: the same ends it where it is not doubled.
fn literal(delimiter: u8, behind: &[u8]) -> (Shape, usize) {
    let mut ends = false;
    for (at, byte) in behind.iter().enumerate() {
        if *byte == delimiter {
            ends = !ends;
        } else if ends {
            return (Shape::Literal, at.saturating_add(1));
        }
    }
    let shape = if ends { Shape::Literal } else { Shape::Endless };
    (shape, behind.len().saturating_add(1))
}

/// `.TRUE.`, `.FALSE.`, an operator as `.AND.`, or the point by itself.
fn dotted(line: &[u8]) -> (Shape, usize) {
    let [_, behind @ ..] = line else {
        return (Shape::Mark, 0);
    };
    let len = word_len(behind);
    let (word, behind) = behind.split_at(len.min(behind.len()));
    let [b'.', ..] = behind else {
        return (Shape::Mark, 1);
    };
    if word.eq_ignore_ascii_case(b"TRUE") || word.eq_ignore_ascii_case(b"FALSE") {
        return (Shape::Truth, word.len().saturating_add(2));
    }
    (Shape::Mark, word.len().saturating_add(2))
}

/// The shape and the length of the first token.
fn first(line: &[u8]) -> (Shape, usize) {
    match line {
        [] => (Shape::Mark, 0),
        [b'\'', behind @ ..] => literal(b'\'', behind),
        [b'"', behind @ ..] => literal(b'"', behind),
        [byte, ..] if byte.is_ascii_alphabetic() => (Shape::Word, word_len(line)),
        [byte, ..] if byte.is_ascii_digit() => (Shape::Number, digits_len(line)),
        [b'+' | b'-', behind @ ..] if digits_len(behind) > 0 => {
            (Shape::Number, digits_len(behind).saturating_add(1))
        }
        [b'.', ..] => dotted(line),
        [b':', b':', ..]
        | [b'/', b'/' | b'=', ..]
        | [b'*', b'*', ..]
        | [b'=', b'=' | b'>', ..]
        | [b'<' | b'>', b'=', ..] => (Shape::Mark, 2),
        _ => (Shape::Mark, 1),
    }
}

/// The tokens of a line before a comment.
pub fn tokens(alloc: Global, line: &[u8]) -> Result<Vec<Token<'_>>, AllocError> {
    let mut found = Vec::new(alloc);
    let mut free = 0;
    for (at, byte) in line.iter().enumerate() {
        if at < free || *byte == b' ' || *byte == b'\t' {
            continue;
        }
        if *byte == b'!' {
            break;
        }
        let rest = &line[at..];
        let (shape, len) = first(rest);
        let (text, _) = rest.split_at(len.min(rest.len()));
        found.push(Token {
            shape,
            text,
            at: at.saturating_add(1),
        })?;
        free = at.saturating_add(len);
    }
    Ok(found)
}

fn depth_behind(depth: usize, token: &Token<'_>) -> usize {
    if token.is("(") {
        depth.saturating_add(1)
    } else if token.is(")") {
        depth.saturating_sub(1)
    } else {
        depth
    }
}

/// What stands before the first comma outside parentheses, and what stands behind it, if there is one.
pub fn cut<'b, 'a>(tokens: &'b [Token<'a>]) -> (&'b [Token<'a>], Option<&'b [Token<'a>]>) {
    let mut depth = 0;
    for (at, token) in tokens.iter().enumerate() {
        if depth == 0 && token.is(",") {
            return (&tokens[..at], Some(&tokens[at + 1..]));
        }
        depth = depth_behind(depth, token);
    }
    (tokens, None)
}

/// The comma behind a part, or what stood before it.
pub fn last<'a>(tokens: &[Token<'a>], part: &[Token<'a>], near: Token<'a>) -> Token<'a> {
    match tokens.get(part.len()) {
        Some(comma) => *comma,
        None => near,
    }
}

/// Of the tokens behind a parenthesis, those before the one that closes it, and those behind that.
pub fn closed<'b, 'a>(tokens: &'b [Token<'a>]) -> Option<(&'b [Token<'a>], &'b [Token<'a>])> {
    let mut depth = 0;
    for (at, token) in tokens.iter().enumerate() {
        if depth == 0 && token.is(")") {
            return Some((&tokens[..at], &tokens[at + 1..]));
        }
        depth = depth_behind(depth, token);
    }
    None
}

/// What stands before and behind the first token that is written so.
pub fn parted<'b, 'a>(
    tokens: &'b [Token<'a>],
    mark: &str,
) -> Option<(&'b [Token<'a>], &'b [Token<'a>])> {
    for (at, token) in tokens.iter().enumerate() {
        if token.is(mark) {
            return Some((&tokens[..at], &tokens[at + 1..]));
        }
    }
    None
}

/// The first token that is written so.
pub fn find<'a>(tokens: &[Token<'a>], text: &str) -> Option<Token<'a>> {
    for token in tokens {
        if token.is(text) {
            return Some(*token);
        }
    }
    None
}
