// What is wrong with a format.

use crate::rules::Given;
use crate::token::{Shape, Token};
use crate::told::Told;

const EDITS: &str =
    "no edit descriptor begins with %: there are I B O Z L A G, T TL TR X, S SP SS, BN BZ DC DP, / and :";

/// The format of READ or WRITE.
fn format_token<'a>(tokens: &[Token<'a>]) -> Option<Token<'a>> {
    let given = match tokens {
        [_, mark, inside @ ..] if mark.is("(") => Given::of(inside),
        _ => return None,
    };
    given.format()
}

/// How many bytes stand before a character of a literal, whose delimiters are doubled in it.
fn offset(delimiter: u8, inside: &[u8], at: u32) -> usize {
    let mut left = at;
    let mut doubled = false;
    for (offset, byte) in inside.iter().enumerate() {
        if doubled {
            doubled = false;
            continue;
        }
        if left == 0 {
            return offset;
        }
        left -= 1;
        doubled = *byte == delimiter;
    }
    inside.len()
}

/// What is told of a format whose longest front that begins one has this length.
pub fn told<'a>(tokens: &[Token<'a>], at: u32) -> Option<Told<'a>> {
    let token = format_token(tokens)?;
    let inside = token.inside()?;
    let delimiter = *token.text.first()?;
    let offset = offset(delimiter, inside, at);
    let (front, rest) = inside.split_at(offset.min(inside.len()));
    let found = Token {
        shape: Shape::Mark,
        text: rest.get(..1).unwrap_or(b""),
        at: token.at.saturating_add(offset).saturating_add(1),
    };
    Some(match (front, found.text) {
        ([], _) => found.told("a format is written in parentheses, as in '(I5)'"),
        (_, []) => found.told("the format ends too early: a ) or the end of a string is missing"),
        (_, [b'F' | b'f' | b'E' | b'e' | b'P' | b'p' | b'Q' | b'q']) => {
            found.told("% is an edit descriptor for REAL, which is not in the deck language")
        }
        (_, [b'A'..=b'Z' | b'a'..=b'z']) => found.told(EDITS),
        (_, [b')']) => found.told("an edit descriptor or its width is missing before )"),
        _ => found.told("% is not allowed at this place of a format"),
    })
}
