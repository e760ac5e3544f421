// Values and places: how they are written, and with the names that are declared what they mean.

use crate::token::{Shape, Token, amount, closed, find};
use crate::told::{Look, Part, Told};
use crate::words::{KEYWORDS, look_up};
use fj_names::Names;
use fj_statement::Variable;
use fj_value::Kind;

/// The most characters of a name, and the most digits of a number.
const MAX_WORD: usize = 63;

const MAX_DIGITS: usize = 19;

/// The largest INTEGER(8) and INTEGER(4).
const MAX_INTEGER: u64 = 9_223_372_036_854_775_807;

const MAX_SHORT: u64 = 2_147_483_647;

/// The largest subscript and number of elements.
const MAX_ELEMENTS: u64 = 1_000_000;

const NO_EXPRESSION: &str =
    "% makes an expression, but only single values are allowed: a literal, a variable or an element";

const NOT_REAL: &str =
    "REAL numbers are not in the deck language: INTEGER, LOGICAL and CHARACTER are";

/// What a value is, as far as it is known.
#[derive(Clone, Copy)]
pub struct Seen {
    /// Of a place it is known only with the names.
    pub kind: Option<Kind>,
    /// A whole array.
    pub whole: bool,
    pub literal: bool,
}

/// Whether a word is a name.
pub fn name<'a>(word: &Token<'a>) -> Look<'a> {
    if !word.is_word() {
        return Err(word.told("a name is expected here, not %"));
    }
    if look_up(&KEYWORDS, word.text).is_some() {
        return Err(word.told("% is a word of the deck language and cannot be a name"));
    }
    if word.text.len() > MAX_WORD {
        return Err(word.told("a name has at most 63 characters"));
    }
    Ok(())
}

/// The variable of a name.
pub fn variable<'n>(names: &'n Names, name: &[u8]) -> Option<&'n Variable> {
    for variable in names.variables().as_slice() {
        if variable.name.bytes().eq_ignore_ascii_case(name) {
            return Some(variable);
        }
    }
    None
}

/// A literal alone, or a mark that is no value.
fn literal<'a>(named: bool, token: &Token<'a>) -> Result<Seen, Told<'a>> {
    let kind = match token.shape {
        Shape::Truth => Kind::Logical,
        Shape::Literal => Kind::Chars(1),
        Shape::Number => number(named, token)?,
        Shape::Word | Shape::Endless | Shape::Mark => return Err(strange(token)),
    };
    Ok(Seen {
        kind: Some(kind),
        whole: false,
        literal: true,
    })
}

/// The kind of an integer literal.
fn number<'a>(named: bool, token: &Token<'a>) -> Result<Kind, Told<'a>> {
    let (minus, digits) = match token.text {
        [b'-', digits @ ..] => (true, digits),
        [b'+', digits @ ..] => (false, digits),
        digits => (false, digits),
    };
    if digits.len() > MAX_DIGITS {
        return Err(token.told("% is too long: an integer literal has at most 19 digits"));
    }
    let more = if minus { 1 } else { 0 };
    let amount = amount(digits);
    if named && amount > MAX_INTEGER.saturating_add(more) {
        return Err(token.told(
            "% does not fit into INTEGER(8): -9223372036854775808 to 9223372036854775807",
        ));
    }
    if amount > MAX_SHORT.saturating_add(more) {
        return Ok(Kind::Int8);
    }
    Ok(Kind::Int4)
}

/// What is told of a token that begins no value.
fn strange<'a>(token: &Token<'a>) -> Told<'a> {
    match token.text {
        b"(" => token.told(NO_EXPRESSION),
        b"+" | b"-" => token.told("the sign % must be directly before the digits"),
        b"*" => token.told("* is not a value: it is a unit or a format only"),
        b"[" => token.told("arrays are not written as lists: set each element by itself"),
        b")" => token.told("a value is missing before )"),
        b"=" => token.told("a value is missing before ="),
        b"," => token.told("a value is missing before ,"),
        b"_" | b"$" | b"%" => token.told("a name begins with a letter"),
        [b'.', _, ..] => token.told("% is not in the deck language: only .TRUE. and .FALSE. are"),
        [b' '..=b'~'] => token.told(
            "no value begins with %: a value is a literal, a variable or an element",
        ),
        _ => token.told("this byte is allowed only in character literals and comments"),
    }
}

/// What is told of a token behind a value.
fn behind<'a>(first: &Token<'a>, second: &Token<'a>) -> Told<'a> {
    let counts = first.shape == Shape::Number;
    match (second.shape, second.text) {
        (Shape::Mark, b".") if counts => first.told(NOT_REAL),
        (Shape::Word, [b'E' | b'e' | b'D' | b'd', ..]) if counts => first.told(NOT_REAL),
        (Shape::Mark, b"_") if counts => second.told("literals are written without a kind"),
        (Shape::Mark, b"%") => second.told("derived types are not in the deck language"),
        (Shape::Mark, b"=") => second.told("an assignment has only one ="),
        (Shape::Literal, _) if first.is_word() => { first.told("% may not come before a literal") }
        (Shape::Mark, [b' '..=b'~', ..]) => second.told(NO_EXPRESSION),
        (Shape::Number, [b'+', ..]) => second.told(NO_EXPRESSION).with(Part::Text("+")),
        (Shape::Number, [b'-', ..]) => second.told(NO_EXPRESSION).with(Part::Text("-")),
        (Shape::Mark, _) => strange(second),
        _ => second.told("a comma or the end of the statement is expected here, not %"),
    }
}

/// A value: `near` is the token before it.
pub fn operand<'a>(
    names: Option<&Names>,
    near: &Token<'a>,
    part: &[Token<'a>],
) -> Result<Seen, Told<'a>> {
    match part {
        [] => Err(near.told("a value is missing after %")),
        [first, ..] if first.is_word() => place(names, near, part),
        [first] => literal(names.is_some(), first),
        [first, second, ..] => {
            if first.shape != Shape::Mark {
                return Err(behind(first, second));
            }
            Err(opened(first, second, part))
        }
    }
}

/// What is told of a value that begins with a mark.
fn opened<'a>(first: &Token<'a>, second: &Token<'a>, part: &[Token<'a>]) -> Told<'a> {
    if first.is(".") && second.shape == Shape::Number {
        return first.told(NOT_REAL);
    }
    if first.is("(") && find(part, "=").is_some() {
        return first.told(
            "implied DO is not in the deck language: name the elements, or the whole array",
        );
    }
    if (first.is("+") || first.is("-")) && second.shape != Shape::Number {
        return first.told(NO_EXPRESSION);
    }
    strange(first)
}

/// A place: a name, and a subscript in parentheses or none.
pub fn place<'a>(
    names: Option<&Names>,
    near: &Token<'a>,
    part: &[Token<'a>],
) -> Result<Seen, Told<'a>> {
    let [word, rest @ ..] = part else {
        return Err(near.told("a name is missing after %"));
    };
    name(word)?;
    let subscript = match rest {
        [] => None,
        [mark, inside @ ..] if mark.is("(") => Some(subscript(word, mark, inside)?),
        [second, ..] => return Err(behind(word, second)),
    };
    match names {
        None => Ok(Seen {
            kind: None,
            whole: false,
            literal: false,
        }),
        Some(names) => known(names, word, subscript),
    }
}

/// The number in the parentheses behind a name.
pub fn subscript<'a>(
    word: &Token<'a>,
    mark: &Token<'a>,
    inside: &[Token<'a>],
) -> Result<u64, Told<'a>> {
    let Some((inside, rest)) = closed(inside) else {
        return Err(mark.told("this ( is never closed"));
    };
    if let Some(comma) = find(inside, ",") {
        return Err(comma.told("arrays have one dimension: one number in the parentheses"));
    }
    if let Some(colon) = find(inside, ":") {
        return Err(colon.told("substrings and sections of arrays are not in the deck language"));
    }
    let number = match inside {
        [number] => number.amount(),
        _ => None,
    };
    let Some(number) = number else {
        return Err(mark.told(
            "the parentheses after a name hold one number, not a variable or an expression",
        ));
    };
    if number < 1 || number > MAX_ELEMENTS {
        return Err(mark.told("the number in the parentheses after a name is from 1 to 1,000,000"));
    }
    if let [second, ..] = rest {
        return Err(behind(word, second));
    }
    Ok(number)
}

/// What a place means.
fn known<'a>(names: &Names, word: &Token<'a>, subscript: Option<u64>) -> Result<Seen, Told<'a>> {
    let Some(variable) = variable(names, word.text) else {
        return Err(word.told("% is not declared as a variable"));
    };
    let count = variable.count;
    match subscript {
        Some(_) if count == 0 => Err(word.told("% is not an array, so it has no elements")),
        Some(number) if number > u64::from(count) => {
            let told = word.told("% has only the elements 1 to %");
            Err(told.and(Part::Number(count)))
        }
        _ => Ok(Seen {
            kind: Some(variable.kind),
            whole: count != 0 && subscript.is_none(),
            literal: false,
        }),
    }
}

/// A value or place that is one, and no whole array.
pub fn single<'a>(seen: Seen, token: &Token<'a>) -> Result<Option<Kind>, Told<'a>> {
    if seen.whole {
        return Err(
            token
                .told("% is an array, but one element is needed here, as in %(1)")
                .and(Part::Word(token.text)),
        );
    }
    Ok(seen.kind)
}
