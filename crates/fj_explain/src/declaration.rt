// Declarations: types with their names, and NAMELIST.

use crate::token::{Token, closed, cut, last};
use crate::told::{Look, Part};
use crate::value::{name, subscript, variable};
use crate::words::look_up;
use fj_names::Names;

const UNSET: &str = "a declaration sets no value: write an assignment after the declarations";

const SIZED: &str = "the number of elements follows the name, as in INTEGER A(3)";

/// Attributes of Fortran that a declaration here has not.
static ATTRIBUTES: [(&str, &str); 12] = [
    ("PARAMETER", "write the value where it is wanted"),
    ("DIMENSION", SIZED),
    ("ALLOCATABLE", SIZED),
    ("POINTER", "the only attribute is ASYNCHRONOUS"),
    ("TARGET", "the only attribute is ASYNCHRONOUS"),
    ("SAVE", "the only attribute is ASYNCHRONOUS"),
    ("VOLATILE", "the only attribute is ASYNCHRONOUS"),
    ("INTENT", "a deck has no procedures"),
    ("OPTIONAL", "a deck has no procedures"),
    ("EXTERNAL", "a deck has no procedures"),
    ("PUBLIC", "a deck has no modules"),
    ("PRIVATE", "a deck has no modules"),
];

/// The names of a type, behind its word.
pub fn declaration<'a>(
    names: Option<&Names>,
    word: &Token<'a>,
    kind: &str,
    tokens: &[Token<'a>],
) -> Look<'a> {
    look(names, word, kind, tokens)?;
    match names {
        Some(_) => Err(word.told("a name of this line is the name of a group already")),
        None => Ok(()),
    }
}

fn look<'a>(names: Option<&Names>, word: &Token<'a>, kind: &str, tokens: &[Token<'a>]) -> Look<'a> {
    match tokens {
        [] => Err(word.told("% needs a name after it")),
        [mark, ..] if mark.is("*") => {
            Err(mark.told(
                "a kind or length is written in parentheses, as in INTEGER(8) and CHARACTER(5)",
            ))
        }
        [mark, inside @ ..] if mark.is("(") => {
            let Some((inside, behind)) = closed(inside) else {
                return Err(mark.told("this ( is never closed"));
            };
            selector(kind, mark, inside)?;
            attributes(names, mark, behind)
        }
        _ => attributes(names, word, tokens),
    }
}

/// What stands in the parentheses behind a type.
fn selector<'a>(kind: &str, mark: &Token<'a>, inside: &[Token<'a>]) -> Look<'a> {
    let (keyword, number) = match inside {
        [number] => (None, number.amount()),
        [keyword, equals, number] if equals.is("=") => (Some(keyword), number.amount()),
        _ => (None, None),
    };
    let named = |word: &str| match keyword {
        Some(keyword) => keyword.is(word),
        None => true,
    };
    match kind {
        "INTEGER" if !(named("KIND") && matches!(number, Some(4 | 8))) => {
            Err(mark.told("INTEGER has the kinds 4 and 8 only"))
        }
        "CHARACTER" if !(named("LEN") && matches!(number, Some(1..=65_536))) => {
            Err(mark.told(
                "the length of CHARACTER is a number from 1 to 65,536, as in CHARACTER(LEN=80)",
            ))
        }
        "LOGICAL" => Err(mark.told("LOGICAL has only one kind: leave the parentheses out")),
        _ => Ok(()),
    }
}

/// What stands between a type and its names.
fn attributes<'a>(names: Option<&Names>, near: &Token<'a>, tokens: &[Token<'a>]) -> Look<'a> {
    match tokens {
        [colons, behind @ ..] if colons.is("::") => entities(names, colons, behind),
        [comma, word, colons, behind @ ..]
            if comma.is(",") && word.is("ASYNCHRONOUS") && colons.is("::") => {
            entities(names, colons, behind)
        }
        [comma, word, ..] if comma.is(",") && word.is("ASYNCHRONOUS") => {
            Err(word.told("% must be followed by ::"))
        }
        [comma, word, ..] if comma.is(",") => match look_up(&ATTRIBUTES, word.text) {
            Some(text) => Err(
                word.told("% is not in the deck language: %")
                    .and(Part::Text(text)),
            ),
            None => Err(word.told(
                "% is not an attribute of the deck language: only ASYNCHRONOUS is",
            )),
        },
        [word, _, ..] if word.is("FUNCTION") => {
            Err(word.told("% is not in the deck language: a deck has no procedures"))
        }
        _ => entities(names, near, tokens),
    }
}

/// The names with the numbers of their elements.
fn entities<'a>(names: Option<&Names>, near: &Token<'a>, tokens: &[Token<'a>]) -> Look<'a> {
    let mut rest = Some(tokens);
    let mut near = *near;
    for _ in 0..=tokens.len() {
        let Some(left) = rest else {
            return Ok(());
        };
        let (part, more) = cut(left);
        entity(&near, part)?;
        if let (Some(names), [word, ..]) = (names, part) {
            new_name(names, tokens, word)?;
        }
        near = last(left, part, near);
        rest = more;
    }
    Ok(())
}

fn entity<'a>(near: &Token<'a>, part: &[Token<'a>]) -> Look<'a> {
    match part {
        [] => Err(near.told("a name is missing after %")),
        [word] => name(word),
        [word, mark, inside @ ..] if mark.is("(") => {
            name(word)?;
            if let Some((_, [equals, ..])) = closed(inside)
                && equals.is("=")
            {
                return Err(equals.told(UNSET));
            }
            subscript(word, mark, inside)?;
            Ok(())
        }
        [_, mark, ..] if mark.is("=") => Err(mark.told(UNSET)),
        [_, mark, ..] if mark.is("*") => {
            Err(mark.told(
                "give the length after CHARACTER, as in CHARACTER(5), for all names of the line",
            ))
        }
        [word, other, ..] => {
            name(word)?;
            Err(other.told("a comma or the end of the line is expected here, not %"))
        }
    }
}

/// Whether a name is not declared yet.
fn new_name<'a>(names: &Names, tokens: &[Token<'a>], word: &Token<'a>) -> Look<'a> {
    if let Some(variable) = variable(names, word.text) {
        let told = word.told("% is declared already, in line %");
        return Err(told.and(Part::Number(variable.line)));
    }
    for token in tokens {
        if token.at < word.at && token.text.eq_ignore_ascii_case(word.text) {
            return Err(word.told("% is declared twice in this line"));
        }
    }
    Ok(())
}

/// NAMELIST, behind the word.
pub fn group<'a>(names: Option<&Names>, word: &Token<'a>, tokens: &[Token<'a>]) -> Look<'a> {
    let [first, title, second, members @ ..] = tokens else {
        let at = tokens.first().unwrap_or(word);
        return Err(at.told("NAMELIST is written NAMELIST /group/ names"));
    };
    if !first.is("/") || !second.is("/") {
        return Err(first.told("NAMELIST is written NAMELIST /group/ names"));
    }
    name(title)?;
    if let Some(names) = names {
        if variable(names, title.text).is_some() {
            return Err(title.told("% is declared already, as a variable"));
        }
    }
    let mut rest = Some(members);
    let mut near = *second;
    for _ in 0..=members.len() {
        let Some(left) = rest else {
            break;
        };
        let (part, more) = cut(left);
        member(names, &near, part)?;
        near = last(left, part, near);
        rest = more;
    }
    match names {
        Some(_) => Err(title.told("% is the name of a group already")),
        None => Ok(()),
    }
}

fn member<'a>(names: Option<&Names>, near: &Token<'a>, part: &[Token<'a>]) -> Look<'a> {
    match part {
        [] => Err(near.told("a name is missing after %")),
        [word] => {
            name(word)?;
            match names {
                Some(names) if variable(names, word.text).is_none() => {
                    Err(word.told(
                        "% is not declared: the members of a group are declared before it",
                    ))
                }
                _ => Ok(()),
            }
        }
        [_, other, ..] => Err(other.told(
            "% is not allowed here: the members of a group are whole variables",
        )),
    }
}
