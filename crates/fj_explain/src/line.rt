// What is wrong with a line.

use crate::call::{Call, look_at};
use crate::declaration::{declaration, group};
use crate::specifiers::Statement;
use crate::token::{Shape, Token, closed, last, parted};
use crate::told::{Look, Part, Told};
use crate::value::{operand, place};
use crate::words::{FOREIGN, KEYWORDS, Keyword, look_up};
use fj_names::Names;
use fj_value::Kind;

const NO_STATEMENT: &str =
    "no statement begins with %: there are assignments, OPEN, CLOSE, READ, WRITE, WAIT, INQUIRE, BACKSPACE, REWIND, ENDFILE, FLUSH and END";

/// What is wrong with the tokens of a line: without names, why they are no statement, and with them why it means nothing.
pub fn line<'a>(names: Option<&Names>, tokens: &[Token<'a>]) -> Look<'a> {
    let [first, behind @ ..] = tokens else {
        return Ok(());
    };
    foreign(first, behind)?;
    whole(tokens)?;
    if !first.is_word() {
        return Err(unnamed(first, behind));
    }
    match look_up(&KEYWORDS, first.text) {
        Some(keyword) => begun(names, keyword, first, behind),
        None => assignment(names, first, tokens),
    }
}

/// Whether the first word is assigned to.
fn is_assigned(behind: &[Token<'_>]) -> bool {
    match behind {
        [mark, ..] if mark.is("=") => true,
        [mark, inside @ ..] if mark.is("(") => match closed(inside) {
            Some((_, [mark, ..])) => mark.is("="),
            _ => false,
        },
        _ => false,
    }
}

/// A first word of Fortran that decks don't have.
fn foreign<'a>(first: &Token<'a>, behind: &[Token<'a>]) -> Look<'a> {
    if is_assigned(behind) || !first.is_word() {
        return Ok(());
    }
    match look_up(&FOREIGN, first.text) {
        Some(text) => Err(
            first
                .told("% is not in the deck language: %")
                .and(Part::Text(text)),
        ),
        None if first.at == 1 && first.is("C") && !behind.is_empty() => {
            Err(first.told("a comment begins with !, not with %"))
        }
        None => Ok(()),
    }
}

/// What may be wrong anywhere in a line.
fn whole<'a>(tokens: &[Token<'a>]) -> Look<'a> {
    for token in tokens {
        if token.shape == Shape::Endless {
            let told = Told::new(token.at, "this character literal has no closing %");
            return Err(told.with(Part::Written(token.text.get(..1).unwrap_or(b""))));
        }
        if token.is(";") {
            return Err(token.told("a line holds one statement: % does not separate statements"));
        }
        if token.is("&") {
            return Err(token.told("a statement is one line: & does not continue it"));
        }
        if token.shape == Shape::Literal
            && token.text.iter().any(|byte| *byte < b' ' && *byte != b'\t')
        {
            return Err(Told::new(token.at, "this character literal contains a control byte"));
        }
    }
    Ok(())
}

/// What is told of a line that begins with no word.
fn unnamed<'a>(first: &Token<'a>, behind: &[Token<'a>]) -> Told<'a> {
    if is_assigned(behind) {
        return first.told("only a variable or an element can be set, not %");
    }
    match (first.shape, first.text) {
        (Shape::Number, _) => first.told("labels are not in the deck language: leave % out"),
        (_, b"*" | b"#") => first.told("a comment begins with !, not with %"),
        (_, [b' '..=b'~', ..]) => first.told("a statement begins with a word, not with %"),
        _ => first.told("this byte is allowed only in character literals and comments"),
    }
}

/// What is wrong behind a word that begins a statement or declaration.
fn begun<'a>(
    names: Option<&Names>,
    keyword: Keyword,
    word: &Token<'a>,
    behind: &[Token<'a>],
) -> Look<'a> {
    match keyword {
        Keyword::Type(kind) => declaration(names, word, kind, behind),
        Keyword::Namelist => group(names, word, behind),
        Keyword::Call(statement) => called(names, statement, word, behind),
        Keyword::End => match behind {
            [] => Ok(()),
            [file, behind @ ..] if file.is("FILE") => called(
                names,
                Statement::Motion,
                file,
                behind,
            ),
            [other, ..] => Err(other.told("write END alone, without %")),
        },
    }
}

fn called<'a>(
    names: Option<&Names>,
    statement: Statement,
    word: &Token<'a>,
    behind: &[Token<'a>],
) -> Look<'a> {
    look_at(
        Call {
            names,
            statement,
            word: *word,
        },
        behind,
    )
}

/// Whether a line that begins with a name looks like no assignment.
fn unassigned<'a>(tokens: &[Token<'a>]) -> Look<'a> {
    match tokens {
        [first, mark, inside @ ..] if mark.is("(") => match closed(inside) {
            None => Err(mark.told("this ( is never closed")),
            Some((_, [])) => Err(first.told(NO_STATEMENT)),
            Some((_, [next, ..])) if next.shape != Shape::Mark => Err(first.told(NO_STATEMENT)),
            Some(_) => Ok(()),
        },
        [_, mark, ..] if mark.shape == Shape::Mark && !mark.is("=") && !mark.is("%") => {
            Err(mark.told("= is expected here, not %"))
        }
        _ => Ok(()),
    }
}

fn assignment<'a>(names: Option<&Names>, first: &Token<'a>, tokens: &[Token<'a>]) -> Look<'a> {
    unassigned(tokens)?;
    let Some((left, right)) = parted(tokens, "=") else {
        return Err(first.told(NO_STATEMENT));
    };
    let to = place(names, first, left)?;
    let equals = last(tokens, left, *first);
    let from = operand(names, &equals, right)?;
    let [value, ..] = right else {
        return Ok(());
    };
    let (Some(wanted), Some(given)) = (to.kind, from.kind) else {
        return Ok(());
    };
    if from.whole {
        return Err(value.told(
            "% is a whole array, but an assignment takes one element or literal",
        ));
    }
    if to.whole && !from.literal {
        return Err(value.told("a whole array can be set only to a literal, not to %"));
    }
    match (wanted, given) {
        (Kind::Int4, Kind::Int4)
        | (Kind::Int8, Kind::Int8)
        | (Kind::Logical, Kind::Logical)
        | (Kind::Chars(_), Kind::Chars(_)) => Ok(()),
        (Kind::Int4, Kind::Int8) if from.literal => {
            Err(value.told("% does not fit into INTEGER(4): -2147483648 to 2147483647"))
        }
        (Kind::Int8, Kind::Int4) if from.literal => Ok(()),
        _ => {
            let told = value.told("this is %, but % is needed here: kinds are not converted");
            Err(told.with(Part::Kind(given)).and(Part::Kind(wanted)))
        }
    }
}
