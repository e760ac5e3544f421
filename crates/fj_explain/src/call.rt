// The arguments of the input/output statements.

use crate::rules::{Given, rules};
use crate::specifiers::{Class, SPECIFIERS, Statement, Value};
use crate::token::{Shape, Token, amount, closed, cut, last};
use crate::told::{Look, Part, Told};
use crate::value::{Seen, name, operand, place, single};
use crate::words::look_up;
use fj_modes::is_file_name;
use fj_names::Names;
use fj_value::Kind;

/// The largest unit, and the largest record length.
const MOST: u64 = 2_147_483_647;

/// Specifiers of Fortran that no statement here has.
static FOREIGN: [(&str, &str); 11] = [
    ("ERR", "IOSTAT= gets the condition"),
    ("END", "IOSTAT= gets -1 at the end of a file"),
    ("EOR", "IOSTAT= gets -2 at the end of a record"),
    ("IOMSG", "IOSTAT= gets the condition"),
    ("ENCODING", "characters are bytes"),
    ("ROUND", "there is no REAL"),
    ("DIRECT", "ACCESS= and FORM= answer instead"),
    ("SEQUENTIAL", "ACCESS= and FORM= answer instead"),
    ("STREAM", "ACCESS= and FORM= answer instead"),
    ("FORMATTED", "ACCESS= and FORM= answer instead"),
    ("UNFORMATTED", "ACCESS= and FORM= answer instead"),
];

/// The statement whose arguments are looked at.
#[derive(Clone, Copy)]
pub struct Call<'b, 'a> {
    pub names: Option<&'b Names>,
    pub statement: Statement,
    pub word: Token<'a>,
}

impl<'b, 'a> Call<'b, 'a> {
    /// READ or WRITE.
    fn transfers(&self) -> bool {
        matches!(self.statement, Statement::Read | Statement::Write)
    }
}

/// A statement behind its word.
pub fn look_at<'a>(call: Call<'_, 'a>, tokens: &[Token<'a>]) -> Look<'a> {
    let [mark, inside @ ..] = tokens else {
        return Err(
            call.word
                .told("% needs its arguments in parentheses, the unit first"),
        );
    };
    if !mark.is("(") {
        return unopened(call, mark, tokens);
    }
    let Some((inside, behind)) = closed(inside) else {
        return Err(mark.told("this ( is never closed"));
    };
    arguments(call, mark, inside)?;
    items(call, behind)?;
    rules(call, inside, behind)
}

/// A motion with its unit alone, or what is told of a statement with no parenthesis.
fn unopened<'a>(call: Call<'_, 'a>, mark: &Token<'a>, tokens: &[Token<'a>]) -> Look<'a> {
    match (call.statement, mark.text) {
        (_, b"=") => Err(
            call.word
                .told("% is a word of the deck language and cannot be a name"),
        ),
        (Statement::Read, b"*") => Err(mark.told(
            "decks read only from files: write READ(unit, format) items",
        )),
        (Statement::Motion, _) if mark.is_word() || mark.shape == Shape::Number => {
            bare_unit(call, mark, tokens)
        }
        _ => {
            let told = mark.told("% needs its arguments in parentheses, the unit first");
            Err(told.with(Part::Word(call.word.text)))
        }
    }
}

/// The unit of a motion by itself.
fn bare_unit<'a>(call: Call<'_, 'a>, first: &Token<'a>, tokens: &[Token<'a>]) -> Look<'a> {
    let (part, behind) = cut(tokens);
    let more = match (part, behind) {
        (_, Some(_)) => Some(last(tokens, part, *first)),
        ([_, second, ..], None) if !second.is("(") => Some(*second),
        _ => None,
    };
    match more {
        Some(token) => Err(token.told(
            "nothing may follow a bare unit: put all arguments in parentheses",
        )),
        None => unit(call, &call.word, part),
    }
}

fn unit_told<'a>(call: Call<'_, 'a>, token: &Token<'a>) -> Told<'a> {
    if call.transfers() {
        return token.told(
            "a unit is a number from 0 to 2,147,483,647, an integer variable or element, or a character variable, element or array",
        );
    }
    token.told("a unit is a number from 0 to 2,147,483,647, or an integer variable or element")
}

/// The arguments between commas.
fn arguments<'a>(call: Call<'_, 'a>, mark: &Token<'a>, inside: &[Token<'a>]) -> Look<'a> {
    let mut rest = Some(inside);
    let mut bare = Some("UNIT");
    let mut near = *mark;
    for _ in 0..=inside.len() {
        let Some(left) = rest else {
            break;
        };
        let (part, more) = cut(left);
        bare = argument(call, &near, inside, part, bare)?;
        near = last(left, part, near);
        rest = more;
    }
    subject(call, mark, inside)
}

/// One argument, where a bare one is for this specifier; answers the same for the next.
fn argument<'a>(
    call: Call<'_, 'a>,
    mark: &Token<'a>,
    inside: &[Token<'a>],
    part: &[Token<'a>],
    bare: Option<&'static str>,
) -> Result<Option<&'static str>, Told<'a>> {
    match part {
        [] => Err(mark.told("an argument is missing after %")),
        [key, equals, value @ ..] if key.is_word() && equals.is("=") => {
            once(inside, key)?;
            given(call, specifier(call, key)?, key, equals, value)?;
            Ok(None)
        }
        [first, ..] => {
            let Some(key) = bare else {
                return Err(unnamed(call, first));
            };
            let value = if key == "UNIT" {
                Value::Unit
            } else {
                Value::Format
            };
            given(call, value, first, mark, part)?;
            match call.statement {
                Statement::Read | Statement::Write if key == "UNIT" => Ok(Some("FMT")),
                _ => Ok(None),
            }
        }
    }
}

/// What is told of an argument that stands for no specifier.
fn unnamed<'a>(call: Call<'_, 'a>, first: &Token<'a>) -> Told<'a> {
    if call.transfers() && (first.shape == Shape::Literal || first.is("*")) {
        return first.told(
            "write FMT=%: it may be left out only directly after a unit without UNIT=",
        );
    }
    first.told("% has no specifier: only the unit and the format may come without one")
}

/// What a specifier of the statement is given.
fn specifier<'a>(call: Call<'_, 'a>, key: &Token<'a>) -> Result<Value, Told<'a>> {
    for row in SPECIFIERS {
        if key.is(row.0) && row.1.contains(&call.statement) {
            return Ok(row.2);
        }
    }
    match look_up(&FOREIGN, key.text) {
        Some(text) => Err(
            key.told("%= is not in the deck language: %")
                .and(Part::Text(text)),
        ),
        None => Err(
            key.told("%= is not allowed here; these are:%")
                .and(Part::Specifiers(call.statement)),
        ),
    }
}

/// Whether a specifier stands for the first time.
fn once<'a>(inside: &[Token<'a>], key: &Token<'a>) -> Look<'a> {
    let given = Given::of(inside);
    let twice = given.token(key.text).is_some_and(|first| first.at < key.at);
    if twice
        || (key.is("UNIT") && given.bare.is_some())
        || (key.is("FMT") && given.bare_format.is_some())
    {
        return Err(key.told("%= is given twice"));
    }
    Ok(())
}

/// What is given for a specifier.
fn given<'a>(
    call: Call<'_, 'a>,
    value: Value,
    key: &Token<'a>,
    near: &Token<'a>,
    part: &[Token<'a>],
) -> Look<'a> {
    let [first, rest @ ..] = part else {
        return Err(near.told("a value is missing after %"));
    };
    match value {
        Value::Integer => integer(call, near, part),
        Value::Place(class) => {
            let seen = place(call.names, near, part)?;
            class_fits(class, single(seen, first)?, first)
        }
        Value::Group => group(first, rest),
        Value::Unit => unit(call, near, part),
        Value::Format => format(first, rest),
        Value::Length => length(key, first, rest),
        Value::File => file(first, rest),
        Value::Words(words) => word(words, key, first, rest),
    }
}

/// An integer literal or place.
fn integer<'a>(call: Call<'_, 'a>, near: &Token<'a>, part: &[Token<'a>]) -> Look<'a> {
    let seen = operand(call.names, near, part)?;
    let Some(first) = part.first() else {
        return Ok(());
    };
    let kind = single(seen, first)?;
    class_fits(Class::Numbers, kind, first)
}

/// Whether a kind, where it is known, is of a class.
fn class_fits<'a>(class: Class, kind: Option<Kind>, token: &Token<'a>) -> Look<'a> {
    let wanted = match (class, kind) {
        (_, None)
        | (Class::Numbers, Some(Kind::Int4 | Kind::Int8))
        | (Class::Truths, Some(Kind::Logical))
        | (Class::Characters, Some(Kind::Chars(_))) => return Ok(()),
        (Class::Numbers, Some(_)) => "INTEGER",
        (Class::Truths, Some(_)) => "LOGICAL",
        (Class::Characters, Some(_)) => "CHARACTER",
    };
    let Some(kind) = kind else {
        return Ok(());
    };
    let told = token.told("this is %, but % is needed here");
    Err(told.with(Part::Kind(kind)).and(Part::Text(wanted)))
}

fn group<'a>(first: &Token<'a>, rest: &[Token<'a>]) -> Look<'a> {
    name(first)?;
    match rest {
        [] => Ok(()),
        [second, ..] => Err(second.told("NML= takes the name of a group, and nothing else")),
    }
}

fn unit<'a>(call: Call<'_, 'a>, near: &Token<'a>, part: &[Token<'a>]) -> Look<'a> {
    let [first, rest @ ..] = part else {
        return Err(near.told("a unit is missing after %"));
    };
    if first.is_word() {
        let seen = place(call.names, near, part)?;
        return named_unit(call, seen, first);
    }
    if let [second, ..] = rest {
        return Err(second.told("a unit is a single value: % may not follow it"));
    }
    match (first.amount(), call.statement) {
        (Some(amount), _) if amount <= MOST => Ok(()),
        (None, Statement::Write) if first.is("*") => Ok(()),
        (None, Statement::Read) if first.is("*") => {
            Err(first.told(
                "READ has no unit *: decks read only files that they opened, and internal files",
            ))
        }
        (None, _) if first.is("*") => Err(first.told("* is a unit of WRITE only")),
        _ => Err(unit_told(call, first)),
    }
}

/// A variable or element that is a unit: an integer, or characters of READ and WRITE.
fn named_unit<'a>(call: Call<'_, 'a>, seen: Seen, token: &Token<'a>) -> Look<'a> {
    match seen.kind {
        Some(Kind::Chars(_)) if call.transfers() => Ok(()),
        Some(Kind::Chars(_)) => Err(token.told(
            "this is CHARACTER, but INTEGER is needed here: internal files are units of READ and WRITE only",
        )),
        Some(Kind::Logical) if call.transfers() => {
            Err(token.told("this is LOGICAL, but INTEGER or CHARACTER is needed here"))
        }
        _ => class_fits(Class::Numbers, single(seen, token)?, token),
    }
}

fn format<'a>(first: &Token<'a>, rest: &[Token<'a>]) -> Look<'a> {
    if let [second, ..] = rest {
        return Err(second.told("a format is a single literal or *: % may not follow it"));
    }
    match first.shape {
        Shape::Literal => Ok(()),
        Shape::Mark if first.is("*") => Ok(()),
        Shape::Number => Err(first.told(
            "labels and FORMAT are not in the deck language: write the format as a literal",
        )),
        Shape::Word => Err(
            first
                .told("% is not a format: write a literal or *, or NML=% for a group")
                .and(Part::Word(first.text)),
        ),
        _ => Err(first.told("% is not a format: write a literal, or * for list-directed")),
    }
}

fn length<'a>(key: &Token<'a>, first: &Token<'a>, rest: &[Token<'a>]) -> Look<'a> {
    let amount = match first.text {
        [b'+', digits @ ..] if first.shape == Shape::Number => Some(amount(digits)),
        [b'-', b'0'] => Some(0),
        _ => first.amount(),
    };
    match (amount, rest) {
        (Some(amount), []) if amount <= MOST => Ok(()),
        _ => Err(
            first
                .told("%= needs a literal from 0 to 2,147,483,647")
                .with(Part::Word(key.text)),
        ),
    }
}

/// A text without the blanks at its end.
fn trimmed(text: &[u8]) -> &[u8] {
    let blanks = text.iter().rev().take_while(|byte| **byte == b' ').count();
    text.split_at(text.len().saturating_sub(blanks)).0
}

fn file<'a>(first: &Token<'a>, rest: &[Token<'a>]) -> Look<'a> {
    let (Some(inside), []) = (first.inside(), rest) else {
        return Err(first.told("FILE= needs a literal, as in FILE='data', not a variable"));
    };
    let name = trimmed(inside);
    if is_file_name(name) {
        return Ok(());
    }
    if name.contains(&b'/') {
        return Err(first.told(
            "% is a path, but a file is only a name, in the folder where the deck runs",
        ));
    }
    if name.starts_with(b"SCRATCH.") {
        return Err(first.told(
            "file names that begin with SCRATCH. are reserved for scratch files",
        ));
    }
    Err(first.told(
        "a file name has 1 to 64 letters, digits, dots, _ and -, and does not begin with a dot",
    ))
}

fn word<'a>(
    words: &'static [&'static str],
    key: &Token<'a>,
    first: &Token<'a>,
    rest: &[Token<'a>],
) -> Look<'a> {
    let (Some(inside), []) = (first.inside(), rest) else {
        let told = key.told("%= must be one of these in quotes:%");
        return Err(Told {
            at: first.at,
            ..told
        }
        .and(Part::List(words)));
    };
    let given = trimmed(inside);
    for word in words {
        if given.eq_ignore_ascii_case(word.as_bytes()) {
            return Ok(());
        }
    }
    let told = key.told("%= must be one of these:%");
    Err(Told {
        at: first.at,
        ..told
    }
    .and(Part::List(words)))
}

/// Whether there is a unit; of INQUIRE, a unit or a file.
fn subject<'a>(call: Call<'_, 'a>, mark: &Token<'a>, inside: &[Token<'a>]) -> Look<'a> {
    let given = Given::of(inside);
    let file = given.token(b"FILE");
    let unit = given.unit();
    let new = given.token(b"NEWUNIT");
    match (call.statement, unit, file) {
        (Statement::Open, Some(_), _) => match new {
            Some(new) => Err(new.told("OPEN takes a unit or NEWUNIT=, not both")),
            None => Ok(()),
        },
        (Statement::Open, None, _) => match new {
            Some(_) => Ok(()),
            None => Err(mark.told("the unit is missing: it comes first, or as UNIT= or NEWUNIT=")),
        },
        (Statement::Inquire, Some(_), Some(file)) => {
            Err(file.told("INQUIRE takes a unit or FILE=, not both"))
        }
        (Statement::Inquire, None, None) => Err(mark.told("INQUIRE needs a unit or FILE=")),
        (Statement::Inquire, _, _) => Ok(()),
        (_, None, _) => Err(mark.told("the unit is missing: it comes first, or as UNIT=")),
        (_, Some(_), _) => Ok(()),
    }
}

/// The items of READ and WRITE; behind other statements stands nothing.
fn items<'a>(call: Call<'_, 'a>, behind: &[Token<'a>]) -> Look<'a> {
    let [first, ..] = behind else {
        return Ok(());
    };
    if !call.transfers() {
        return Err(first.told("the statement ends before %"));
    }
    if first.is(",") {
        return Err(first.told("no comma comes before the first item"));
    }
    let mut near = *first;
    let mut rest = Some(behind);
    for _ in 0..=behind.len() {
        let Some(left) = rest else {
            return Ok(());
        };
        let (part, more) = cut(left);
        let seen = operand(call.names, &near, part)?;
        if let (Some(_), Statement::Read, [item, ..]) = (call.names, call.statement, part)
            && seen.literal
        {
            return Err(item.told("% is a literal, but READ needs variables or elements"));
        }
        near = last(left, part, near);
        rest = more;
    }
    Ok(())
}
