// Which specifiers of OPEN, and which specifiers and items of READ and WRITE, go together (ISO/IEC 1539-1:2004, 9.4.5 and 9.5.1).

use crate::call::Call;
use crate::specifiers::Statement;
use crate::token::{Shape, Token, cut};
use crate::told::{Look, Part};
use crate::value::variable;
use fj_names::Names;
use fj_value::Kind;

/// The arguments of a statement by their specifiers.
#[derive(Clone, Copy)]
pub struct Given<'b, 'a> {
    inside: &'b [Token<'a>],
    /// The unit that stands first by itself.
    pub bare: Option<Token<'a>>,
    /// The format that stands behind such a unit by itself.
    pub bare_format: Option<Token<'a>>,
}

/// The first token of an argument without a specifier.
fn bare<'a>(part: &[Token<'a>]) -> Option<Token<'a>> {
    match part {
        [first, second, ..] if first.is_word() && second.is("=") => None,
        [first, ..] => Some(*first),
        [] => None,
    }
}

impl<'b, 'a> Given<'b, 'a> {
    pub fn of(inside: &'b [Token<'a>]) -> Given<'b, 'a> {
        let (first, behind) = cut(inside);
        let format = match (bare(first), behind) {
            (Some(_), Some(behind)) => bare(cut(behind).0),
            _ => None,
        };
        Given {
            inside,
            bare: bare(first),
            bare_format: format,
        }
    }

    /// The first token that is this specifier.
    pub fn token(&self, key: &[u8]) -> Option<Token<'a>> {
        let mut last: Option<Token<'a>> = None;
        for token in self.inside {
            if let Some(found) = last
                && token.is("=")
                && found.text.eq_ignore_ascii_case(key)
            {
                return Some(found);
            }
            last = Some(*token);
        }
        None
    }

    /// What stands behind a specifier.
    fn value(&self, key: &[u8]) -> Option<Token<'a>> {
        let key = self.token(key)?;
        let at = self.inside.iter().position(|token| token.at == key.at)?;
        self.inside.get(at.saturating_add(2)).copied()
    }

    pub fn unit(&self) -> Option<Token<'a>> {
        match self.bare {
            Some(unit) => Some(unit),
            None => self.value(b"UNIT"),
        }
    }

    pub fn format(&self) -> Option<Token<'a>> {
        match self.bare_format {
            Some(format) => Some(format),
            None => self.value(b"FMT"),
        }
    }

    fn is(&self, key: &[u8], value: &[u8]) -> bool {
        match self.value(key) {
            Some(token) => match token.inside() {
                Some(inside) => inside
                    .get(..value.len())
                    .is_some_and(|front| front.eq_ignore_ascii_case(value)),
                None => false,
            },
            None => false,
        }
    }
}

/// Modes that a transfer changes.
static MODES: [&str; 5] = ["BLANK", "DECIMAL", "DELIM", "PAD", "SIGN"];

/// What goes together, of a line that is refused for its meaning and else right.
pub fn rules<'a>(call: Call<'_, 'a>, inside: &[Token<'a>], items: &[Token<'a>]) -> Look<'a> {
    let Some(names) = call.names else {
        return Ok(());
    };
    let given = Given::of(inside);
    match call.statement {
        Statement::Open => has_file(given),
        Statement::Read | Statement::Write => {
            internal(names, given)?;
            needs(given)?;
            excludes(given, items)?;
            last(call, given)
        }
        _ => Ok(()),
    }
}

/// NEWUNIT= has a file.
fn has_file<'a>(given: Given<'_, 'a>) -> Look<'a> {
    match (given.token(b"NEWUNIT"), given.token(b"FILE")) {
        (Some(new), None) if !given.is(b"STATUS", b"SCRATCH") => {
            Err(new.told("%= needs FILE= or STATUS='SCRATCH'"))
        }
        _ => Ok(()),
    }
}

/// Specifiers that a transfer on an internal file has not.
static OUTSIDE: [&str; 7] = ["NML", "ADVANCE", "SIZE", "REC", "POS", "ASYNCHRONOUS", "ID"];

/// An internal file has a format, and neither a position nor a record that stays open nor a transfer that is pending.
fn internal<'a>(names: &Names, given: Given<'_, 'a>) -> Look<'a> {
    let Some(unit) = given.unit() else {
        return Ok(());
    };
    if !is_characters(names, &unit) {
        return Ok(());
    }
    for key in OUTSIDE {
        if let Some(key) = given.token(key.as_bytes()) {
            let told = key.told("% is CHARACTER, so the unit is an internal file, which has no %=");
            return Err(told.with(Part::Word(unit.text)).and(Part::Word(key.text)));
        }
    }
    match given.format() {
        Some(_) => Ok(()),
        None => Err(unit.told(
            "% is CHARACTER, so the unit is an internal file, which needs a format: a literal or *",
        )),
    }
}

/// Whether a word is the name of characters.
fn is_characters(names: &Names, word: &Token<'_>) -> bool {
    variable(names, word.text).is_some_and(|variable| matches!(variable.kind, Kind::Chars(_)))
}

/// What is left where nothing else is wrong: a group that is none, or a width of 0 in the format of READ.
fn last<'a>(call: Call<'_, 'a>, given: Given<'_, 'a>) -> Look<'a> {
    match (given.value(b"NML"), given.format()) {
        (Some(group), _) => Err(group.told("% is not declared as a namelist group")),
        (None, Some(format)) if call.statement == Statement::Read => {
            Err(format.told("the format of READ has a width of 0, which is for WRITE only"))
        }
        _ => Ok(()),
    }
}

/// Specifiers that need others.
fn needs<'a>(given: Given<'_, 'a>) -> Look<'a> {
    let format = given.format();
    if let Some(id) = given.token(b"ID")
        && !given.is(b"ASYNCHRONOUS", b"YES")
    {
        return Err(id.told("%= of READ and WRITE needs ASYNCHRONOUS='YES'"));
    }
    if let (Some(size), None) = (given.token(b"SIZE"), given.token(b"ADVANCE")) {
        return Err(size.told("%= needs ADVANCE="));
    }
    if let Some(advance) = given.token(b"ADVANCE")
        && !format.is_some_and(|format| format.shape == Shape::Literal)
    {
        return Err(advance.told("%= needs a format that is a literal"));
    }
    for mode in MODES {
        if let (Some(key), None, None) = (
            given.token(mode.as_bytes()),
            format,
            given.token(b"NML"),
        ) {
            return Err(key.told("%= needs a format or NML="));
        }
    }
    Ok(())
}

/// Specifiers and items that exclude others.
fn excludes<'a>(given: Given<'_, 'a>, items: &[Token<'a>]) -> Look<'a> {
    let format = given.format();
    let star = given.unit().is_some_and(|unit| unit.is("*"));
    if let Some(group) = given.token(b"NML") {
        if let Some(format) = format {
            return Err(format.told("a statement has a format or NML=, not both"));
        }
        if let [item, ..] = items {
            return Err(item.told("no items may follow with NML="));
        }
        if given.token(b"REC").is_some() {
            return Err(group.told("NML= and REC= exclude each other"));
        }
    }
    if let Some(rec) = given.token(b"REC") {
        if given.token(b"POS").is_some() {
            return Err(rec.told("%= and POS= exclude each other"));
        }
        if format.is_some_and(|format| format.is("*")) {
            return Err(rec.told("%= and the format * exclude each other"));
        }
    }
    for key in ["REC", "POS"] {
        if let (Some(key), true) = (given.token(key.as_bytes()), star) {
            return Err(key.told("%= is not for unit *"));
        }
    }
    Ok(())
}
