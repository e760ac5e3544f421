// What is told of a statement that did what a program may not.
ghost use Rattle.std.specs.Prelude.{◌≡◌, position, IfOk, IfSome};
ghost use Rattle.fj_explain.specs.Breaks.{is_on, Breaks, IsEarlier};

use crate::effect::{all_defined, referenced};
use crate::holder::{Holders, MOST_NAMES, find_holders, transfer_of};
use crate::named::earlier;
use crate::phrase::Phrase;
use crate::spot::{Sought, Spot};
use crate::twice::{Meeting, find_meeting};
use crate::undefined::find_undefined;
use fj_deck::{DeckFault, one_answer, parse_deck};
use fj_statement::{Control, Deck, Lined, Operand, Statement, Subject, UnitRef, unit_number};
use fj_value::{Rule, Value};
use std::alloc::{AllocError, Global};

/// A rule in words, where there is no more to say.
pub fn rule_words(rule: Rule) -> &'static str {
    match rule {
        Rule::P1 =>
            "the statement references a variable of a pending input; a WAIT has to stand before it",
        Rule::P2 =>
            "the statement defines a variable of a pending transfer; a WAIT has to stand before it",
        Rule::P3 => "the statement references a variable that is not defined",
        Rule::P4 => "ID= is not the identifier of a transfer that is pending on the unit",
        Rule::P5 =>
            "the statement defines a variable by a specifier, and by another or as an item too, or has an item in its internal file",
    }
}

/// What is told of a statement that broke a rule.
#[derive(Drop)]
pub struct Broken {
    /// The line of the pending transfer that is told, the last one of those that it can be.
    pub transfer: Option<u32>,
    /// One line of printable ASCII text.
    pub what: String,
}

/// The number of the statement on a line, from 0 on.
fn statement_on(statements: &[Lined], line: u32) -> Option<usize>
    ensures { result ≡ position (is_on line) statements.now }
{
    statements.iter().position(|lined| lined.line == line)
}

/// A rule in words with the variables and the pending transfer that it is about, where the statement of a deck on this line broke it. `None`
/// exactly where the text is no deck, or no statement stands on the line.
pub fn explain_rule(
    alloc: Global,
    text: &[u8],
    line: u32,
    rule: Rule,
) -> Result<Option<Broken>, AllocError>
    ensures { Breaks text.now line result }
{
    one_answer();
    let deck = match parse_deck(alloc, text) {
        Ok(deck) => deck,
        Err(DeckFault::Memory(error)) => return Err(error),
        Err(DeckFault::Refused { line: _, reason: _ }) => return Ok(None),
    };
    let statements = deck.statements.as_slice();
    let Some(at) = statement_on(statements, line) else {
        return Ok(None);
    };
    let (transfer, what) = told(alloc, &deck, at, rule)?;
    Ok(Some(Broken { transfer, what }))
}

/// What is told of the statement of this number, from 0 on.
fn told(
    alloc: Global,
    deck: &Deck,
    at: usize,
    rule: Rule,
) -> Result<(Option<u32>, String), AllocError>
    ensures { IfOk result (λ told. IfSome told.0 (IsEarlier deck.now.statements at)) }
{
    let (before, rest) = deck
        .statements
        .as_slice()
        .split_at(at.min(deck.statements.len()));
    let mut phrase = Phrase::new(alloc, deck.variables.as_slice());
    let Some(lined) = rest.first() else {
        phrase.text(rule_words(rule))?;
        return Ok((None, phrase.line()));
    };
    let statement = &lined.what;
    let transfer = match rule {
        Rule::P1 => held(alloc, deck, at, before, statement, true, &mut phrase)?,
        Rule::P2 => held(alloc, deck, at, before, statement, false, &mut phrase)?,
        Rule::P3 => {
            unset(alloc, deck, before, statement, &mut phrase)?;
            None
        }
        Rule::P4 => {
            unknown(statement, &mut phrase)?;
            None
        }
        Rule::P5 => {
            doubled(alloc, statement, &mut phrase)?;
            None
        }
    };
    Ok((transfer, phrase.line()))
}

/// Tells which pending transfer holds what the statement references, or defines.
fn held(
    alloc: Global,
    deck: &Deck,
    at: usize,
    before: &[Lined],
    statement: &Statement,
    references: bool,
    phrase: &mut Phrase<'_>,
) -> Result<Option<u32>, AllocError>
    ensures { IfOk result (λ line. IfSome line (IsEarlier deck.now.statements at)) }
{
    let spots = if references {
        referenced(alloc, statement)?
    } else {
        all_defined(alloc, statement)?
    };
    let sought = Sought::of(deck.variables.as_slice(), spots);
    let found = find_holders(alloc, before, &sought, references)?;
    let line = match found.last {
        Some((last, var)) => earlier(deck.statements.as_slice(), at, last, var),
        None => None,
    };
    match line {
        Some(line) => holds(before, &found, line, references, phrase)?,
        None => {
            let rule = if references { Rule::P1 } else { Rule::P2 };
            phrase.text(rule_words(rule))?;
        }
    }
    Ok(line)
}

/// Tells that the transfer of a line holds what was found.
fn holds(
    before: &[Lined],
    found: &Holders,
    line: u32,
    references: bool,
    phrase: &mut Phrase<'_>,
) -> Result<(), AllocError> {
    let begins = if references {
        "the statement references "
    } else {
        "the statement defines "
    };
    phrase.text(begins)?;
    names(found, phrase)?;
    let is_input = match found.last {
        Some((last, _)) => is_input(before.get(last)),
        None => false,
    };
    phrase.text(if is_input {
        ", which the pending READ of line "
    } else {
        ", which the pending WRITE of line "
    })?;
    phrase.number(line)?;
    if found.more {
        phrase.text(if references {
            ", or an earlier READ,"
        } else {
            ", or an earlier transfer,"
        })?;
    }
    phrase.text(" holds; a WAIT has to stand before it")
}

/// Whether a statement is a READ with ASYNCHRONOUS='YES'.
fn is_input(lined: Option<&Lined>) -> bool {
    match lined {
        Some(lined) => match transfer_of(&lined.what) {
            Some(transfer) => transfer.input,
            None => false,
        },
        None => false,
    }
}

/// Names what is held, as far as it is known.
fn names(found: &Holders, phrase: &mut Phrase<'_>) -> Result<(), AllocError> {
    if !found.more {
        return phrase.spots(&found.spots, " and ");
    }
    if found.spots.len() > MOST_NAMES {
        return phrase.text("a variable");
    }
    phrase.spots(&found.spots, " or ")
}

/// Tells what the statement references that is not defined.
fn unset(
    alloc: Global,
    deck: &Deck,
    before: &[Lined],
    statement: &Statement,
    phrase: &mut Phrase<'_>,
) -> Result<(), AllocError> {
    let variables = deck.variables.as_slice();
    let sought = Sought::of(variables, referenced(alloc, statement)?);
    let found = find_undefined(alloc, variables, before, &sought)?;
    let few = found.surely || found.spots.len() <= MOST_NAMES;
    if found.spots.is_empty() || !few {
        return phrase.text(rule_words(Rule::P3));
    }
    phrase.text("the statement references ")?;
    phrase.spots(&found.spots, " and ")?;
    match found.spots.as_slice() {
        [spot] if found.surely || !phrase.is_array(*spot) => phrase.text(", which is not defined"),
        [_] => phrase.text(", of which an element is not defined"),
        _ if found.surely => phrase.text(", which are not defined"),
        _ => phrase.text(", and not all of them are defined"),
    }
}

/// Tells which identifier is not pending.
fn unknown(statement: &Statement, phrase: &mut Phrase<'_>) -> Result<(), AllocError> {
    let (id, unit) = match statement {
        Statement::WaitFor { unit, id, .. } => (id, Some(*unit)),
        Statement::Inquire { about, id, .. } => match about {
            Subject::Unit(unit) => (id, Some(*unit)),
            Subject::File(_) => (id, None),
        },
        _ => return phrase.text(rule_words(Rule::P4)),
    };
    match id {
        Some(
            Operand::Literal {
                kind: _,
                value: Value::Int(number),
            },
        ) => {
            phrase.text("no transfer with the identifier ")?;
            phrase.number(*number)?;
            phrase.text(" is pending on ")?;
        }
        Some(Operand::One(place)) => {
            phrase.text("the value of ")?;
            phrase.spot(Spot::of(*place))?;
            phrase.text(" is not the identifier of a transfer that is pending on ")?;
        }
        _ => return phrase.text(rule_words(Rule::P4)),
    }
    on_unit(unit, phrase)
}

fn on_unit(unit: Option<UnitRef>, phrase: &mut Phrase<'_>) -> Result<(), AllocError> {
    match unit {
        Some(UnitRef::Number(code)) => {
            phrase.text("unit ")?;
            phrase.number(unit_number(code))
        }
        Some(UnitRef::Held { place, .. }) => {
            phrase.text("unit ")?;
            phrase.spot(Spot::of(place))
        }
        Some(_) => phrase.text("the unit"),
        None => phrase.text("the unit of the file"),
    }
}

/// Tells which parts of the statement meet.
fn doubled(
    alloc: Global,
    statement: &Statement,
    phrase: &mut Phrase<'_>,
) -> Result<(), AllocError> {
    let Some((spot, meeting)) = find_meeting(alloc, statement)? else {
        return phrase.text(rule_words(Rule::P5));
    };
    phrase.spot(spot)?;
    match meeting {
        Meeting::Specifiers(one, other) => {
            phrase.text(" is defined by ")?;
            phrase.text(one.name())?;
            phrase.text("= and by ")?;
            phrase.text(other.name())?;
            phrase.text("=, too")
        }
        Meeting::Item(name) => {
            phrase.text(" is defined by ")?;
            phrase.text(name.name())?;
            phrase.text(if has_group(statement) {
                "=, and is in the group, too"
            } else {
                "=, and is an item, too"
            })
        }
        Meeting::File => phrase.text(" is an item, and is in the internal file, too"),
    }
}

fn has_group(statement: &Statement) -> bool {
    match statement {
        Statement::Transfer(transfer) => matches!(transfer.control, Control::Group { .. }),
        _ => false,
    }
}
