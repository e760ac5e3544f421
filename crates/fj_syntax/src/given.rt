// What is given for a specifier, by its form.
ghost use Rattle.std.specs.Prelude.{◌≡◌, ◌≤◌, ◌==◌, IfOk, length};
ghost use Rattle.std.specs.List.{suffix_len};
ghost use Rattle.fj_syntax.specs.Given.{trimmed, given_at, place_given, integer_given, mode_at, file_given, unit_number, unit_given, unit_at, unit_opened, bare_unit, format_given, group_given, recl_given};
ghost use Rattle.fj_modes.specs.declared.asked.Question.TheVariants as question;
ghost use Rattle.fj_syntax.specs.declared.words.Specifier.TheVariants as specifier;
ghost use Rattle.fj_syntax.specs.Reading.{Gives};

use crate::arguments::{given, given_for};
use crate::fault::{Read, SyntaxFault, must, some};
use crate::operand::{Argument, Designator, Given, Operand};
use crate::token::{Sign, Token};
use crate::words::Specifier::{self, Property};
use crate::written::{Format, Unit};
use fj_modes::{FileName, Question, WordKind, is_file_name};
use fj_value::Text;
use std::alloc::{AllocError, Global};

/// The largest unit, and the largest record length.
const MAX_UNIT: u64 = 2_147_483_647;

impl Designator {
    pub fn try_clone(&self) -> Result<Designator, AllocError>
        ensures { IfOk result (λ copy. copy ≡ self.now) }
    {
        let name = self.name.try_clone()?;
        let number = self.number;
        Ok(Designator { name, number })
    }
}

fn blanks_at_end(text: &[u8]) -> usize
    ensures blanks { result ≡ suffix_len (λ c. c == 32) text.now }
    ensures within { result ≤ length text.now }
{
    text.iter().rev().take_while(|byte| **byte == b' ').count()
}

/// A text without the blanks at its end.
fn trimmed(text: &[u8]) -> &[u8]
    ensures { result.now ≡ trimmed text.now }
{
    &text[..text.len() - blanks_at_end(text)]
}

/// The place for a specifier.
#[tactic(auto, unfolding(crate::specs::Given::given_at))]
pub fn place(arguments: &[Argument], specifier: Specifier) -> Read<Option<Designator>>
    ensures { Gives (λ x. x) result (given_at place_given specifier arguments.now) }
{
    match given_for(arguments, specifier) {
        None => Ok(None),
        Some(Given::Operand(Operand::Place(place))) => Ok(Some(place.try_clone()?)),
        Some(_) => Err(SyntaxFault::NotAStatement),
    }
}

/// The integer literal or place for a specifier.
#[tactic(auto, unfolding(crate::specs::Given::given_at))]
pub fn integer(arguments: &[Argument], specifier: Specifier) -> Read<Option<Operand>>
    ensures { Gives (λ x. x) result (given_at integer_given specifier arguments.now) }
{
    match given_for(arguments, specifier) {
        None => Ok(None),
        Some(Given::Operand(Operand::Number { sign, amount })) => Ok(Some(Operand::Number {
            sign: *sign,
            amount: *amount,
        })),
        Some(Given::Operand(Operand::Place(place))) => Ok(Some(Operand::Place(place.try_clone()?))),
        Some(_) => Err(SyntaxFault::NotAStatement),
    }
}

/// The mode that the word for a specifier names.
#[tactic(auto, unfolding(crate::specs::Given::mode_at))]
pub fn mode<W: WordKind>(arguments: &[Argument], specifier: Specifier) -> Read<Option<W::Mode>>
    ensures { Gives (λ x. x) result (mode_at W.words specifier arguments.now) }
{
    match given_for(arguments, specifier) {
        None => Ok(None),
        Some(Given::Operand(Operand::Literal(text))) => {
            Ok(Some(some(W::mode_of(trimmed(text.bytes())))?))
        }
        Some(_) => Err(SyntaxFault::NotAStatement),
    }
}

pub fn file_given(alloc: Global, given: &Given) -> Read<FileName>
    ensures { Gives (λ x. x) result (file_given given.now) }
{
    let Given::Operand(Operand::Literal(text)) = given else {
        return Err(SyntaxFault::NotAStatement);
    };
    let name = trimmed(text.bytes());
    must(is_file_name(name))?;
    Ok(FileName::new(alloc, name)?)
}

/// FILE=.
#[tactic(auto, unfolding(crate::specs::Given::given_at))]
pub fn file(alloc: Global, arguments: &[Argument]) -> Read<Option<FileName>>
    ensures { Gives (λ x. x) result (given_at file_given specifier.File arguments.now) }
{
    match given_for(arguments, Specifier::File) {
        None => Ok(None),
        Some(given) => Ok(Some(file_given(alloc, given)?)),
    }
}

fn unit_number(amount: u64) -> Read<Unit>
    ensures { Gives (λ x. x) result (unit_number amount) }
{
    must(amount <= MAX_UNIT)?;
    Ok(Unit::Number(amount as u32))
}

/// A unit: a number, a place, or an asterisk where that may stand.
pub fn unit_given(star: bool, given: &Given) -> Read<Unit>
    ensures { Gives (λ x. x) result (unit_given star given.now) }
{
    match given {
        Given::Operand(
            Operand::Number {
                sign: Sign::Unsigned,
                amount,
            },
        ) => unit_number(*amount),
        Given::Operand(Operand::Place(place)) => Ok(Unit::Place(place.try_clone()?)),
        Given::Asterisk if star => Ok(Unit::Star),
        _ => Err(SyntaxFault::NotAStatement),
    }
}

/// UNIT=.
pub fn unit(star: bool, arguments: &[Argument]) -> Read<Unit>
    ensures { Gives (λ x. x) result (unit_at star arguments.now) }
{
    unit_given(star, some(given_for(arguments, Specifier::Unit))?)
}

/// UNIT= or NEWUNIT= of OPEN, and not both.
pub fn unit_opened(arguments: &[Argument]) -> Read<Unit>
    ensures { Gives (λ x. x) result (unit_opened arguments.now) }
{
    match (
        given_for(arguments, Specifier::Unit),
        given_for(arguments, Specifier::Newunit),
    ) {
        (Some(unit), None) => unit_given(false, unit),
        (None, Some(Given::Operand(Operand::Place(place)))) => Ok(Unit::New(place.try_clone()?)),
        _ => Err(SyntaxFault::NotAStatement),
    }
}

/// A unit that stands alone.
pub fn bare_unit(alloc: Global, tokens: &[Token<'_>]) -> Read<Unit>
    ensures { Gives (λ x. x) result (bare_unit tokens.now) }
{
    let given = given(alloc, tokens)?;
    unit_given(false, &given)
}

/// The format of a transfer.
#[tactic(auto, unfolding(crate::specs::Given::given_at))]
pub fn format(arguments: &[Argument]) -> Read<Option<Format>>
    ensures { Gives (λ x. x) result (given_at format_given specifier.Fmt arguments.now) }
{
    match given_for(arguments, Specifier::Fmt) {
        None => Ok(None),
        Some(Given::Asterisk) => Ok(Some(Format::Asterisk)),
        Some(Given::Operand(Operand::Literal(text))) => {
            Ok(Some(Format::Literal(text.try_clone()?)))
        }
        Some(_) => Err(SyntaxFault::NotAStatement),
    }
}

/// NML=.
#[tactic(auto, unfolding(crate::specs::Given::given_at))]
pub fn group(arguments: &[Argument]) -> Read<Option<Text>>
    ensures { Gives (λ x. x) result (given_at group_given specifier.Nml arguments.now) }
{
    match given_for(arguments, Specifier::Nml) {
        None => Ok(None),
        Some(Given::Operand(Operand::Place(Designator { name, number: None }))) => {
            Ok(Some(name.try_clone()?))
        }
        Some(_) => Err(SyntaxFault::NotAStatement),
    }
}

/// RECL=.
#[tactic(auto, unfolding(crate::specs::Given::given_at))]
pub fn recl(arguments: &[Argument]) -> Read<Option<u32>>
    ensures { Gives (λ x. x) result (given_at recl_given (specifier.Property question.Recl) arguments.now) }
{
    match given_for(arguments, Property(Question::Recl)) {
        None => Ok(None),
        Some(Given::Operand(Operand::Number { sign, amount }))
            if *amount <= MAX_UNIT && (*sign != Sign::Minus || *amount == 0) => {
            Ok(Some(*amount as u32))
        }
        Some(_) => Err(SyntaxFault::NotAStatement),
    }
}
