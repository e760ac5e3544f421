// The statement that tokens are.
ghost use Rattle.std.specs.Prelude.{◌≡◌, Bool, List, ◌∷◌, if◌then◌else◌};
ghost use Rattle.fj_syntax.specs.Tokens.{Token, Mark, Comma, DoubleColon};
ghost use Rattle.fj_syntax.specs.Statement.{value_of, number_in, integer_kind, character_kind, behind_colons, declaration_of, group_of, assignment_of, items_of, transfer_from, motion_from, end_from, begun_by, written_of};
ghost use Rattle.fj_syntax.specs.Reading.{Gives};

use crate::arguments::call;
use crate::calls::{make_close, make_inquire, make_move, make_open, make_transfer, make_wait};
use crate::fault::{Read, SyntaxFault, must, some};
use crate::given::bare_unit;
use crate::operand::{Designator, Operand};
use crate::parts::{Part, is_name, list, parted};
use crate::token::Mark::{Comma, DoubleColon, Equals, LeftParenthesis, RightParenthesis, Slash};
use crate::token::{Sign, Token};
use crate::words::{Keyword, keyword_of};
use crate::written::{Assignment, Declaration, Group, OnUnit, Written};
use fj_modes::Motion;
use fj_value::{Boxed, Items, Kind, Text};
use std::alloc::Global;

/// The largest length of characters.
const MAX_LENGTH: u64 = 65_536;

/// A number, or KEYWORD= and a number.
fn value(keyword: &str, tokens: &[Token<'_>]) -> Option<u64>
    ensures { result ≡ value_of keyword.now tokens.now }
{
    match tokens {
        [number] => match number {
            Token::Number(Sign::Unsigned, amount) => Some(*amount),
            _ => None,
        },
        [name, Token::Mark(Equals), number] => match (name, number) {
            (Token::Word(word), Token::Number(Sign::Unsigned, amount))
                if word.is(keyword.as_bytes()) => Some(*amount),
            _ => None,
        },
        _ => None,
    }
}

/// The same in parentheses, or the default where none opens; and what is behind it.
fn number_in<'a, 'b>(
    keyword: &str,
    default: u64,
    tokens: &'a [Token<'b>],
) -> Read<(u64, &'a [Token<'b>])>
    ensures { Gives (λ x. (x.0, x.1.now)) result (number_in keyword.now default tokens.now) }
{
    let [Token::Mark(LeftParenthesis), rest @ ..] = tokens else {
        return Ok((default, tokens));
    };
    let (inside, behind) = some(parted(rest, RightParenthesis))?;
    Ok((some(value(keyword, inside))?, behind))
}

fn integer_kind(number: u64) -> Option<Kind>
    ensures { result ≡ integer_kind number }
{
    match number {
        4 => Some(Kind::Int4),
        8 => Some(Kind::Int8),
        _ => None,
    }
}

fn character_kind(length: u64) -> Option<Kind>
    ensures { result ≡ character_kind length }
{
    match length {
        1..=MAX_LENGTH => Some(Kind::Chars(length as u32)),
        _ => None,
    }
}

/// Whether it is the attribute ASYNCHRONOUS, which stands between a comma and `::`.
fn is_attribute(token: &Token<'_>) -> bool
    ensures { (behind : List Token) → behind_colons (Mark Comma ∷ token.now ∷ Mark DoubleColon ∷ behind)
        ≡ (if result then behind else Mark Comma ∷ token.now ∷ Mark DoubleColon ∷ behind) }
{
    match token {
        Token::Word(word) => word.is("ASYNCHRONOUS".as_bytes()),
        _ => false,
    }
}

/// What is behind `::` or `, ASYNCHRONOUS ::`.
fn behind_colons<'a, 'b>(tokens: &'a [Token<'b>]) -> &'a [Token<'b>]
    ensures { result.now ≡ behind_colons tokens.now }
{
    match tokens {
        [Token::Mark(DoubleColon), behind @ ..] => behind,
        [
            Token::Mark(Comma),
            word,
            Token::Mark(DoubleColon),
            behind @ ..,
        ] if is_attribute(word) => behind,
        _ => tokens,
    }
}

/// A declaration of variables of a kind, behind the kind.
fn declaration(alloc: Global, kind: Option<Kind>, tokens: &[Token<'_>]) -> Read<Written>
    ensures { Gives (λ x. x) result (declaration_of kind tokens.now) }
{
    let kind = some(kind)?;
    let entities = list(alloc, behind_colons(tokens))?;
    Ok(Written::Declaration(Declaration { kind, entities }))
}

/// NAMELIST, behind the word.
fn group(alloc: Global, tokens: &[Token<'_>]) -> Read<Written>
    ensures { Gives (λ x. x) result (group_of tokens.now) }
{
    let [Token::Mark(Slash), name, Token::Mark(Slash), names @ ..] = tokens else {
        return Err(SyntaxFault::NotAStatement);
    };
    let Token::Word(name) = name else {
        return Err(SyntaxFault::NotAStatement);
    };
    must(is_name(name))?;
    let members = list(alloc, names)?;
    let name = name.to_text(alloc)?;
    Ok(Written::Group(Group { name, members }))
}

fn assignment(alloc: Global, tokens: &[Token<'_>]) -> Read<Written>
    ensures { Gives (λ x. x) result (assignment_of tokens.now) }
{
    let (to, from) = some(parted(tokens, Equals))?;
    let to = Designator::read(alloc, to)?;
    let from = Operand::read(alloc, from)?;
    Ok(Written::Assignment(Assignment { to, from }))
}

/// The items of a transfer, if there are some.
fn items(alloc: Global, tokens: &[Token<'_>]) -> Read<Items<Operand>>
    ensures { Gives (λ x. x) result (items_of tokens.now) }
{
    if tokens.is_empty() {
        return Ok(Items::new(alloc));
    }
    list(alloc, tokens)
}

/// READ or WRITE, behind the word.
fn transfer(alloc: Global, input: bool, tokens: &[Token<'_>]) -> Read<Written>
    ensures { Gives (λ x. x) result (transfer_from input tokens.now) }
{
    let (arguments, behind) = call(alloc, Keyword::Transfer { input }, tokens)?;
    let items = items(alloc, behind)?;
    let transfer = make_transfer(input, arguments.as_slice(), items)?;
    Ok(Written::Transfer(Boxed::new(alloc, transfer)?))
}

/// A motion, behind its words: a bare unit, or arguments in parentheses.
fn motion(alloc: Global, how: Motion, tokens: &[Token<'_>]) -> Read<Written>
    ensures { Gives (λ x. x) result (motion_from how tokens.now) }
{
    if let [Token::Mark(LeftParenthesis), ..] = tokens {
        return Ok(Written::Move(make_move(alloc, how, tokens)?));
    }
    Ok(Written::Move(OnUnit {
        unit: bare_unit(alloc, tokens)?,
        what: how,
        iostat: None,
    }))
}

/// END alone, or END FILE.
fn end(alloc: Global, tokens: &[Token<'_>]) -> Read<Written>
    ensures { Gives (λ x. x) result (end_from tokens.now) }
{
    match tokens {
        [] => Ok(Written::End),
        [word, behind @ ..] => match word {
            Token::Word(word) if word.is("FILE".as_bytes()) => {
                motion(alloc, Motion::Endfile, behind)
            }
            _ => Err(SyntaxFault::NotAStatement),
        },
    }
}

/// What a keyword begins, behind the keyword: INTEGER is INTEGER(4), and CHARACTER is CHARACTER(1).
#[tactic(auto, unfolding(crate::specs::Statement::begun_by))]
fn begun_by(alloc: Global, keyword: Keyword, tokens: &[Token<'_>]) -> Read<Written>
    ensures { Gives (λ x. x) result (begun_by keyword tokens.now) }
{
    match keyword {
        Keyword::Integer => {
            let (number, behind) = number_in("KIND", 4, tokens)?;
            declaration(alloc, integer_kind(number), behind)
        }
        Keyword::Logical => declaration(alloc, Some(Kind::Logical), tokens),
        Keyword::Character => {
            let (number, behind) = number_in("LEN", 1, tokens)?;
            declaration(alloc, character_kind(number), behind)
        }
        Keyword::Namelist => group(alloc, tokens),
        Keyword::Open => Ok(Written::Open(make_open(alloc, tokens)?)),
        Keyword::Close => Ok(Written::Close(make_close(alloc, tokens)?)),
        Keyword::Transfer { input } => transfer(alloc, input, tokens),
        Keyword::Wait => Ok(Written::Wait(make_wait(alloc, tokens)?)),
        Keyword::Move(how) => motion(alloc, how, tokens),
        Keyword::Inquire => Ok(Written::Inquire(make_inquire(alloc, tokens)?)),
        Keyword::End => end(alloc, tokens),
    }
}

/// The statement that the tokens are, all of them.
#[tactic(auto, unfolding(crate::specs::Statement::written_of))]
pub fn written(alloc: Global, tokens: &[Token<'_>]) -> Read<Written>
    ensures { Gives (λ x. x) result (written_of tokens.now) }
{
    let [first, behind @ ..] = tokens else {
        return Err(SyntaxFault::NotAStatement);
    };
    let Token::Word(word) = first else {
        return Err(SyntaxFault::NotAStatement);
    };
    match keyword_of(word) {
        Some(keyword) => begun_by(alloc, keyword, behind),
        None => assignment(alloc, tokens),
    }
}
