// The parts of a statement from the tokens that they are, and lists of parts.
ghost use Rattle.std.specs.Prelude.{◌≡◌, ◌<◌, ◌≤◌, ◌&&◌, nat_le, IfNone, IfOk, IfSome, ◌∷◌, [], length, drop, option_map, position};
ghost use Rattle.fj_syntax.specs.Parts.{is_mark, is_from_to, is_name, named, name_of, designator_of, operand_of, parted, cut, list_of};
ghost use Rattle.fj_syntax.specs.Reading.{Gives};

use crate::fault::{Read, SyntaxFault, must};
use crate::operand::{Designator, Operand};
use crate::token::Mark::{LeftParenthesis, RightParenthesis};
use crate::token::{Mark, Sign, Token};
use crate::word::Word;
use crate::words::keyword_of;
use fj_value::{Items, Text};
use std::alloc::Global;

/// The largest subscript and number of elements.
const MAX_ELEMENTS: u64 = 1_000_000;

pub fn is_mark(token: &Token<'_>, mark: Mark) -> bool
    ensures { result ≡ is_mark mark token.now }
{
    match token {
        Token::Mark(other) => *other == mark,
        _ => false,
    }
}

/// Whether a word is a name.
pub fn is_name(word: &Word<'_>) -> bool
    ensures { result ≡ is_name word.now }
{
    keyword_of(word).is_none()
}

fn named(alloc: Global, word: &Word<'_>, number: Option<u32>) -> Read<Designator>
    ensures { Gives (λ x. x) result (named word.now number) }
{
    must(is_name(word))?;
    let name = word.to_text(alloc)?;
    Ok(Designator { name, number })
}

/// A part of a statement.
pub trait Part: Drop {
    ghost use Rattle.std.specs.Prelude.{List, Option};
    ghost use Rattle.fj_syntax.specs.declared.token.Token.{Token};
    ghost use Rattle.fj_syntax.specs.Reading.{Gives};

    /// The part that tokens are.
    ghost part_of: { List Token → Option Self };

    fn read(alloc: Global, tokens: &[Token<'_>]) -> Read<Self>
        ensures { Gives (λ x. x) result (part_of tokens.now) };
}

impl Part for Text {
    ghost use Rattle.fj_syntax.specs.Parts.{name_of};

    ghost part_of = { name_of };

    fn read(alloc: Global, tokens: &[Token<'_>]) -> Read<Text> {
        let [token] = tokens else {
            return Err(SyntaxFault::NotAStatement);
        };
        let Token::Word(word) = token else {
            return Err(SyntaxFault::NotAStatement);
        };
        Ok(named(alloc, word, None)?.name)
    }
}

impl Part for Designator {
    ghost use Rattle.fj_syntax.specs.Parts.{designator_of};

    ghost part_of = { designator_of };

    fn read(alloc: Global, tokens: &[Token<'_>]) -> Read<Designator> {
        match tokens {
            [token] => match token {
                Token::Word(word) => named(alloc, word, None),
                _ => Err(SyntaxFault::NotAStatement),
            },
            [
                name,
                Token::Mark(LeftParenthesis),
                number,
                Token::Mark(RightParenthesis),
            ] => match (name, number) {
                (Token::Word(word), Token::Number(Sign::Unsigned, amount))
                    if *amount >= 1 && *amount <= MAX_ELEMENTS => {
                    named(alloc, word, Some(*amount as u32))
                }
                _ => Err(SyntaxFault::NotAStatement),
            },
            _ => Err(SyntaxFault::NotAStatement),
        }
    }
}

impl Part for Operand {
    ghost use Rattle.fj_syntax.specs.Parts.{operand_of};

    ghost part_of = { operand_of };

    fn read(alloc: Global, tokens: &[Token<'_>]) -> Read<Operand> {
        match tokens {
            [token] => match token {
                Token::Number(sign, amount) => Ok(Operand::Number {
                    sign: *sign,
                    amount: *amount,
                }),
                Token::Truth(truth) => Ok(Operand::Truth(*truth)),
                Token::Literal(literal) => Ok(Operand::Literal(literal.to_text(alloc)?)),
                _ => Ok(Operand::Place(Designator::read(alloc, tokens)?)),
            },
            _ => Ok(Operand::Place(Designator::read(alloc, tokens)?)),
        }
    }
}

fn place_of(tokens: &[Token<'_>], mark: Mark) -> Option<usize>
    ensures at { result ≡ position (is_mark mark) tokens.now }
    ensures within { IfSome result (λ at. at < length tokens.now) }
{
    tokens.iter().position(|token| is_mark(token, mark))
}

/// The tokens before the first such mark, and those behind it, if there is one.
pub fn parted<'a, 'b>(
    tokens: &'a [Token<'b>],
    mark: Mark,
) -> Option<(&'a [Token<'b>], &'a [Token<'b>])>
    ensures { option_map (λ x. (x.0.now, x.1.now)) result ≡ parted mark tokens.now }
{
    match place_of(tokens, mark) {
        Some(at) => Some((&tokens[..at], &tokens[at + 1..])),
        None => None,
    }
}

/// The part before the first comma, and how many tokens stand before what is behind the comma, if there is one.
#[tactic(auto, using(crate::proofs::SplitLemmas::first_cut, crate::proofs::SplitLemmas::no_split))]
pub fn first_part<'a, 'b>(tokens: &'a [Token<'b>]) -> (&'a [Token<'b>], Option<usize>)
    ensures last { IfNone result.1 (cut tokens.now ≡ result.0.now ∷ []) }
    ensures more { IfSome result.1 (λ next. cut tokens.now ≡ result.0.now ∷ cut (drop next tokens.now)) }
    ensures some { IfSome result.1 (λ next. 0 < next) }
    ensures within { IfSome result.1 (λ next. next ≤ length tokens.now) }
{
    match place_of(tokens, Mark::Comma) {
        Some(at) => (&tokens[..at], Some(at + 1)),
        None => (tokens, None),
    }
}

/// The parts between commas.
pub fn list<T: Part>(alloc: Global, tokens: &[Token<'_>]) -> Read<Items<T>>
    ensures { Gives (λ x. x) result (list_of T.part_of tokens.now) }
{
    let mut list = Items::new(alloc);
    let mut from = 0;
    loop {
        let (part, next) = first_part(tokens.split_at(from).1);
        let read = T::read(alloc, part)?;
        list.push(read)?;
        match next {
            Some(next) => from += next,
            None => return Ok(list),
        }
    }
}
