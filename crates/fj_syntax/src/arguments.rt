// The arguments of an input/output statement: which stand there, each at most once (ISO/IEC 1539-1:2004, 9.4 to 9.9).
ghost use Rattle.std.specs.Prelude.{◌≡◌, ◌<◌, length, IfSome};
ghost use Rattle.std.specs.Option.{option_copied};
ghost use Rattle.fj_syntax.specs.declared.words.Specifier.TheVariants as specifier;
ghost use Rattle.fj_syntax.specs.Arguments.{given_of, argument_of, next_bare, arguments_of, are_once, depth_behind, closing, are_taken, call_of, whole_call_of, given_for};
ghost use Rattle.fj_syntax.specs.Reading.{Gives};
ghost use Rattle.fj_syntax.specs.Words.{same_specifier};

use crate::fault::{Read, SyntaxFault, must, some};
use crate::operand::{Argument, Arguments, Given, Operand};
use crate::parts::{Part, first_part, is_mark};
use crate::token::Mark::{Asterisk, Equals, LeftParenthesis, RightParenthesis};
use crate::token::Token;
use crate::words::{Keyword, Specifier, specifier_of, takes};
use fj_value::Items;
use std::alloc::Global;

/// An asterisk or an operand.
pub fn given(alloc: Global, tokens: &[Token<'_>]) -> Read<Given>
    ensures { Gives (λ x. x) result (given_of tokens.now) }
{
    match tokens {
        [Token::Mark(Asterisk)] => Ok(Given::Asterisk),
        _ => Ok(Given::Operand(Operand::read(alloc, tokens)?)),
    }
}

/// A specifier and its value, or a value alone where it may stand for a specifier.
fn argument(alloc: Global, bare: Option<Specifier>, tokens: &[Token<'_>]) -> Read<Argument>
    ensures { Gives (λ x. x) result (argument_of bare tokens.now) }
{
    let (specifier, value) = match tokens {
        [first, Token::Mark(Equals), value @ ..] => match first {
            Token::Word(word) => (specifier_of(word), value),
            _ => (bare, tokens),
        },
        _ => (bare, tokens),
    };
    let specifier = some(specifier)?;
    let value = given(alloc, value)?;
    Ok(Argument { specifier, value })
}

/// What a bare argument stands for behind this one.
fn next_bare(bare: Option<Specifier>, tokens: &[Token<'_>]) -> Option<Specifier>
    ensures { result ≡ next_bare bare tokens.now }
{
    match (bare, tokens) {
        (_, [Token::Word(_), Token::Mark(Equals), ..]) => None,
        (Some(Specifier::Unit), _) => Some(Specifier::Fmt),
        _ => None,
    }
}

/// The arguments between commas. A bare one may stand first, as the unit, and behind it another, as the format.
fn arguments(alloc: Global, tokens: &[Token<'_>]) -> Read<Arguments>
    ensures { Gives (λ x. x) result (arguments_of tokens.now) }
{
    let mut arguments = Items::new(alloc);
    let mut bare = Some(Specifier::Unit);
    let mut from = 0;
    loop {
        let (part, next) = first_part(tokens.split_at(from).1);
        let argument = argument(alloc, bare, part)?;
        arguments.push(argument)?;
        bare = next_bare(bare, part);
        match next {
            Some(next) => from += next,
            None => return Ok(arguments),
        }
    }
}

#[tactic(auto, using(crate::proofs::KnownLemmas::same_is))]
fn is_for(argument: &Argument, specifier: Specifier) -> bool
    ensures { result ≡ same_specifier argument.now.specifier specifier }
{
    argument.specifier == specifier
}

/// What is given for a specifier, if it stands there.
pub fn given_for(arguments: &[Argument], specifier: Specifier) -> Option<&Given>
    ensures { option_copied result ≡ given_for specifier arguments.now }
{
    let argument = arguments
        .iter()
        .find(|argument| is_for(argument, specifier))?;
    Some(&argument.value)
}

/// Whether no specifier stands twice.
fn are_once(arguments: &[Argument]) -> bool
    ensures { result ≡ are_once arguments.now }
{
    let mut rest = arguments;
    while let [first, others @ ..] = rest {
        if given_for(others, first.specifier).is_some() {
            return false;
        }
        rest = others;
    }
    true
}

/// How many parentheses are open behind a token.
fn depth_behind(depth: usize, token: &Token<'_>) -> usize
    requires { depth < usize.MAX }
    ensures { result ≡ depth_behind depth token.now }
{
    if is_mark(token, LeftParenthesis) {
        depth + 1
    } else if is_mark(token, RightParenthesis) {
        depth.saturating_sub(1)
    } else {
        depth
    }
}

/// How many tokens stand before the right parenthesis that closes what was opened before them.
fn closing(tokens: &[Token<'_>]) -> Option<usize>
    ensures at { result ≡ closing 0 tokens.now }
    ensures within { IfSome result (λ at. at < length tokens.now) }
{
    let mut depth = 0;
    for (at, token) in tokens.iter().enumerate() {
        if depth == 0 && is_mark(token, RightParenthesis) {
            return Some(at);
        }
        depth = depth_behind(depth, token);
    }
    None
}

/// Whether the statement takes each specifier that stands there.
fn are_taken(keyword: Keyword, arguments: &[Argument]) -> bool
    ensures { result ≡ are_taken keyword arguments.now }
{
    arguments
        .iter()
        .all(|argument| takes(keyword, argument.specifier))
}

/// The arguments of a statement in parentheses, and the tokens behind them.
pub fn call<'a, 'b>(
    alloc: Global,
    keyword: Keyword,
    tokens: &'a [Token<'b>],
) -> Read<(Arguments, &'a [Token<'b>])>
    ensures { Gives (λ x. (x.0, x.1.now)) result (call_of keyword tokens.now) }
{
    let [Token::Mark(LeftParenthesis), inside @ ..] = tokens else {
        return Err(SyntaxFault::NotAStatement);
    };
    let end = some(closing(inside))?;
    let arguments = arguments(alloc, &inside[..end])?;
    must(are_once(arguments.as_slice()) && are_taken(keyword, arguments.as_slice()))?;
    Ok((arguments, &inside[end + 1..]))
}

/// The same, with nothing behind them.
pub fn whole_call(alloc: Global, keyword: Keyword, tokens: &[Token<'_>]) -> Read<Arguments>
    ensures { Gives (λ x. x) result (whole_call_of keyword tokens.now) }
{
    let (arguments, behind) = call(alloc, keyword, tokens)?;
    must(behind.is_empty())?;
    Ok(arguments)
}
