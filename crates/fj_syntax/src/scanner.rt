// A line as tokens (ISO/IEC 1539-1:2004, 3.2).
ghost use Rattle.std.specs.Prelude.{◌≡◌, ◌≤◌, ◌==◌, ◌||◌, Bool, length, take, map, IfOk, OnOk, Ok, slice_index, option_map, drop, ◌++◌, ◌∷◌, []};
ghost use Rattle.fj_syntax.specs.Class.{is_of};
ghost use Rattle.fj_syntax.specs.Tokens.{behind_blanks, ends_line, IsDelimiter, Scanned};
ghost use Rattle.std.specs.Char.{is_ascii_digit};
ghost use Rattle.std.specs.List.{prefix_len, AllPass};
ghost use Rattle.std.specs.Str.{bytes_eq, str_to_ascii_lowercase};
ghost use Rattle.std.specs.Str.Parse.{digits_value, AllDigits};
ghost use Rattle.fj_syntax.specs.FirstToken.{mark_of, first_token, run_at, word_at, number_at, closed_by, literal_at, truth_at, mark_at};
ghost use Rattle.fj_syntax.specs.Reading.{Gives};

use crate::class::{Class, is_of, run_len};
use crate::fault::{Read, SyntaxFault, must, some};
use crate::literal::Literal;
use crate::token::{Mark, Sign, Token};
use crate::word::Word;
use std::alloc::{AllocError, Global};

/// The most characters of a name or keyword.
const MAX_WORD: usize = 63;

/// Room for the tokens of most lines.
const ROOM: usize = 24;

/// The most digits of a number.
const MAX_DIGITS: usize = 19;

/// The longest front of a class, of one byte at least and so many at most, and the line behind it.
#[tactic(auto, using(crate::proofs::TokenLemmas::part_passes))]
fn run(class: Class, most: usize, line: &[u8]) -> Read<(&[u8], &[u8])>
    ensures run { Gives (λ x. (x.0.now, x.1.now)) result (run_at (is_of class) most (λ run. run) line.now) }
    ensures all { IfOk result (λ x. AllPass (is_of class) x.0.now) }
    ensures short { IfOk result (λ x. length x.0.now ≤ most) }
{
    let len = run_len(class, line);
    must(len > 0 && len <= most)?;
    Ok(line.split_at(len))
}

fn word(line: &[u8]) -> Read<(Token<'_>, &[u8])>
    ensures { Gives (λ x. (x.0, x.1.now)) result (word_at line.now) }
{
    let (front, behind) = run(Class::InWord, MAX_WORD, line)?;
    Ok((Token::Word(Word::new(front)), behind))
}

/// The number that digits write.
#[tactic(auto, using(crate::proofs::DigitLemmas::digit_more))]
fn amount(digits: &[u8]) -> u64
    requires short { length digits.now ≤ 19 }
    requires digits { AllPass is_ascii_digit digits.now }
    ensures { result ≡ digits_value 10 digits.now }
{
    let mut amount = 0;
    for digit in digits {
        let value = u64::from(*digit - b'0');
        amount = amount * 10 + value;
    }
    amount
}

fn number(sign: Sign, line: &[u8]) -> Read<(Token<'_>, &[u8])>
    ensures { Gives (λ x. (x.0, x.1.now)) result (number_at sign line.now) }
{
    let (front, behind) = run(Class::Digit, MAX_DIGITS, line)?;
    Ok((Token::Number(sign, amount(front)), behind))
}

/// What stands behind the closing delimiter.
fn behind_closing(delimiter: u8, line: &[u8]) -> Read<&[u8]>
    ensures { Gives (λ x. x.now) result (option_map (λ r. r.1) (closed_by delimiter line.now)) }
{
    let mut rest = line;
    loop {
        let [byte, behind @ ..] = rest else {
            return Err(SyntaxFault::NotAStatement);
        };
        if *byte != delimiter {
            must(is_of(Class::InLiteral, *byte))?;
            rest = behind;
        } else if let [second, after @ ..] = behind
            && *second == delimiter
        {
            rest = after;
        } else {
            return Ok(behind);
        }
    }
}

/// A literal behind its first delimiter.
#[tactic(auto, using(crate::proofs::TokenLemmas::literal_closed))]
fn literal(delimiter: u8, line: &[u8]) -> Read<(Token<'_>, &[u8])>
    requires { IsDelimiter delimiter }
    ensures { Gives (λ x. (x.0, x.1.now)) result (literal_at delimiter line.now) }
{
    let behind = behind_closing(delimiter, line)?;
    let inside = &line[..line.len() - behind.len() - 1];
    Ok((Token::Literal(Literal::new(delimiter, inside)), behind))
}

/// Whether a line begins with a text, which is in lower case, in either case.
fn begins_with(line: &[u8], front: &[u8]) -> bool
    requires { str_to_ascii_lowercase front.now ≡ front.now }
    ensures { result ≡ bytes_eq (str_to_ascii_lowercase (take (length front.now) line.now)) front.now }
{
    if line.len() < front.len() {
        return false;
    }
    line[..front.len()].eq_ignore_ascii_case(front)
}

fn truth(line: &[u8]) -> Read<(Token<'_>, &[u8])>
    ensures { Gives (λ x. (x.0, x.1.now)) result (truth_at line.now) }
{
    if begins_with(line, b".true.") {
        return Ok((Token::Truth(true), &line[6..]));
    }
    if begins_with(line, b".false.") {
        return Ok((Token::Truth(false), &line[7..]));
    }
    Err(SyntaxFault::NotAStatement)
}

fn mark_of(byte: u8) -> Option<Mark>
    ensures { result ≡ mark_of byte }
{
    match byte {
        b'(' => Some(Mark::LeftParenthesis),
        b')' => Some(Mark::RightParenthesis),
        b',' => Some(Mark::Comma),
        b'=' => Some(Mark::Equals),
        b'/' => Some(Mark::Slash),
        b'*' => Some(Mark::Asterisk),
        _ => None,
    }
}

#[tactic(auto, unfolding(crate::specs::FirstToken::mark_at))]
fn mark(line: &[u8]) -> Read<(Token<'_>, &[u8])>
    ensures { Gives (λ x. (x.0, x.1.now)) result (mark_at line.now) }
{
    match line {
        [b':', b':', behind @ ..] => Ok((Token::Mark(Mark::DoubleColon), behind)),
        [byte, behind @ ..] => Ok((Token::Mark(some(mark_of(*byte))?), behind)),
        [] => Err(SyntaxFault::NotAStatement),
    }
}

#[tactic(auto, unfolding(crate::specs::FirstToken::first_token))]
fn first_token(line: &[u8]) -> Read<(Token<'_>, &[u8])>
    ensures { Gives (λ x. (x.0, x.1.now)) result (first_token line.now) }
{
    let [first, behind @ ..] = line else {
        return Err(SyntaxFault::NotAStatement);
    };
    let first = *first;
    if first.is_ascii_alphabetic() {
        return word(line);
    }
    if first.is_ascii_digit() {
        return number(Sign::Unsigned, line);
    }
    match first {
        b'+' => number(Sign::Plus, behind),
        b'-' => number(Sign::Minus, behind),
        b'\'' | b'"' => literal(first, behind),
        b'.' => truth(line),
        _ => mark(line),
    }
}

/// A line without the blanks at its front.
fn behind_blanks(line: &[u8]) -> &[u8]
    ensures { result.now ≡ behind_blanks line.now }
{
    line.split_at(run_len(Class::Blank, line)).1
}

/// Whether nothing more is read: at the end of a line, or at a comment.
fn ends_line(line: &[u8]) -> bool
    ensures { result ≡ ends_line line.now }
{
    match line {
        [first, ..] => *first == b'!',
        [] => true,
    }
}

/// Adds a token at the end, where there is mostly room for it.
#[inline]
fn add<'a>(found: &mut Vec<Token<'a>>, token: Token<'a>) -> Result<(), AllocError>
    ensures { OnOk result (found.new.items ≡ found.old.items ++ token.entry ∷ []) }
{
    if found.len() < found.capacity() {
        found.push_reserved(token);
        return Ok(());
    }
    found.push(token)?;
    Ok(())
}

/// The tokens of a line, first to last.
#[tactic(auto, using(crate::proofs::ParseLemmas::scans_token, crate::proofs::ParseLemmas::scans_done, crate::proofs::ParseLemmas::scans_fault, crate::proofs::ParseLemmas::shorter))]
pub fn scanned(alloc: Global, line: &[u8]) -> Read<Vec<Token<'_>>>
    ensures { Scanned line.now result (λ tokens. tokens.items) }
{
    let mut found = Vec::with_capacity(alloc, ROOM)?;
    let mut rest = line;
    loop {
        rest = behind_blanks(rest);
        if ends_line(rest) {
            return Ok(found);
        }
        let (token, behind) = first_token(rest)?;
        add(&mut found, token)?;
        rest = behind;
    }
}
