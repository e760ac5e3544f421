// A scan of records: the record at hand, and the constant that is served.
ghost use Rattle.std.specs.Prelude.{◌≡◌, ◌≢◌, ◌+◌, ◌<◌, ◌≤◌, ◌==◌, List, [], ℕ, length, drop, slice_get, unwrap_or, true, false, IfOk, IfSome, IfNone};
ghost use Rattle.std.specs.List.{position, position_or_len};
ghost use Rattle.fj_value.specs.declared.condition.Condition.{Condition};
ghost use Rattle.fj_list.specs.Stream.{is_blank, is_no_blank};
ghost use Rattle.fj_list.specs.ListInput.{is_separator, ends_constant, is_mark, is_no_digit, has_ended, constant_at, repeated, token_at, value_at, delimited, with_front};
ghost use Rattle.fj_list.specs.Scan.{IsSound, ahead, constant_of, split_by, piece_end, IsCounted, IsNotCounted};

use crate::constant::{Form, number};
use fj_value::{Condition, Text};
use std::alloc::{AllocError, Global};

/// The record at hand, and the constant that is served.
#[derive(Debug, Drop)]
pub struct Scan {
    /// The characters of the record at hand.
    pub line: Text,
    /// The place of the next one.
    pub at: usize,
    /// How many more items the constant is for.
    pub count: u32,
    pub form: Form,
    /// The places in the record of a constant without delimiters.
    pub start: usize,
    pub end: usize,
    /// The characters of a delimited constant.
    pub characters: Text,
}

/// How far a value is split off within a record.
#[derive(Clone, Copy, Debug, PartialEq, Eq)]
pub enum Token {
    /// Wholly.
    Constant,
    /// A delimited constant, behind its opening mark.
    Opened(u8),
    /// The statement ends with this condition.
    Stopped(Condition),
}

/// A blank or a tab.
pub fn is_blank(c: u8) -> bool
    ensures { result ≡ is_blank c }
{
    c == b' ' || c == b'\t'
}

/// A comma, or under DECIMAL='COMMA' a semicolon (ISO/IEC 1539-1:2004, 10.9).
pub fn is_separator(comma: bool, c: u8) -> bool
    ensures { result ≡ is_separator comma c }
{
    c == if comma { b';' } else { b',' }
}

/// A blank, a tab, a separator or a slash: a constant without delimiters ends before it (ISO/IEC 1539-1:2004, 10.9).
pub fn ends_constant(comma: bool, c: u8) -> bool
    ensures { result ≡ ends_constant comma c }
{
    is_blank(c) || is_separator(comma, c) || c == b'/'
}

/// An apostrophe or a quotation mark, the delimiters of a constant (ISO/IEC 1539-1:2004, 10.9.1).
pub fn is_mark(c: u8) -> bool
    ensures { result ≡ is_mark c }
{
    c == b'\'' || c == b'"'
}

fn no_blank_in(chars: &[u8]) -> Option<usize>
    ensures { result ≡ position is_no_blank chars.now }
{
    chars.iter().position(|c| !is_blank(*c))
}

fn blank_in(chars: &[u8]) -> Option<usize>
    ensures { result ≡ position is_blank chars.now }
{
    chars.iter().position(|c| is_blank(*c))
}

fn end_in(comma: bool, chars: &[u8]) -> Option<usize>
    ensures { result ≡ position (ends_constant comma) chars.now }
{
    chars.iter().position(|c| ends_constant(comma, *c))
}

fn no_digit_in(chars: &[u8]) -> Option<usize>
    ensures { result ≡ position is_no_digit chars.now }
{
    chars.iter().position(|c| !c.is_ascii_digit())
}

fn mark_in(mark: u8, chars: &[u8]) -> Option<usize>
    ensures { result ≡ position (λ c. c == mark) chars.now }
{
    chars.iter().position(|c| *c == mark)
}

/// How many characters stand before a place, or before the end.
fn width_to(place: Option<usize>, chars: &[u8]) -> usize
    ensures { result ≡ unwrap_or place (length chars.now) }
{
    place.unwrap_or(chars.len())
}

/// How many blanks and tabs characters begin with.
pub fn blanks_width(chars: &[u8]) -> usize
    ensures width { result ≡ position_or_len is_no_blank chars.now }
    ensures within { result ≤ length chars.now }
{
    let place = no_blank_in(chars);
    width_to(place, chars)
}

/// How many characters stand before the first blank or tab, or before the end.
pub fn text_width(chars: &[u8]) -> usize
    ensures width { result ≡ position_or_len is_blank chars.now }
    ensures within { result ≤ length chars.now }
{
    let place = blank_in(chars);
    width_to(place, chars)
}

/// How many digits characters begin with.
pub fn digits_width(chars: &[u8]) -> usize
    ensures width { result ≡ position_or_len is_no_digit chars.now }
    ensures within { result ≤ length chars.now }
{
    let place = no_digit_in(chars);
    width_to(place, chars)
}

/// How many characters stand before the first of this kind, or before the end.
pub fn width_before(mark: u8, chars: &[u8]) -> usize
    ensures width { result ≡ position_or_len (λ c. c == mark) chars.now }
    ensures within { result ≤ length chars.now }
{
    let place = mark_in(mark, chars);
    width_to(place, chars)
}

fn char_at(chars: &[u8], at: usize) -> Option<u8>
    ensures { result ≡ slice_get chars.now at }
{
    chars.get(at).copied()
}

/// Whether a character stands at a place.
fn stands_at(chars: &[u8], at: usize, c: u8) -> bool
    ensures yes { result ≡ true → slice_get chars.now at ≡ Some c }
    ensures no { result ≡ false → slice_get chars.now at ≢ Some c }
{
    match char_at(chars, at) {
        Some(found) => found == c,
        None => false,
    }
}

/// The number of a repeat count that characters begin with, and its width with the asterisk.
fn repeat_count(chars: &[u8]) -> Option<(u64, usize)>
    ensures within { IfSome result (λ found. found.1 ≤ length chars.now) }
    ensures some { IfSome result (λ found. IsCounted chars.now found.0 found.1) }
    ensures none { IfNone result (IsNotCounted chars.now) }
{
    let width = width_to(no_digit_in(chars), chars);
    if !stands_at(chars, width, b'*') {
        return None;
    }
    let count = number(&chars[..width])?;
    Some((count, width + 1))
}

impl Scan {
    /// A scan without a record at hand.
    pub fn new(alloc: Global) -> Scan
        ensures sound { IsSound result }
        ensures line { result.line ≡ [] }
        ensures at { result.at ≡ 0 }
        ensures count { result.count ≡ 0 }
        ensures form { result.form ≡ Form.Null }
        ensures start { result.start ≡ 0 }
        ensures end { result.end ≡ 0 }
        ensures characters { result.characters ≡ [] }
    {
        Scan {
            line: Text::new(alloc),
            at: 0,
            count: 0,
            form: Form::Null,
            start: 0,
            end: 0,
            characters: Text::new(alloc),
        }
    }

    pub fn next_char(&self) -> Option<u8>
        ensures { result ≡ slice_get self.now.line self.now.at }
    {
        char_at(self.line.bytes(), self.at)
    }

    /// The characters of the constant that is served.
    pub fn constant(&self) -> &[u8]
        requires { IsSound self.now }
        ensures { result.now ≡ constant_of self.now.form self.now }
    {
        match self.form {
            Form::Null => b"",
            Form::Undelimited => &self.line.bytes()[self.start..self.end],
            Form::Delimited => self.characters.bytes(),
        }
    }

    /// Passes over blanks and tabs in the record at hand.
    pub fn pass_blanks(&mut self)
        requires { IsSound self.old }
        ensures sound { IsSound self.new }
        ensures line { self.new.line ≡ self.old.line }
        ensures at { self.new.at
            ≡ self.old.at + position_or_len is_no_blank (drop self.old.at self.old.line) }
        ensures kept { self.new ≡ record self.old { at = self.new.at } }
    {
        let rest = &self.line.bytes()[self.at..];
        let width = width_to(no_blank_in(rest), rest);
        self.at += width;
    }

    /// Whether what was read ends with a blank, a separator, a slash or the end of the record.
    pub fn has_ended(&self, comma: bool) -> bool
        ensures there { result ≡ false → self.now.at < length self.now.line }
        ensures ended { (to_come : List (List ℕ)) → result ≡ has_ended comma (ahead self.now to_come) }
    {
        match self.next_char() {
            Some(c) => ends_constant(comma, c),
            None => true,
        }
    }

    /// Reads a constant from its first character on, so many times.
    fn read_constant(&mut self, comma: bool, count: u32) -> Token
        requires sound { IsSound self.old }
        requires there { self.old.at < length self.old.line }
        ensures sound { IsSound self.new }
        ensures split { (ending : Condition) (to_come : List (List ℕ)) →
            constant_at comma ending count (ahead self.old to_come) ≡ split_by comma ending result self.new to_come }
    {
        self.count = count;
        let c = self.line.bytes()[self.at];
        if is_mark(c) {
            self.at += 1;
            return Token::Opened(c);
        }
        self.form = Form::Undelimited;
        self.start = self.at;
        let rest = &self.line.bytes()[self.at..];
        let width = width_to(end_in(comma, rest), rest);
        self.at += width;
        self.end = self.at;
        Token::Constant
    }

    /// Reads what stands behind a repeat count and its asterisk.
    fn read_repeated(&mut self, comma: bool, count: u64) -> Token
        requires { IsSound self.old }
        ensures sound { IsSound self.new }
        ensures split { (ending : Condition) (to_come : List (List ℕ)) →
            repeated comma ending count (ahead self.old to_come) ≡ split_by comma ending result self.new to_come }
    {
        if count == 0 || count > u64::from(u32::MAX) {
            return Token::Stopped(Condition::NO_VALUE);
        }
        if self.has_ended(comma) {
            self.count = count as u32;
            self.form = Form::Null;
            return Token::Constant;
        }
        self.read_constant(comma, count as u32)
    }

    /// Reads a constant, or a repeat count and what is repeated.
    fn read_token(&mut self, comma: bool) -> Token
        requires sound { IsSound self.old }
        requires there { self.old.at < length self.old.line }
        ensures sound { IsSound self.new }
        ensures split { (ending : Condition) (to_come : List (List ℕ)) →
            token_at comma ending (ahead self.old to_come) ≡ split_by comma ending result self.new to_come }
    {
        match repeat_count(&self.line.bytes()[self.at..]) {
            Some((count, width)) => {
                self.at += width;
                self.read_repeated(comma, count)
            }
            None => self.read_constant(comma, 1),
        }
    }

    /// Reads a value from its first character on.
    pub fn read_value(&mut self, comma: bool) -> Token
        requires sound { IsSound self.old }
        requires there { self.old.at < length self.old.line }
        ensures sound { IsSound self.new }
        ensures split { (ending : Condition) (to_come : List (List ℕ)) →
            value_at comma ending (ahead self.old to_come) ≡ split_by comma ending result self.new to_come }
    {
        let c = self.line.bytes()[self.at];
        if c == b'/' {
            return Token::Stopped(Condition::Fine);
        }
        if is_separator(comma, c) {
            self.count = 1;
            self.form = Form::Null;
            return Token::Constant;
        }
        self.read_token(comma)
    }

    /// Goes on with a delimited constant: true behind its closing mark, false at the end of the record.
    pub fn read_piece(&mut self, mark: u8) -> Result<bool, AllocError>
        requires { IsSound self.old }
        ensures sound { IsSound self.new }
        ensures count { self.new.count ≡ self.old.count }
        ensures form { self.new.form ≡ self.old.form }
        ensures kept { self.new ≡ record self.old { at = self.new.at; characters = self.new.characters } }
        ensures piece { IfOk result (λ closes. (to_come : List (List ℕ)) →
            with_front self.old.characters (delimited mark false (ahead self.old to_come))
            ≡ piece_end closes mark self.new to_come) }
    {
        'pieces: loop {
            let rest = &self.line.bytes()[self.at..];
            let width = width_to(mark_in(mark, rest), rest);
            self.characters
                .push_all(&self.line.bytes()[self.at..self.at + width])?;
            self.at += width;
            if self.at >= self.line.len() {
                return Ok(false);
            }
            self.at += 1;
            if !stands_at(self.line.bytes(), self.at, mark) {
                return Ok(true);
            }
            self.characters.push_all(&[mark])?;
            self.at += 1;
        }
    }
}
