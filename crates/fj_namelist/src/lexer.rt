// Records taken apart into tokens, a character after another (ISO/IEC 1539-1:2004, 10.10.1).
ghost use Rattle.std.specs.Prelude.{◌≡◌, ◌∷◌, ◌++◌, [], IfOk};
ghost use Rattle.fj_namelist.specs.Names.{repeat_in, behind_star};
ghost use Rattle.fj_namelist.specs.Tokens.{Adds, at_end, begun, marked, continued, behind, with_character, inside, stepped, at_record_end, line_lexed, is_done};

use crate::names::{behind_star, ends_at_equals, repeat_in};
use crate::token::{Delimited, State, Token, Tokens};
use fj_list::{ends_constant, is_mark, is_separator};
use fj_value::Text;
use std::alloc::{AllocError, Global};

/// What a blank, a separator or a slash leads to.
fn at_end(tokens: &mut Tokens, comma: bool, c: u8) -> Result<State, AllocError>
    ensures { IfOk result (λ state. Adds (at_end comma [] c) tokens.old tokens.new state) }
{
    if c == b'/' {
        tokens.push(Token::Slash)?;
        return Ok(State::Done);
    }
    if is_separator(comma, c) {
        tokens.push(Token::Separator)?;
    }
    Ok(State::Between(true))
}

fn begun(alloc: Global, tokens: &mut Tokens, fresh: bool, c: u8) -> Result<State, AllocError>
    ensures { IfOk result (λ state. Adds (begun fresh c) tokens.old tokens.new state) }
{
    if c == b'=' {
        tokens.push(Token::Equals)?;
        return Ok(State::Between(false));
    }
    if fresh && c == b'!' {
        return Ok(State::Comment);
    }
    if is_mark(c) {
        return Ok(State::Inside(Delimited {
            count: 1,
            mark: c,
            characters: Text::new(alloc),
        }));
    }
    Ok(State::InWord(Text::from_bytes(alloc, &[c])?))
}

fn in_longer_word(mut word: Text, c: u8) -> Result<State, AllocError>
    ensures { IfOk result (λ state. state ≡ State.InWord (word ++ c ∷ [])) }
{
    word.push_all(&[c])?;
    Ok(State::InWord(word))
}

fn marked(alloc: Global, tokens: &mut Tokens, word: Text, c: u8) -> Result<State, AllocError>
    ensures { IfOk result (λ state.
        Adds (marked word c (repeat_in word) (behind_star word)) tokens.old tokens.new state) }
{
    let repeat = repeat_in(word.bytes());
    let alone = behind_star(word.bytes()).is_empty();
    if !alone {
        return in_longer_word(word, c);
    }
    match repeat {
        Some(Some(count)) => Ok(State::Inside(Delimited {
            count,
            mark: c,
            characters: Text::new(alloc),
        })),
        Some(None) => {
            tokens.push(Token::Wrong)?;
            Ok(State::Done)
        }
        None => in_longer_word(word, c),
    }
}

fn continued(alloc: Global, tokens: &mut Tokens, word: Text, c: u8) -> Result<State, AllocError>
    ensures { IfOk result (λ state. Adds (continued word c) tokens.old tokens.new state) }
{
    if c == b'=' && ends_at_equals(word.bytes()) {
        tokens.push(Token::Word(word))?;
        tokens.push(Token::Equals)?;
        return Ok(State::Between(false));
    }
    if is_mark(c) {
        return marked(alloc, tokens, word, c);
    }
    in_longer_word(word, c)
}

fn in_longer_constant(mut constant: Delimited, c: u8) -> Result<State, AllocError>
    ensures { IfOk result (λ state. state ≡ State.Inside (with_character constant c)) }
{
    constant.characters.push_all(&[c])?;
    Ok(State::Inside(constant))
}

fn inside(constant: Delimited, c: u8) -> Result<State, AllocError>
    ensures { IfOk result (λ state. state ≡ inside constant c) }
{
    if c == constant.mark {
        return Ok(State::Behind(constant));
    }
    in_longer_constant(constant, c)
}

fn behind(tokens: &mut Tokens, comma: bool, constant: Delimited, c: u8) -> Result<State, AllocError>
    ensures { IfOk result (λ state. Adds (behind comma constant c) tokens.old tokens.new state) }
{
    if c == constant.mark {
        return in_longer_constant(constant, c);
    }
    if !ends_constant(comma, c) {
        tokens.push(Token::Wrong)?;
        return Ok(State::Done);
    }
    tokens.push(Token::Constant(constant.count, constant.characters))?;
    at_end(tokens, comma, c)
}

fn word_ended(tokens: &mut Tokens, comma: bool, word: Text, c: u8) -> Result<State, AllocError>
    ensures { IfOk result (λ state. Adds (at_end comma (Token.Word word ∷ []) c) tokens.old tokens.new state) }
{
    tokens.push(Token::Word(word))?;
    at_end(tokens, comma, c)
}

fn in_word(
    alloc: Global,
    tokens: &mut Tokens,
    comma: bool,
    word: Text,
    c: u8,
) -> Result<State, AllocError>
    ensures { IfOk result (λ state. Adds (stepped comma (State.InWord word) c) tokens.old tokens.new state) }
{
    if ends_constant(comma, c) {
        word_ended(tokens, comma, word, c)
    } else {
        continued(alloc, tokens, word, c)
    }
}

/// Takes one more character.
fn step(
    alloc: Global,
    tokens: &mut Tokens,
    comma: bool,
    state: State,
    c: u8,
) -> Result<State, AllocError>
    ensures { IfOk result (λ next. Adds (stepped comma state c) tokens.old tokens.new next) }
{
    match state {
        State::Between(fresh) => {
            if ends_constant(comma, c) {
                at_end(tokens, comma, c)
            } else {
                begun(alloc, tokens, fresh, c)
            }
        }
        State::Comment => Ok(State::Comment),
        State::InWord(word) => in_word(alloc, tokens, comma, word, c),
        State::Inside(constant) => inside(constant, c),
        State::Behind(constant) => behind(tokens, comma, constant, c),
        State::Done => Ok(State::Done),
    }
}

/// Takes the end of a record.
fn end_line(tokens: &mut Tokens, state: State) -> Result<State, AllocError>
    ensures { IfOk result (λ next. Adds (at_record_end state) tokens.old tokens.new next) }
{
    match state {
        State::Between(_) | State::Comment => Ok(State::Between(true)),
        State::InWord(word) => {
            tokens.push(Token::Word(word))?;
            Ok(State::Between(true))
        }
        State::Inside(constant) => Ok(State::Inside(constant)),
        State::Behind(constant) => {
            tokens.push(Token::Constant(constant.count, constant.characters))?;
            Ok(State::Between(true))
        }
        State::Done => Ok(State::Done),
    }
}

/// Takes a record, or what is left of one.
pub fn lex_line(
    alloc: Global,
    tokens: &mut Tokens,
    comma: bool,
    state: State,
    line: &[u8],
) -> Result<State, AllocError>
    ensures { IfOk result (λ next. Adds (line_lexed comma state line.now) tokens.old tokens.new next) }
{
    let mut state = state;
    for c in line {
        state = step(alloc, tokens, comma, state, *c)?;
    }
    end_line(tokens, state)
}

pub fn is_done(state: &State) -> bool
    ensures { result ≡ is_done state.now }
{
    matches!(state, State::Done)
}
