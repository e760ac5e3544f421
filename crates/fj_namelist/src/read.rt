// Namelist input.
ghost use Rattle.std.specs.Prelude.{◌≡◌, ◌++◌, ◌∷◌, ◌<◌, ◌≤◌, ◌↔◌, drop, length, IfOk, OnOk, List, ℕ, All, slice_get, ◌+◌, true};
ghost use Rattle.std.specs.Option.{option_copied};
ghost use Rattle.fj_outside.specs.Faults.{Rose};
ghost use Rattle.fj_value.specs.declared.value.Cell.{Cell};
ghost use Rattle.fj_list.specs.ListInput.{condition_of};
ghost use Rattle.fj_moved.specs.Cells.{places_of};
ghost use Rattle.fj_list.specs.Scan.{IsOutcome};
ghost use Rattle.fj_namelist.specs.declared.place.GroupPlace.{GroupPlace};
ghost use Rattle.fj_namelist.specs.GroupText.{IsWithin};
ghost use Rattle.fj_namelist.specs.Tokens.{at_records_end, lines_lexed};
ghost use Rattle.fj_namelist.specs.Names.{designator, subscript_in, with_subscript};
ghost use Rattle.fj_namelist.specs.GroupInput.{Result, ended, name_of, is_equals, name_at, begun_at, either_taken, tokens_taken, group_input};
ghost use Rattle.fj_namelist.specs.Walker.{takes, IsPlace, IsTaken, MayBegin};

use crate::heading::{Found, find_heading};
use crate::lexer::{is_done, lex_line};
use crate::member::{place_of, take_token};
use crate::names::{designator, subscript_in};
use crate::place::{Begun, GroupPlace, Next, Taken};
use crate::token::{State, Token, Tokens};
use fj_list::{Records, next_line};
use fj_moved::{Cells, GroupMember, Moved};
use fj_outside::Stop;
use fj_value::{Condition, EditModes, Items, Text};
use std::alloc::{AllocError, Global};

/// A name that `=` follows.
fn named(members: &[GroupMember], word: &[u8]) -> Option<Begun>
    ensures { result ≡ begun_at members.now (name_of 1 (designator word.now)) }
{
    let name = designator(word)?;
    Some(Begun {
        place: place_of(members, &word[..name.width], name.subscript),
        more: 1,
    })
}

/// A name that a subscript and `=` follow.
fn subscripted(members: &[GroupMember], word: &[u8], next: &[u8]) -> Option<Begun>
    ensures { result ≡ begun_at members.now (name_of 2 (with_subscript (designator word.now) (subscript_in next.now))) }
{
    let name = designator(word)?;
    if name.subscript.is_some() {
        return None;
    }
    let subscript = subscript_in(next)?;
    Some(Begun {
        place: place_of(members, &word[..name.width], Some(subscript)),
        more: 2,
    })
}

fn is_equals(token: Option<&Token>) -> bool
    ensures { result ≡ is_equals (option_copied token.entry) }
{
    matches!(token, Some(Token::Equals))
}

/// The assignment that begins with a token.
fn begun_at(
    members: &[GroupMember],
    token: &Token,
    second: Option<&Token>,
    third: Option<&Token>,
) -> Option<Begun>
    ensures { result ≡ begun_at members.now (name_at token.now (option_copied second.entry) (option_copied third.entry)) }
{
    let Token::Word(word) = token else {
        return None;
    };
    if is_equals(second) {
        return named(members, word.bytes());
    }
    match second {
        Some(Token::Word(next)) if is_equals(third) => {
            subscripted(members, word.bytes(), next.bytes())
        }
        _ => None,
    }
}

/// Takes a token, or the tokens of a name.
fn take_next(
    alloc: Global,
    cells: &mut Cells,
    begun: Option<Begun>,
    token: &Token,
    place: GroupPlace,
) -> Result<Next, AllocError>
    requires place { IsPlace (length cells.old) place }
    requires begun { MayBegin (length cells.old) begun }
    ensures taken { IfOk result (λ to. (next : GroupPlace → ℕ → List Cell → Result) →
        either_taken begun token.now place cells.old next
        ≡ takes to.taken cells.new (λ place' cells'. next place' to.more cells')) }
    ensures there { IfOk result (λ to. IsTaken (length cells.new) to.taken) }
    ensures places { places_of cells.new ≡ places_of cells.old }
    ensures count { length cells.new ≡ length cells.old }
{
    let Some(b) = begun else {
        let taken = take_token(alloc, cells, token, place)?;
        return Ok(Next { taken, more: 0 });
    };
    let taken = match b.place {
        None => Taken::Stopped(Condition::NOT_IN_GROUP),
        Some(to) => Taken::On(to),
    };
    Ok(Next {
        taken,
        more: b.more,
    })
}

fn token_at(tokens: &[Token], at: usize) -> Option<&Token>
    ensures { option_copied result ≡ slice_get tokens.now at }
{
    tokens.get(at)
}

/// Takes the token at a place, with those behind it that belong to it.
fn take_at(
    alloc: Global,
    members: &[GroupMember],
    cells: &mut Cells,
    tokens: &[Token],
    i: usize,
    place: GroupPlace,
) -> Result<Next, AllocError>
    requires there { i < length tokens.now }
    requires within { All (IsWithin (length cells.old)) members.now }
    requires place { IsPlace (length cells.old) place }
    ensures taken { IfOk result (λ to. tokens_taken members.now place 0 (drop i tokens.now) cells.old
        ≡ takes to.taken cells.new
        (λ place' cells'. tokens_taken members.now place' to.more (drop (i + 1) tokens.now) cells')) }
    ensures there { IfOk result (λ to. IsTaken (length cells.new) to.taken) }
    ensures places { places_of cells.new ≡ places_of cells.old }
    ensures count { length cells.new ≡ length cells.old }
{
    let token = &tokens[i];
    let rest = &tokens[i + 1..];
    let begun = begun_at(members, token, token_at(rest, 0), token_at(rest, 1));
    take_next(alloc, cells, begun, token, place)
}

/// Takes the tokens of a group one after another.
fn take_tokens(
    alloc: Global,
    members: &[GroupMember],
    cells: &mut Cells,
    tokens: &[Token],
) -> Result<Condition, AllocError>
    requires { All (IsWithin (length cells.old)) members.now }
    ensures taken { IfOk result (λ condition.
        tokens_taken members.now GroupPlace.Due 0 tokens.now cells.old ≡ ended cells.new condition) }
    ensures places { places_of cells.new ≡ places_of cells.old }
{
    let mut place = GroupPlace::Due;
    let mut skip: usize = 0;
    for i in 0..tokens.len() {
        if skip > 0 {
            skip -= 1;
            continue;
        }
        let next = take_at(alloc, members, cells, tokens, i, place)?;
        match next.taken {
            Taken::Stopped(condition) => return Ok(condition),
            Taken::On(to) => {
                place = to;
                skip = next.more;
            }
        }
    }
    Ok(Condition::Fine)
}

fn last_token(state: &State, condition: Condition) -> Token
    ensures { result ≡ at_records_end condition state.now }
{
    match state {
        State::Inside(_) => Token::Open(condition),
        _ => Token::End(condition),
    }
}

/// Reads the tokens of a group from behind its name on.
fn read_tokens<R: Records>(
    alloc: Global,
    records: &mut R,
    line: &mut Text,
    start: usize,
    comma: bool,
    tokens: &mut Tokens,
) -> Result<(), Stop>
    requires { start ≤ length line.old }
    ensures telling { R.tells records.old ↔ R.tells records.new }
    ensures contents { R.tells records.old →
        let group = lines_lexed comma (condition_of (R.ending records.old)) (State.Between true)
        (drop start line.old ∷ R.to_come records.old) in
        OnOk result ((tokens.new ≡ tokens.old ++ group.tokens) × (R.to_come records.new ≡ group.left)) }
    ensures source { R.source records.new ≡ R.source records.old }
    ensures later { R.count records.old ≤ R.count records.new }
    ensures failed { result ≡ Err Stop.Failed → Rose (R.count records.old) (R.count records.new) }
{
    let mut state = lex_line(
        alloc,
        tokens,
        comma,
        State::Between(true),
        &line.bytes()[start..],
    )?;
    'lines: loop {
        if is_done(&state) {
            return Ok(());
        }
        if let Some(condition) = next_line(records, line)? {
            tokens.push(last_token(&state, condition))?;
            return Ok(());
        }
        state = lex_line(alloc, tokens, comma, state, line.bytes())?;
    }
}

/// Reads a group from the next record on (ISO/IEC 1539-1:2004, 10.10.1). The condition is `Fine`; `NO_GROUP` (22) where the first
/// text is not the group's name; `NOT_IN_GROUP` (23) for a name, a subscript or a value beyond the elements that the group does not
/// have; `BAD_GROUP_TEXT` (24) for other text where a name has to come; `NO_VALUE` (13) or `OUT_OF_RANGE` (14) for a constant that
/// is none for its element; or the one in which the records end before a slash, mostly `EndOfFile`. `next` is called for no record
/// after that of the slash. After a `Stop` nothing is said of the values.
pub fn read_group<R: Records>(
    alloc: Global,
    records: &mut R,
    group: &[u8],
    members: &[GroupMember],
    moved: &mut Moved,
    modes: EditModes,
) -> Result<Condition, Stop>
    requires { All (IsWithin (length moved.old.cells)) members.now }
    ensures order { moved.new.order ≡ moved.old.order }
    ensures places { places_of moved.new.cells ≡ places_of moved.old.cells }
    ensures telling { R.tells records.old ↔ R.tells records.new }
    ensures contents { R.tells records.old → IfOk result (λ condition. IsOutcome condition
        (group_input modes.comma (R.to_come records.old) (condition_of (R.ending records.old))
        group.now members.now moved.old.cells)
        moved.new.cells (R.to_come records.new)) }
    ensures source { R.source records.new ≡ R.source records.old }
    ensures later { R.count records.old ≤ R.count records.new }
    ensures failed { result ≡ Err Stop.Failed → Rose (R.count records.old) (R.count records.new) }
{
    let mut line = Text::new(alloc);
    match find_heading(records, &mut line, group)? {
        Found::Missing(condition) => Ok(condition),
        Found::Misnamed => Ok(Condition::NO_GROUP),
        Found::At(at) => {
            let mut tokens = Items::new(alloc);
            read_tokens(alloc, records, &mut line, at, modes.comma, &mut tokens)?;
            Ok(take_tokens(alloc, members, &mut moved.cells, tokens.as_slice())?)
        }
    }
}
