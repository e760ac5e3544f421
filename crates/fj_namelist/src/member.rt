// Members of a group, and what tokens give to their elements (ISO/IEC 1539-1:2004, 10.10.1).
ghost use Rattle.std.specs.Prelude.{◌≡◌, ◌+◌, ◌<◌, ◌≤◌, length, IfOk, List, ℕ, false};
ghost use Rattle.std.specs.Option.{option_copied};
ghost use Rattle.fj_value.specs.declared.value.Cell.{Cell};
ghost use Rattle.fj_moved.specs.Cells.{places_of};
ghost use Rattle.fj_namelist.specs.Names.{member_of, behind_star, repeat_in};
ghost use Rattle.fj_namelist.specs.GroupInput.{Result, elements, element_of, place_of, constant_read, given_to, filled, word_given, no_value, separated, value_taken, due_condition, taken};
ghost use Rattle.fj_namelist.specs.Walker.{goes, fills, takes, IsPlace, IsTaken};

use crate::names::{behind_star, repeat_in, same_name};
use crate::place::{Elements, Filled, GroupPlace, Taken};
use crate::token::Token;
use fj_list::{Form, Read, read_as};
use fj_moved::{Cells, GroupMember, define};
use fj_value::{Condition, Kind};
use std::alloc::{AllocError, Global};

/// The first member of a name.
fn member_of<'a>(members: &'a [GroupMember], name: &[u8]) -> Option<&'a GroupMember>
    ensures { option_copied result ≡ member_of members.now name.now }
{
    members
        .iter()
        .find(|member| same_name(member.name.bytes(), name))
}

fn element_of(member: &GroupMember, subscript: Option<u64>) -> Option<GroupPlace>
    ensures { result ≡ element_of member.now subscript }
{
    let _count = member.count;
    let all = Elements {
        kind: member.kind,
        first: member.first,
        count: member.count,
    };
    let Some(n) = subscript else {
        return Some(GroupPlace::At(all, 0, true));
    };
    if member.scalar || n == 0 || n > u64::from(member.count) {
        return None;
    }
    Some(GroupPlace::At(all, (n - 1) as u32, true))
}

/// Where the values of an assignment go.
pub fn place_of(members: &[GroupMember], name: &[u8], subscript: Option<u64>) -> Option<GroupPlace>
    ensures { result ≡ place_of (member_of members.now name.now) subscript }
{
    element_of(member_of(members, name)?, subscript)
}

fn constant_read(alloc: Global, kind: Kind, form: Form, chars: &[u8]) -> Result<Read, AllocError>
    ensures { IfOk result (λ read. read ≡ constant_read kind form chars.now) }
{
    match (kind, form) {
        (Kind::Chars(_), Form::Undelimited) => Ok(Read::Wrong(Condition::NO_VALUE)),
        _ => read_as(alloc, kind, form, chars),
    }
}

/// Gives a constant to an element. It answers the condition where it is not of the element's kind.
fn give(
    alloc: Global,
    cells: &mut Cells,
    e: Elements,
    i: u32,
    form: Form,
    chars: &[u8],
) -> Result<Option<Condition>, AllocError>
    requires { e.first + i < length cells.old }
    ensures given { IfOk result (λ end. (next : List Cell → Result) →
        given_to (constant_read e.kind form chars.now) e i cells.old next ≡ goes end cells.new next) }
    ensures places { places_of cells.new ≡ places_of cells.old }
    ensures count { length cells.new ≡ length cells.old }
{
    match constant_read(alloc, e.kind, form, chars)? {
        Read::Null => Ok(None),
        Read::Wrong(condition) => Ok(Some(condition)),
        Read::Defined(value) => {
            define(cells, e.first as usize + i as usize, value);
            Ok(None)
        }
    }
}

/// Gives a constant to so many elements, from one on.
fn fill(
    alloc: Global,
    cells: &mut Cells,
    e: Elements,
    i: u32,
    form: Form,
    chars: &[u8],
    count: u32,
) -> Result<Filled, AllocError>
    requires { e.first + e.count ≤ length cells.old }
    ensures filled { IfOk result (λ to. (next : ℕ → List Cell → Result) →
        filled e form chars.now count i cells.old next ≡ fills to cells.new next) }
    ensures places { places_of cells.new ≡ places_of cells.old }
    ensures count { length cells.new ≡ length cells.old }
{
    let mut at = i;
    for k in 0..count {
        if at >= e.count {
            return Ok(Filled::Stopped(Condition::NOT_IN_GROUP));
        }
        if let Some(condition) = give(alloc, cells, e, at, form, chars)? {
            return Ok(Filled::Stopped(condition));
        }
        at += 1;
    }
    Ok(Filled::To(at))
}

/// Gives a word's constant, or its null values.
fn give_word(
    alloc: Global,
    cells: &mut Cells,
    e: Elements,
    i: u32,
    word: &[u8],
) -> Result<Filled, AllocError>
    requires { e.first + e.count ≤ length cells.old }
    ensures given { IfOk result (λ to. (next : ℕ → List Cell → Result) →
        word_given (repeat_in word.now) (behind_star word.now) word.now e i cells.old next ≡ fills to cells.new next) }
    ensures places { places_of cells.new ≡ places_of cells.old }
    ensures count { length cells.new ≡ length cells.old }
{
    match repeat_in(word) {
        None => fill(alloc, cells, e, i, Form::Undelimited, word, 1),
        Some(None) => Ok(Filled::Stopped(Condition::NO_VALUE)),
        Some(Some(count)) => match behind_star(word) {
            [] => fill(alloc, cells, e, i, Form::Null, b"", count),
            chars => fill(alloc, cells, e, i, Form::Undelimited, chars, count),
        },
    }
}

fn separated(e: Elements, i: u32, begins: bool) -> Taken
    ensures taken { (cells : List Cell) (next : GroupPlace → List Cell → Result) →
        separated e i begins cells next ≡ takes result cells next }
    ensures there { (cells : ℕ) → e.first + e.count ≤ cells → IsTaken cells result }
{
    if !begins {
        return Taken::On(GroupPlace::At(e, i, true));
    }
    if i >= e.count {
        return Taken::Stopped(Condition::NOT_IN_GROUP);
    }
    Taken::On(GroupPlace::At(e, i + 1, true))
}

fn behind_value(e: Elements, to: Filled) -> Taken
    ensures taken { (cells : List Cell) (next : GroupPlace → List Cell → Result) →
        fills to cells (λ i cells'. next (GroupPlace.At e i false) cells') ≡ takes result cells next }
    ensures there { (cells : ℕ) → e.first + e.count ≤ cells → IsTaken cells result }
{
    match to {
        Filled::To(i) => Taken::On(GroupPlace::At(e, i, false)),
        Filled::Stopped(condition) => Taken::Stopped(condition),
    }
}

/// Takes a token among the values of a member.
fn take_value(
    alloc: Global,
    cells: &mut Cells,
    token: &Token,
    e: Elements,
    i: u32,
    begins: bool,
) -> Result<Taken, AllocError>
    requires { e.first + e.count ≤ length cells.old }
    ensures taken { IfOk result (λ on. (next : GroupPlace → List Cell → Result) →
        value_taken token.now e i begins cells.old next ≡ takes on cells.new next) }
    ensures there { IfOk result (λ on. IsTaken (length cells.new) on) }
    ensures places { places_of cells.new ≡ places_of cells.old }
    ensures count { length cells.new ≡ length cells.old }
{
    match token {
        Token::Separator => Ok(separated(e, i, begins)),
        Token::Word(word) => Ok(behind_value(e, give_word(alloc, cells, e, i, word.bytes())?)),
        Token::Constant(count, chars) => {
            let to = fill(alloc, cells, e, i, Form::Delimited, chars.bytes(), *count)?;
            Ok(behind_value(e, to))
        }
        Token::Equals if i >= e.count => Ok(Taken::Stopped(Condition::NOT_IN_GROUP)),
        Token::Equals | Token::Wrong => Ok(Taken::Stopped(Condition::NO_VALUE)),
        Token::Open(condition) | Token::End(condition) => Ok(Taken::Stopped(*condition)),
        Token::Slash => Ok(Taken::Stopped(Condition::Fine)),
    }
}

fn due_condition(token: &Token) -> Condition
    ensures { result ≡ due_condition token.now }
{
    match token {
        Token::Slash => Condition::Fine,
        Token::End(condition) => *condition,
        _ => Condition::BAD_GROUP_TEXT,
    }
}

/// Takes a token that is no part of a name.
pub fn take_token(
    alloc: Global,
    cells: &mut Cells,
    token: &Token,
    place: GroupPlace,
) -> Result<Taken, AllocError>
    requires { IsPlace (length cells.old) place }
    ensures taken { IfOk result (λ on. (next : GroupPlace → List Cell → Result) →
        taken token.now place cells.old next ≡ takes on cells.new next) }
    ensures there { IfOk result (λ on. IsTaken (length cells.new) on) }
    ensures places { places_of cells.new ≡ places_of cells.old }
    ensures count { length cells.new ≡ length cells.old }
{
    match place {
        GroupPlace::Due => Ok(Taken::Stopped(due_condition(token))),
        GroupPlace::At(e, i, begins) => take_value(alloc, cells, token, e, i, begins),
    }
}
