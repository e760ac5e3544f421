// The input/output statements from their tokens (ISO/IEC 1539-1:2004, 9.4 to 9.9).
ghost use Rattle.std.specs.Prelude.{◌≡◌, ◌++◌, [], ◌∷◌, Bool, true, false, List};
ghost use Rattle.fj_syntax.specs.Calls.{on_unit, open_of, close_of, wait_of, move_of, asking, asked_of, subject_of, inquire_of, transfer_of};
ghost use Rattle.std.specs.Option.{option_to_list};
ghost use Rattle.fj_syntax.specs.Reading.{Gives};

use crate::arguments::{given_for, whole_call};
use crate::fault::{Read, SyntaxFault};
use crate::given::{
    file, file_given, format, group, integer, mode, place, recl, unit, unit_given, unit_opened,
};
use crate::operand::{Argument, Given, Operand};
use crate::token::Token;
use crate::words::Keyword;
use crate::words::Specifier::{self, Property};
use crate::written::{Asking, Inquire, OnUnit, Subject, Transfer, Unit};
use fj_modes::{
    Access, Action, Answer, Blank, Decimal, Disposition, FileStatus, Form, Motion, OpenSpec,
    Question, Sign, Start,
};
use fj_value::{Delim, Items};
use std::alloc::Global;

/// A unit and IOSTAT= beside what else a statement says.
fn on_unit<T: Drop>(unit: Unit, what: T, arguments: &[Argument]) -> Read<OnUnit<T>>
    ensures { Gives (λ x. x) result (on_unit unit what arguments.now) }
{
    let iostat = place(arguments, Specifier::Iostat)?;
    Ok(OnUnit { unit, what, iostat })
}

#[tactic(auto, unfolding(crate::specs::Calls::open_of))]
pub fn make_open(alloc: Global, tokens: &[Token<'_>]) -> Read<OnUnit<OpenSpec>>
    ensures { Gives (λ x. x) result (open_of tokens.now) }
{
    let arguments = whole_call(alloc, Keyword::Open, tokens)?;
    let arguments = arguments.as_slice();
    let spec = OpenSpec {
        file: file(alloc, arguments)?,
        status: mode::<FileStatus>(arguments, Specifier::Status)?,
        access: mode::<Access>(arguments, Property(Question::Access))?,
        formatted: mode::<Form>(arguments, Property(Question::Form))?,
        recl: recl(arguments)?,
        position: mode::<Start>(arguments, Specifier::Position)?,
        action: mode::<Action>(arguments, Property(Question::Action))?,
        blank_zero: mode::<Blank>(arguments, Property(Question::Blank))?,
        delim: mode::<Delim>(arguments, Property(Question::Delim))?,
        pad: mode::<Answer>(arguments, Property(Question::Pad))?,
        comma: mode::<Decimal>(arguments, Property(Question::Decimal))?,
        plus: mode::<Sign>(arguments, Property(Question::Sign))?,
        asynchronous: mode::<Answer>(arguments, Property(Question::Asynchronous))?,
    };
    on_unit(unit_opened(arguments)?, spec, arguments)
}

pub fn make_close(alloc: Global, tokens: &[Token<'_>]) -> Read<OnUnit<Option<bool>>>
    ensures { Gives (λ x. x) result (close_of tokens.now) }
{
    let arguments = whole_call(alloc, Keyword::Close, tokens)?;
    let keep = mode::<Disposition>(arguments.as_slice(), Specifier::Status)?;
    on_unit(
        unit(false, arguments.as_slice())?,
        keep,
        arguments.as_slice(),
    )
}

pub fn make_wait(alloc: Global, tokens: &[Token<'_>]) -> Read<OnUnit<Option<Operand>>>
    ensures { Gives (λ x. x) result (wait_of tokens.now) }
{
    let arguments = whole_call(alloc, Keyword::Wait, tokens)?;
    let id = integer(arguments.as_slice(), Specifier::Id)?;
    on_unit(unit(false, arguments.as_slice())?, id, arguments.as_slice())
}

pub fn make_move(alloc: Global, how: Motion, tokens: &[Token<'_>]) -> Read<OnUnit<Motion>>
    ensures { Gives (λ x. x) result (move_of how tokens.now) }
{
    let arguments = whole_call(alloc, Keyword::Move(how), tokens)?;
    on_unit(
        unit(false, arguments.as_slice())?,
        how,
        arguments.as_slice(),
    )
}

/// The question of an argument, if it asks one.
fn asking_of(argument: &Argument) -> Read<Option<Asking>>
    ensures { Gives option_to_list result (asking argument.now.specifier argument.now.value) }
{
    match (argument.specifier, &argument.value) {
        (Property(what), Given::Operand(Operand::Place(place))) => Ok(Some(Asking {
            what,
            place: place.try_clone()?,
        })),
        (Property(_), _) => Err(SyntaxFault::NotAStatement),
        _ => Ok(None),
    }
}

/// The questions, in order.
fn asked_of(alloc: Global, arguments: &[Argument]) -> Read<Items<Asking>>
    ensures { Gives (λ x. x) result (asked_of arguments.now) }
{
    let mut asked = Items::new(alloc);
    for argument in arguments {
        if let Some(asking) = asking_of(argument)? {
            asked.push(asking)?;
        }
    }
    Ok(asked)
}

/// A unit or a file, and not both.
fn subject(alloc: Global, arguments: &[Argument]) -> Read<Subject>
    ensures { Gives (λ x. x) result (subject_of arguments.now) }
{
    match (
        given_for(arguments, Specifier::Unit),
        given_for(arguments, Specifier::File),
    ) {
        (Some(unit), None) => Ok(Subject::Unit(unit_given(false, unit)?)),
        (None, Some(file)) => Ok(Subject::File(file_given(alloc, file)?)),
        _ => Err(SyntaxFault::NotAStatement),
    }
}

#[tactic(auto, unfolding(crate::specs::Calls::inquire_of))]
pub fn make_inquire(alloc: Global, tokens: &[Token<'_>]) -> Read<Inquire>
    ensures { Gives (λ x. x) result (inquire_of tokens.now) }
{
    let arguments = whole_call(alloc, Keyword::Inquire, tokens)?;
    let arguments = arguments.as_slice();
    Ok(Inquire {
        about: subject(alloc, arguments)?,
        asked: asked_of(alloc, arguments)?,
        id: integer(arguments, Specifier::Id)?,
        iostat: place(arguments, Specifier::Iostat)?,
    })
}

/// READ or WRITE.
#[tactic(auto, unfolding(crate::specs::Calls::transfer_of))]
pub fn make_transfer(input: bool, arguments: &[Argument], items: Items<Operand>) -> Read<Transfer>
    ensures { Gives (λ x. x) result (transfer_of input arguments.now items) }
{
    Ok(Transfer {
        input,
        unit: unit(!input, arguments)?,
        format: format(arguments)?,
        group: group(arguments)?,
        advance: mode::<Answer>(arguments, Specifier::Advance)?,
        asynchronous: mode::<Answer>(arguments, Property(Question::Asynchronous))?,
        blank_zero: mode::<Blank>(arguments, Property(Question::Blank))?,
        comma: mode::<Decimal>(arguments, Property(Question::Decimal))?,
        delim: mode::<Delim>(arguments, Property(Question::Delim))?,
        pad: mode::<Answer>(arguments, Property(Question::Pad))?,
        plus: mode::<Sign>(arguments, Property(Question::Sign))?,
        rec: integer(arguments, Specifier::Rec)?,
        pos: integer(arguments, Property(Question::Pos))?,
        id: place(arguments, Specifier::Id)?,
        size: place(arguments, Property(Question::Size))?,
        iostat: place(arguments, Specifier::Iostat)?,
        items,
    })
}
