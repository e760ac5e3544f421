// The answer to one question, as a value for a variable of a kind (ISO/IEC 1539-1:2004, 9.9.1).
ghost use Rattle.std.specs.Prelude.{◌≡◌, IfOk};
ghost use Rattle.fj_inquire.specs.Inquiring.{value_for, edit_word, record_length, next_record, position, size, connected_answer, unit_answer, file_answer, answer_to};
ghost use Rattle.fj_inquire.specs.Asking.{seen};

use crate::about::About;
use crate::connected::Connected;
use crate::values::{count, count_behind, number, word};
use fj_connect::Look;
use fj_modes::{
    Access, Action, Answer, Blank, Decimal, FileName, Form, Modes, Question, Sign, WordKind,
};
use fj_value::{Delim, Kind, Value};
use std::alloc::{AllocError, Global};

/// The word of what has no other.
const UNDEFINED: &str = "UNDEFINED";

/// The word of a mode of formatted editing.
fn edit_word(alloc: Global, modes: &Modes, mode: &str, kind: Kind) -> Result<Value, AllocError>
    ensures { IfOk result (λ value. value ≡ value_for kind (edit_word modes.now mode.now)) }
{
    if modes.formatted {
        return word(alloc, kind, mode);
    }
    word(alloc, kind, UNDEFINED)
}

fn record_length(modes: &Modes, kind: Kind) -> Value
    ensures { result ≡ value_for kind (record_length modes.now) }
{
    if modes.access == Access::Stream {
        return Value::Undefined;
    }
    count(kind, u64::from(modes.recl))
}

fn next_record(modes: &Modes, look: Option<Look>, kind: Kind) -> Value
    ensures { result ≡ value_for kind (next_record modes.now look) }
{
    match look {
        Some(look) if modes.access == Access::Direct => count(kind, look.spot.next_number),
        _ => Value::Undefined,
    }
}

fn position(modes: &Modes, look: Option<Look>, kind: Kind) -> Value
    ensures { result ≡ value_for kind (position modes.now look) }
{
    match look {
        Some(look) if modes.access == Access::Stream => count_behind(kind, look.spot.at),
        _ => Value::Undefined,
    }
}

fn size(look: Option<Look>, kind: Kind) -> Value
    ensures { result ≡ value_for kind (size look) }
{
    match look {
        Some(look) => count(kind, look.size),
        None => Value::Undefined,
    }
}

/// Of a connection.
fn connected_answer(
    alloc: Global,
    unit: i64,
    connected: &Connected,
    look: Option<Look>,
    pending: bool,
    what: Question,
    kind: Kind,
) -> Result<Value, AllocError>
    ensures { IfOk result (λ value. value ≡ value_for kind (connected_answer unit connected.now look pending what)) }
{
    let modes = &connected.modes;
    let edit = modes.edit;
    match what {
        Question::Exist | Question::Opened => Ok(Value::Log(true)),
        Question::Number => Ok(number(kind, unit)),
        Question::Named => Ok(Value::Log(!modes.scratch)),
        Question::Name if modes.scratch => Ok(Value::Undefined),
        Question::Name => word(alloc, kind, connected.name.as_str()),
        Question::Access => word(alloc, kind, Access::word(modes.access)),
        Question::Form => word(alloc, kind, Form::word(modes.formatted)),
        Question::Recl => Ok(record_length(modes, kind)),
        Question::Nextrec => Ok(next_record(modes, look, kind)),
        Question::Pos => Ok(position(modes, look, kind)),
        Question::Size => Ok(size(look, kind)),
        Question::Blank => edit_word(alloc, modes, Blank::word(edit.blank_zero), kind),
        Question::Delim => edit_word(alloc, modes, Delim::word(edit.delim), kind),
        Question::Pad => edit_word(alloc, modes, Answer::word(edit.pad), kind),
        Question::Decimal => edit_word(alloc, modes, Decimal::word(edit.comma), kind),
        Question::Sign => edit_word(alloc, modes, Sign::word(edit.plus), kind),
        Question::Action => word(alloc, kind, Action::word(modes.action)),
        Question::Asynchronous => word(alloc, kind, Answer::word(modes.asynchronous)),
        Question::Pending => Ok(Value::Log(pending)),
    }
}

/// Of a unit that is not connected.
fn unit_answer(alloc: Global, what: Question, kind: Kind) -> Result<Value, AllocError>
    ensures { IfOk result (λ value. value ≡ value_for kind (unit_answer what)) }
{
    match what {
        Question::Exist => Ok(Value::Log(true)),
        Question::Opened | Question::Named | Question::Pending => Ok(Value::Log(false)),
        Question::Number | Question::Size => Ok(number(kind, -1)),
        Question::Name | Question::Recl | Question::Nextrec | Question::Pos => Ok(Value::Undefined),
        _ => word(alloc, kind, UNDEFINED),
    }
}

/// Of a file that is not connected.
fn file_answer(
    alloc: Global,
    name: &FileName,
    exists: bool,
    what: Question,
    kind: Kind,
) -> Result<Value, AllocError>
    ensures { IfOk result (λ value. value ≡ value_for kind (file_answer name.now exists what)) }
{
    match what {
        Question::Exist => Ok(Value::Log(exists)),
        Question::Named => Ok(Value::Log(true)),
        Question::Name => word(alloc, kind, name.as_str()),
        _ => unit_answer(alloc, what, kind),
    }
}

/// Of what is asked about.
pub(crate) fn answer(
    alloc: Global,
    about: About,
    what: Question,
    kind: Kind,
) -> Result<Value, AllocError>
    ensures { IfOk result (λ value. value ≡ value_for kind (answer_to (seen about.entry) what)) }
{
    match about {
        About::Connection(unit, connected, look, pending) => {
            connected_answer(alloc, unit, connected, look, pending, what, kind)
        }
        About::Unit => unit_answer(alloc, what, kind),
        About::File(name, exists) => file_answer(alloc, name, exists, what, kind),
    }
}
