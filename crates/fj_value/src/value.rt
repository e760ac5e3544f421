// Values of variables and literals.
ghost use Rattle.std.specs.Prelude.{◌≡◌, IfOk, OnOk, OnErr};

use crate::{Characters, Kind, Place, Text};
use std::alloc::AllocError;
use std::mem::size_of;

/// A value; a variable that is not defined has `Undefined`.
#[derive(Debug, Drop)]
pub enum Value {
    Undefined,
    /// Of INTEGER(4) or INTEGER(8).
    Int(i64),
    Log(bool),
    Chars(Characters),
}

// A transfer of a million cells moves 32 bytes for each.
const _: () = prove!(size_of::<Value>() == 16);

const _: () = prove!(size_of::<Cell>() == 32);

impl Value {
    /// A value of characters. Want of memory drops them.
    pub fn of_text(text: Text) -> Result<Value, AllocError>
        ensures { IfOk result (λ value. value ≡ Value.Chars text) }
    {
        Ok(Value::Chars(Characters::new(text)?))
    }

    /// Gives it these characters. Takes no memory where it has characters already; want of memory changes nothing.
    pub fn set_chars(&mut self, text: Text) -> Result<(), AllocError>
        ensures ok { OnOk result (self.new ≡ Value.Chars text) }
        ensures err { OnErr result (self.new ≡ self.old) }
    {
        if let Value::Chars(characters) = self {
            let _ = characters.replace(text);
            return Ok(());
        }
        *self = Value::Chars(Characters::new(text)?);
        Ok(())
    }

    pub fn try_clone(&self) -> Result<Value, AllocError>
        ensures { IfOk result (λ value. value ≡ self.now) }
    {
        match self {
            Value::Undefined => Ok(Value::Undefined),
            Value::Int(number) => Ok(Value::Int(*number)),
            Value::Log(truth) => Ok(Value::Log(*truth)),
            Value::Chars(text) => Ok(Value::Chars(text.try_clone()?)),
        }
    }
}

/// The value at a place, with its kind.
#[derive(Debug, Drop)]
pub struct Cell {
    pub place: Place,
    pub kind: Kind,
    pub value: Value,
}
