// One statement in terms of places. A variable stands in it by its number, from 0 on.
ghost use Rattle.std.specs.Prelude.{◌≡◌};
ghost use Rattle.fj_statement.specs.Units.{looked, number_held, unit_of, with_number};

use crate::unit::{Subject, UnitRef};
use fj_format::Format;
use fj_modes::{Asked, Motion, OpenSpec};
use fj_value::{Delim, Items, Kind, Place, Text, Value};

/// A literal with its kind, an element or scalar, or a whole array.
///
/// An integer literal is INTEGER(4) where that holds its value, else INTEGER(8). The kind of a character literal has
/// its length.
#[derive(Drop)]
pub enum Operand {
    Literal { kind: Kind, value: Value },
    One(Place),
    Whole { var: u32 },
}

pub type Operands = Items<Operand>;

/// Numbers of variables.
pub type Vars = Items<u32>;

/// The format of a transfer (ISO/IEC 1539-1:2004, 9.5.1.1).
#[derive(Drop)]
pub enum Control {
    Unformatted,
    Explicit(Format),
    Listed,
    /// NML=, with the members of the group.
    Group { name: Text, vars: Vars },
}

/// READ or WRITE (9.5).
#[derive(Drop)]
pub struct Transfer {
    /// READ.
    pub input: bool,
    pub unit: UnitRef,
    pub control: Control,
    pub items: Operands,
    /// ADVANCE='YES'.
    pub advance: Option<bool>,
    /// ASYNCHRONOUS='YES'.
    pub asynchronous: Option<bool>,
    /// BLANK='ZERO'.
    pub blank_zero: Option<bool>,
    /// DECIMAL='COMMA'.
    pub comma: Option<bool>,
    pub delim: Option<Delim>,
    /// PAD='YES'.
    pub pad: Option<bool>,
    /// SIGN='PLUS'.
    pub plus: Option<bool>,
    /// A literal or a place.
    pub rec: Option<Operand>,
    /// A literal or a place.
    pub pos: Option<Operand>,
    pub id: Option<Place>,
    pub size: Option<Place>,
    pub iostat: Option<Place>,
}

/// A statement.
#[derive(Drop)]
pub enum Statement {
    /// A place, or a whole array, gets a literal or the value of a place.
    Assign {
        to: Operand,
        from: Operand,
    },
    OpenUnit {
        unit: UnitRef,
        spec: OpenSpec,
        iostat: Option<Place>,
    },
    CloseUnit {
        unit: UnitRef,
        /// STATUS='KEEP'.
        keep: Option<bool>,
        iostat: Option<Place>,
    },
    /// WAIT (9.6.1).
    WaitFor {
        unit: UnitRef,
        /// A literal or a place.
        id: Option<Operand>,
        iostat: Option<Place>,
    },
    Move {
        how: Motion,
        unit: UnitRef,
        iostat: Option<Place>,
    },
    /// INQUIRE (9.9).
    Inquire {
        about: Subject,
        asked: Asked,
        /// A literal or a place.
        id: Option<Operand>,
        iostat: Option<Place>,
        /// Whether the transfers that PENDING= asks about are done, where that was looked at: INQUIRE then waits for them. A text leaves it None.
        done: Option<bool>,
    },
    Transfer(Transfer),
    End,
}

impl Statement {
    /// Its unit, where it has one.
    pub fn unit(&self) -> Option<UnitRef>
        ensures { result ≡ unit_of self.now }
    {
        match self {
            Statement::Assign { to: _, from: _ } => None,
            Statement::OpenUnit {
                unit,
                spec: _,
                iostat: _,
            } => Some(*unit),
            Statement::CloseUnit {
                unit,
                keep: _,
                iostat: _,
            } => Some(*unit),
            Statement::WaitFor {
                unit,
                id: _,
                iostat: _,
            } => Some(*unit),
            Statement::Move {
                how: _,
                unit,
                iostat: _,
            } => Some(*unit),
            Statement::Inquire {
                about,
                asked: _,
                id: _,
                iostat: _,
                done: _,
            } => match about {
                Subject::Unit(unit) => Some(*unit),
                Subject::File(_) => None,
            },
            Statement::Transfer(transfer) => Some(transfer.unit),
            Statement::End => None,
        }
    }

    /// Gives its unit another number, where it is of a place.
    pub fn put_number(&mut self, code: u32)
        ensures { self.new ≡ with_number code self.old }
    {
        match self {
            Statement::Assign { to: _, from: _ } => {}
            Statement::OpenUnit {
                unit,
                spec: _,
                iostat: _,
            } => *unit = unit.numbered(code),
            Statement::CloseUnit {
                unit,
                keep: _,
                iostat: _,
            } => *unit = unit.numbered(code),
            Statement::WaitFor {
                unit,
                id: _,
                iostat: _,
            } => *unit = unit.numbered(code),
            Statement::Move {
                how: _,
                unit,
                iostat: _,
            } => *unit = unit.numbered(code),
            Statement::Inquire {
                about,
                asked: _,
                id: _,
                iostat: _,
                done: _,
            } => {
                if let Subject::Unit(unit) = about {
                    *unit = unit.numbered(code);
                }
            }
            Statement::Transfer(transfer) => transfer.unit = transfer.unit.numbered(code),
            Statement::End => {}
        }
    }

    /// INQUIRE gets to know whether the transfers that PENDING= asks about are done, which are of the unit of that number.
    pub fn put_done(&mut self, code: u32, is_done: bool)
        ensures { self.new ≡ looked code is_done self.old }
    {
        if let Statement::Inquire {
            about,
            asked: _,
            id: _,
            iostat: _,
            done,
        } = self
        {
            if let Subject::File(_) = about {
                *about = Subject::Unit(UnitRef::Number(code));
            }
            *done = Some(is_done);
        }
    }

    /// The number that stands in it; 0 where its unit is not of a place.
    pub fn number_held(&self) -> u32
        ensures { result ≡ number_held self.now }
    {
        match self.unit() {
            Some(unit) => unit.held_number(),
            None => 0,
        }
    }
}
