// One statement as it is written: what its tokens say, before any name has a meaning.

use crate::operand::{Designator, Operand};
use fj_modes::{FileName, Motion, OpenSpec, Question};
use fj_value::{Boxed, Delim, Items, Kind, Text};

/// A type declaration (ISO/IEC 1539-1:2004, 5.1). The attribute ASYNCHRONOUS has no effect.
#[derive(Drop)]
pub struct Declaration {
    pub kind: Kind,
    pub entities: Items<Designator>,
}

/// NAMELIST (ISO/IEC 1539-1:2004, 5.4).
#[derive(Drop)]
pub struct Group {
    pub name: Text,
    pub members: Items<Text>,
}

/// An assignment (ISO/IEC 1539-1:2004, 7.4.1).
#[derive(Drop)]
pub struct Assignment {
    pub to: Designator,
    pub from: Operand,
}

/// A unit as it is written.
#[derive(Drop)]
pub enum Unit {
    /// `*`, of WRITE alone.
    Star,
    /// 0 to 2,147,483,647.
    Number(u32),
    Place(Designator),
    /// NEWUNIT=, of OPEN alone: the place for the number of the unit.
    New(Designator),
}

/// A statement on a unit (ISO/IEC 1539-1:2004, 9.4 to 9.8), and what it says beside the unit and IOSTAT=.
#[derive(Drop)]
pub struct OnUnit<T> {
    pub unit: Unit,
    pub what: T,
    pub iostat: Option<Designator>,
}

/// What INQUIRE asks about.
#[derive(Drop)]
pub enum Subject {
    Unit(Unit),
    File(FileName),
}

/// A question of INQUIRE, and the place for its answer.
#[derive(Drop)]
pub struct Asking {
    pub what: Question,
    pub place: Designator,
}

/// INQUIRE (ISO/IEC 1539-1:2004, 9.9).
#[derive(Drop)]
pub struct Inquire {
    pub about: Subject,
    /// In order as they are written.
    pub asked: Items<Asking>,
    /// An integer literal or a place.
    pub id: Option<Operand>,
    pub iostat: Option<Designator>,
}

/// The format of a transfer.
#[derive(Drop)]
pub enum Format {
    /// List-directed.
    Asterisk,
    /// A character literal, which need not be a format.
    Literal(Text),
}

/// READ or WRITE (ISO/IEC 1539-1:2004, 9.5).
#[derive(Drop)]
pub struct Transfer {
    /// READ.
    pub input: bool,
    pub unit: Unit,
    pub format: Option<Format>,
    /// NML=.
    pub group: Option<Text>,
    /// ADVANCE='YES'.
    pub advance: Option<bool>,
    /// ASYNCHRONOUS='YES'.
    pub asynchronous: Option<bool>,
    /// BLANK='ZERO'.
    pub blank_zero: Option<bool>,
    /// DECIMAL='COMMA'.
    pub comma: Option<bool>,
    pub delim: Option<Delim>,
    /// PAD='YES'.
    pub pad: Option<bool>,
    /// SIGN='PLUS'.
    pub plus: Option<bool>,
    /// An integer literal or a place.
    pub rec: Option<Operand>,
    /// An integer literal or a place.
    pub pos: Option<Operand>,
    pub id: Option<Designator>,
    pub size: Option<Designator>,
    pub iostat: Option<Designator>,
    pub items: Items<Operand>,
}

/// A declaration or statement.
#[derive(Drop)]
pub enum Written {
    Declaration(Declaration),
    Group(Group),
    Assignment(Assignment),
    Open(OnUnit<OpenSpec>),
    /// CLOSE, and STATUS='KEEP'.
    Close(OnUnit<Option<bool>>),
    /// WAIT, and ID=, which is an integer literal or a place.
    Wait(OnUnit<Option<Operand>>),
    /// BACKSPACE, REWIND, ENDFILE or FLUSH.
    Move(OnUnit<Motion>),
    Inquire(Inquire),
    /// Behind one pointer, so that a statement is small where it is handed on.
    Transfer(Boxed<Transfer>),
    End,
}
