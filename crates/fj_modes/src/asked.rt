// What INQUIRE asks for.

use fj_value::{Items, Kind, Place};

/// A property that INQUIRE tells (ISO/IEC 1539-1:2004, 9.9.1), named as its specifier.
#[derive(Clone, Copy, Debug, PartialEq, Eq)]
pub enum Question {
    Exist,
    Opened,
    Number,
    Named,
    Name,
    Access,
    Form,
    Recl,
    Nextrec,
    Pos,
    Size,
    Blank,
    Delim,
    Pad,
    Decimal,
    Sign,
    Action,
    Asynchronous,
    Pending,
}

/// A question, and the variable that its answer goes to.
#[derive(Clone, Copy, Debug, PartialEq, Eq)]
pub struct Wanted {
    pub what: Question,
    pub place: Place,
    pub kind: Kind,
}

/// The questions of one INQUIRE statement, in order.
pub type Asked = Items<Wanted>;
