// The specifiers of an OPEN statement (ISO/IEC 1539-1:2004, 9.4.5).

use crate::file_name::FileName;
use fj_value::Delim;

/// STATUS= (9.4.5.15).
#[derive(Clone, Copy, Debug, PartialEq, Eq)]
pub enum FileStatus {
    Old,
    New,
    Scratch,
    Replace,
    Unknown,
}

/// ACCESS= (9.4.5.1).
#[derive(Clone, Copy, Debug, PartialEq, Eq)]
pub enum Access {
    Sequential,
    Direct,
    Stream,
}

/// POSITION= (9.4.5.11): where a new connection stands. `AsIs` is the initial point.
#[derive(Clone, Copy, Debug, PartialEq, Eq)]
pub enum Start {
    AsIs,
    Rewind,
    Append,
}

/// ACTION= (9.4.5.2).
#[derive(Clone, Copy, Debug, PartialEq, Eq)]
pub enum Action {
    Read,
    Write,
    ReadWrite,
}

/// The specifiers of one OPEN statement; `None` where one does not stand.
#[derive(Debug, Default, Drop)]
pub struct OpenSpec {
    /// FILE=, without trailing blanks.
    pub file: Option<FileName>,
    pub status: Option<FileStatus>,
    pub access: Option<Access>,
    /// FORM='FORMATTED'.
    pub formatted: Option<bool>,
    /// RECL=, in characters of a formatted record, else in bytes.
    pub recl: Option<u32>,
    pub position: Option<Start>,
    pub action: Option<Action>,
    /// BLANK='ZERO'.
    pub blank_zero: Option<bool>,
    pub delim: Option<Delim>,
    /// PAD='YES'.
    pub pad: Option<bool>,
    /// DECIMAL='COMMA'.
    pub comma: Option<bool>,
    /// SIGN='PLUS'.
    pub plus: Option<bool>,
    /// ASYNCHRONOUS='YES'.
    pub asynchronous: Option<bool>,
}
