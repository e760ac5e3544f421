//! What OPEN asks for, the modes of a connection, and what INQUIRE may ask (ISO/IEC 1539-1:2004, 9.4.1, 9.4.5 and 9.9.1).
#![tactic(auto)]

mod asked;
mod edit;
mod file_name;
mod laws;
mod limits;
mod modes;
mod motion;
mod settle;
mod specifiers;
mod words;

pub use asked::{Asked, Question, Wanted};
pub use edit::usual_edit;
pub use file_name::{FileName, is_file_name};
pub use laws::{
    changed_is_consistent, changed_takes_or_keeps, changed_twice_stays, defaults_are_usual,
    in_effect_stays, names_stand_apart, opened_again_stays, settled_is_consistent,
};
pub use limits::{LONGEST_FILE, LONGEST_FORMATTED, LONGEST_UNFORMATTED, limits_are_named};
pub use modes::Modes;
pub use motion::Motion;
pub use settle::settle_open;
pub use specifiers::{Access, Action, FileStatus, OpenSpec, Start};
pub use words::{Answer, Blank, Decimal, Disposition, Form, Sign, WordKind, look_up};
