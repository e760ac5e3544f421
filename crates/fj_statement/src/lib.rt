//! Decks: variables and statements whose names have a meaning, and why a text is none.
#![tactic(auto)]

mod deck;
mod laws;
mod reason;
mod statement;
mod unit;

pub use deck::{Deck, Lined, Statements, Variable, Variables};
pub use laws::named_is_there;
pub use reason::Reason;
pub use statement::{Control, Operand, Operands, Statement, Transfer, Vars};
pub use unit::{
    FIRST_NEW_UNIT, InternalFile, LARGEST_UNIT, Subject, UnitRef, next_new_unit, unit_code,
    unit_number,
};
