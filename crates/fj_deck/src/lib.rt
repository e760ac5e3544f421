//! The text of a deck, read into variables and statements.
#![tactic(auto)]

mod draft;
mod fault;
mod laws;
mod reader;

pub use fault::DeckFault;
pub use fj_statement::{
    Control, Deck, Lined, Operand, Operands, Reason, Statement, Statements, Transfer, Variable,
    Variables, Vars,
};
pub use laws::{decks_are_sound, one_answer, some_answer};
pub use reader::parse_deck;
