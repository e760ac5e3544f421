//! The text of a deck as lines, each line as tokens, and the tokens as one statement as it is written.
#![tactic(auto)]

mod arguments;
mod calls;
mod class;
mod fault;
mod given;
mod laws;
mod lines;
mod literal;
mod operand;
mod parse;
mod parts;
mod scanner;
mod statement;
mod token;
mod word;
mod words;
mod written;

pub use fault::SyntaxFault;
pub use laws::{arguments_are_taken, names_are_words, one_meaning};
pub use lines::next_line;
pub use operand::{Designator, Operand};
pub use parse::parse_line;
pub use token::Sign;
pub use written::{
    Asking, Assignment, Declaration, Format, Group, Inquire, OnUnit, Subject, Transfer, Unit,
    Written,
};
