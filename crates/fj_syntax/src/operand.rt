// What statements are made of: designators, operands, and the arguments of an input/output statement.

use crate::token::Sign;
use crate::words::Specifier;
use fj_value::{Items, Text};

/// A name, and the number in parentheses behind it: the subscript of an element, or where it is declared the
/// number of its elements.
#[derive(Drop)]
pub struct Designator {
    /// In upper case.
    pub name: Text,
    /// 1 to 1,000,000.
    pub number: Option<u32>,
}

/// A literal or a place.
#[derive(Drop)]
pub enum Operand {
    Number {
        sign: Sign,
        /// Below 10 to the 19th.
        amount: u64,
    },
    Truth(bool),
    Literal(Text),
    Place(Designator),
}

/// What is given for a specifier.
#[derive(Drop)]
pub enum Given {
    Asterisk,
    Operand(Operand),
}

#[derive(Drop)]
pub struct Argument {
    pub specifier: Specifier,
    pub value: Given,
}

pub type Arguments = Items<Argument>;
