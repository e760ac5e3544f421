// Variables, and the statements on their lines.
ghost use Rattle.std.specs.Prelude.{◌≡◌};

use crate::statement::Statement;
use fj_value::{Items, Kind, Text};

/// A variable that is declared.
#[derive(Drop)]
pub struct Variable {
    /// In upper case.
    pub name: Text,
    pub kind: Kind,
    /// The number of its elements; 0 of a scalar.
    pub count: u32,
    /// The line of its declaration, from 1 on.
    pub line: u32,
}

pub type Variables = Items<Variable>;

/// A statement with the number of its line, from 1 on.
#[derive(Drop)]
pub struct Lined {
    pub line: u32,
    pub what: Statement,
}

pub type Statements = Items<Lined>;

/// A deck: its variables in the order of their declarations, and its statements in their order.
#[derive(Drop)]
pub struct Deck {
    pub variables: Variables,
    /// The lines that declare groups.
    pub groups: Items<u32>,
    pub statements: Statements,
}

impl Deck {
    pub fn variables(&self) -> &Variables
        ensures { result.now ≡ self.now.variables }
    {
        &self.variables
    }

    pub fn statements(&self) -> &Statements
        ensures { result.now ≡ self.now.statements }
    {
        &self.statements
    }
}
