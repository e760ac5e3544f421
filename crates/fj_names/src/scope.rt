// What is declared: variables and namelist groups.

use fj_statement::{Variables, Vars};
use fj_value::{Items, Kind, Text};

/// A namelist group (ISO/IEC 1539-1:2004, 5.4).
#[derive(Drop)]
pub struct Namelist {
    /// In upper case.
    pub name: Text,
    /// Its members, in order.
    pub vars: Vars,
}

pub type Namelists = Items<Namelist>;

/// The variables and groups that are declared, in the order of their declarations. A variable is numbered by its
/// place, from 0 on.
#[derive(Drop)]
pub struct Scope {
    pub variables: Variables,
    pub groups: Namelists,
    /// The line of each group's declaration.
    pub lines: Items<u32>,
}

/// What a name stands for: a variable or a group, by its number.
#[derive(Clone, Copy, PartialEq, Eq)]
pub enum Named {
    Variable(u32),
    Group(u32),
}

/// A variable that a name stands for.
#[derive(Clone, Copy, PartialEq, Eq)]
pub struct Found {
    pub var: u32,
    pub kind: Kind,
    /// The number of its elements; 0 of a scalar.
    pub count: u32,
}
