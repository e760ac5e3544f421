//! What the names of a deck stand for, and what its statements mean: names are declared, subscripts are in bounds,
//! literals fit, kinds and specifiers go together, and no limit is passed.
#![tactic(auto)]

mod assignment;
mod calls;
mod designator;
mod fault;
mod items;
mod laws;
mod limits;
mod literal;
mod meaning;
mod names;
mod operand;
mod rules;
mod scope;
mod transfer;
mod unit;

pub use fault::Fault;
pub use laws::{meaning_is_sound, one_meaning, rules_are_decided};
pub use meaning::statement;
pub use names::Names;
pub use scope::{Namelist, Namelists, Scope};
