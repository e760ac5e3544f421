//! What carries values through a statement: the elements of a variable, the cells of its items with their order, and the items of an output.
#![tactic(auto)]

mod cells;
mod elements;
mod items;
mod load;
mod moved;

pub use cells::{Cells, define};
pub use elements::{Element, Elements, Owned, any_undefined};
pub use items::{Item, OutputItems, Run, Values};
pub use load::{Load, Shape, undefine};
pub use moved::{GroupMember, Moved, Order, Row};
