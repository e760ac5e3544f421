//! Variables: a value at each place, or none where it is moved out; and runs of places and tables by place, which the book of
//! pending transfers uses too.
#![tactic(auto)]

mod copied;
mod kinds;
mod laws;
mod lent;
mod piece;
mod rows;
mod run;
mod runs;
mod slot;
mod slots;
mod store;
mod table;
mod taken;

pub use laws::{
    all_comes_back, cells_are_distinct, cells_come_back, items_have_cells, just_these_are_out,
    outputs_have_cells, places_come_back, reads_come_back,
};
pub use lent::Lent;
pub use piece::Piece;
pub use run::Run;
pub use runs::Runs;
pub use store::Store;
pub use table::Table;
pub use taken::position;
