//! What a statement moves between variables and transfers, the output on unit `*`, and assignment.
#![tactic(auto)]

mod assignment;
mod collection;
mod copies;
mod element;
mod internal;
mod job;
mod layout;
mod lost;
mod number;
mod refusals;
mod results;
mod sink;
mod star;
mod undefined;

pub use assignment::assign;
pub use internal::transfer_inside;
pub use job::moving;
pub use lost::Lost;
pub use number::{number_given, set_number};
pub use refusals::refusal;
pub use results::{give_back, give_cells};
pub use sink::put_all;
pub use star::{Output, write_star};
pub use undefined::undefine;
