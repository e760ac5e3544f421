//! Records under construction: the line that a statement writes (ISO/IEC 1539-1:2004, 10.7.1), and the records of an output with
//! their limits.
#![tactic(auto)]

mod laws;
mod line;
mod moves;
mod page;
mod place;
mod unwritten;

pub use laws::{nothing_is_too_long, output_is_exact, records_are_texts, texts_are_of_maps};
pub use line::Line;
pub use moves::{MOST_BYTES, Move};
pub use page::Page;
pub use unwritten::Unwritten;
