//! Input fields: the value that a data edit descriptor makes of a field's characters (ISO/IEC 1539-1:2004, 10.6).
//! The field is the characters as they are handed in, whatever the descriptor's width.
#![tactic(auto)]

mod bits;
mod general;
mod integer;
mod laws;
mod logical;
mod number;
mod text;
mod trim;

pub use bits::read_bits;
pub use general::read_field;
pub use integer::read_int;
pub use laws::leading_blanks_have_no_effect;
pub use logical::read_logical;
pub use text::read_text;
