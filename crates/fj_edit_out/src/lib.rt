//! Output fields: the characters that a data edit descriptor makes of an item (ISO/IEC 1539-1:2004, 10.6).
#![tactic(auto)]

mod adjust;
mod bits;
mod general;
mod integer;
mod laws;
mod logical;
mod row;
mod text;

pub use bits::bits_field;
pub use general::field;
pub use integer::int_field;
pub use laws::fields_fill_their_width;
pub use logical::logical_field;
pub use row::integer_fields;
pub use text::text_field;
