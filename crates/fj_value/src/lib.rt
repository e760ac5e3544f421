//! Values, kinds, places, conditions and edit descriptors of a deck, the list that all list types are, and a value on the heap.
#![tactic(auto)]

mod boxed;
mod characters;
mod condition;
mod digits;
mod edit;
mod items;
mod kind;
mod place;
mod reading;
mod shown;
mod text;
mod value;

pub use boxed::Boxed;
pub use characters::Characters;
pub use condition::{Condition, Rule};
pub use digits::{digits_are_unique, numerals_are_read, twos_complement_is_exact};
pub use edit::{Delim, Edit, EditModes};
pub use items::Items;
pub use kind::Kind;
pub use place::{Place, Tag};
pub use reading::{signed, truth_of};
pub use shown::{letter_of, sign_of};
pub use text::Text;
pub use value::{Cell, Value};
