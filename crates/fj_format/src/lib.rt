//! Formats: the reader of their grammar, their items, what one pass of them is, and their text
//! (ISO/IEC 1539-1:2004, 10.1 to 10.3; G0 and the unlimited format item of ISO/IEC 1539-1:2010, 10.3.1).
#![tactic(auto)]

mod count;
mod data;
mod fault;
mod format;
mod item;
mod laws;
mod level;
mod place;
mod printer;
mod reader;
mod scanner;
mod symbol;

pub use data::have_data;
pub use fault::FormatFault;
pub use format::{Format, parse, parse_items};
pub use item::{FormatItem, FormatItems, ModeStep, has_width_zero};
pub use laws::{items_print, passes_unfold, texts_are_unambiguous};
pub use printer::print;
