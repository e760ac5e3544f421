//! A READ or WRITE carried out whole on a connection (ISO/IEC 1539-1:2004, 9.5).
#![tactic(auto)]

mod input;
mod output;
mod start;
mod whole;

pub use whole::perform;
