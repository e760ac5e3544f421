//! The pending transfers of a run with the answers that their jobs had: which a statement waits for, what telling them does to the
//! variables, and what a statement may not do beside them (ISO/IEC 1539-1:2004, 9.5.1.4, 9.6).
#![tactic(auto)]

mod answers;
mod busy;
mod deliver;
mod held;
mod lost;
mod mark;
mod needs;
mod pendings;
mod pick;
mod places;
mod removal;
mod runs;
mod tell;
mod whose;

pub use held::{Held, Told};
pub use lost::Lost;
pub use needs::check;
pub use pendings::Pendings;
pub use runs::runs_held;
pub use tell::Tell;
pub use whose::{Whose, is_idle, waits_for};
