// The items of an output.
use crate::run::Run;
use fj_value::{Kind, Value};

/// Places, or a value of its own that has none.
#[derive(Drop)]
pub enum Piece {
    Places(Run),
    Own(Kind, Value),
}
