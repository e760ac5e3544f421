// Where list-directed and namelist input comes to.
use fj_value::Condition;

/// Its condition, and the place behind the last record that it looked at, if there is one.
#[derive(Clone, Copy, Debug, PartialEq, Eq)]
pub struct Reached {
    pub condition: Condition,
    pub place: Option<u64>,
}
