// A transfer that was told.

use fj_value::Condition;

/// At which line, of which unit, under which identifier, and its condition.
#[derive(Clone, Copy, PartialEq, Eq)]
pub struct Tell {
    pub line: u32,
    pub unit: u32,
    pub id: u32,
    pub condition: Condition,
}
