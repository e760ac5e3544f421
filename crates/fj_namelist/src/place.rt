// Where the values of a group go (ISO/IEC 1539-1:2004, 10.10.1).
use fj_value::{Condition, Kind};

/// Elements of a member: its first cell and its number of cells.
#[derive(Clone, Copy)]
pub struct Elements {
    pub kind: Kind,
    pub first: u32,
    pub count: u32,
}

/// What is due.
#[derive(Clone, Copy)]
pub enum GroupPlace {
    /// An assignment, or the slash.
    Due,
    /// A value for an element, counted from 0; whether a separator makes a null value.
    At(Elements, u32, bool),
}

/// What a token, or a part of one, leads to.
#[derive(Clone, Copy)]
pub enum Filled {
    /// The next element.
    To(u32),
    Stopped(Condition),
}

#[derive(Clone, Copy)]
pub enum Taken {
    On(GroupPlace),
    Stopped(Condition),
}

/// The beginning of an assignment: its elements, if there are such, and how many tokens it takes behind its first one.
#[derive(Clone, Copy)]
pub struct Begun {
    pub place: Option<GroupPlace>,
    pub more: usize,
}

/// Where a token leads, and how many tokens behind it were taken too.
#[derive(Clone, Copy)]
pub struct Next {
    pub taken: Taken,
    pub more: usize,
}
