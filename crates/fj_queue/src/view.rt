//! What a seat knows.
use crate::named::Named;
use std::collections::LinkedList;

/// A plan: the engine that the slot starts with, and all its jobs as plain data where they are known. Contracts alone see it.
pub struct Agenda<E, T> {
    pub start: E,
    pub jobs: Option<LinkedList<T>>,
}

/// What a seat at the table knows. No value of it is made.
pub struct View<E, T> {
    pub plan: Option<Agenda<E, T>>,
    /// It is the submitter's.
    pub sends: bool,
    /// It is a hand's.
    pub works: bool,
    pub holds: bool,
    /// It has the cell.
    pub out: bool,
    pub turns: u64,
    /// The words 1 to 4 as it saw them in its last turn.
    pub submissions: Option<u64>,
    pub progress: Option<u64>,
    pub tells: Option<u64>,
    pub stop: Option<u64>,
    /// The number of the job that it runs.
    pub runs: Option<u64>,
    pub ended: u64,
    pub sent: u64,
    pub heard: u64,
    pub hands: u64,
    /// Each job that it was told is done.
    pub answered: bool,
    /// The stop that it was told, or 0, and how many jobs were done then.
    pub stopped: u64,
    pub stopped_at: u64,
}

/// What a queue begins with: its plan, how many jobs were submitted and told before, and whether these are done.
pub struct Start<E, T> {
    pub plan: Named<Option<Agenda<E, T>>>,
    pub sent: u64,
    pub heard: u64,
    pub answered: bool,
}

impl<E, T> Drop for Start<E, T> {
    fn drop(self) {
        let Self {
            plan: _,
            sent: _,
            heard: _,
            answered: _,
        } = self;
    }
}
