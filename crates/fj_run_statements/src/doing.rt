// What a statement does next, and how it goes on from there, as data.
use fj_bay::Job;
use fj_modes::Modes;
use fj_outside::FileStore;
use fj_run_units::Units;
use fj_value::Condition;

/// How a statement goes on once it has the number of its job.
#[derive(Clone, Copy, PartialEq, Eq)]
pub enum Given {
    /// The transfer on a unit is pending, at the slot of its job.
    Pends { unit: u32, slot: u32 },
    /// It ends.
    Finishes(Condition),
}

/// How a statement goes on once a connection is closed.
#[derive(Clone, Copy, PartialEq, Eq)]
pub enum After {
    /// It ends.
    Finishes(Condition),
    /// The other units are closed too, and then it ends.
    ClosesAll(Condition),
    /// OPEN connects the unit of a number.
    Connects { number: u32 },
}

/// How a statement goes on once its job was carried out.
#[derive(Drop)]
pub enum Then {
    /// It ends with the condition of the job.
    Finishes,
    /// The items of a transfer come back; a halt at its slot ends.
    Carries {
        slot: u32,
    },
    /// The connection of a unit went out, and its file is kept or removed.
    Closes {
        number: u32,
        keep: bool,
        after: After,
    },
    /// The connection of a unit has other modes.
    Changes {
        number: u32,
        modes: Modes,
    },
    /// A unit is connected: the units are these then.
    Attaches(Units),
    /// INQUIRE has its look at the connection.
    Looks,
}

/// What a statement does next: it ends with a condition; or gives a job to a slot, and goes on with the job's number, or
/// with what becomes of it.
#[derive(Drop)]
pub enum Doing<F: FileStore> {
    Finishes(Condition),
    Gives { slot: u32, job: Job<F>, next: Given },
    Awaits { slot: u32, job: Job<F>, then: Then },
}
