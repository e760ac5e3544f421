// What a bay may be given to do, and what it answers.
use fj_connect::{Connection, Look, Positioning};
use fj_outside::FileStore;
use fj_transfer::Transfer;
use fj_value::{Boxed, Condition, EditModes};

/// A job on the connection of a bay.
#[derive(Drop)]
pub enum Job<F: FileStore> {
    /// Brings a connection. It is gone from the job where the bay took it in.
    Attach(Boxed<Option<Connection<F>>>),
    /// Gets the connection, with no record open.
    Detach(Boxed<Option<Connection<F>>>),
    /// READ or WRITE.
    Move(Boxed<Transfer>),
    /// BACKSPACE, REWIND or ENDFILE.
    Go(Positioning),
    /// Other modes of formatted editing.
    Change(EditModes),
    Flush,
    /// Gets where the connection stands, and the length of its file.
    Look(Boxed<Option<Look>>),
    /// Ends the halt.
    Resume,
}

/// What a job ended with.
#[derive(Clone, Copy, PartialEq, Eq)]
pub enum Answer {
    Done(Condition),
    /// Not carried out in a halt, with its cause.
    Skipped(Condition),
}
