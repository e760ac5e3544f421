// What a turn comes to.
use fj_bay::Job;
use fj_outside::FileStore;
use fj_world::Ask;

/// A turn pauses at an ask, passes on to the next statement, or stops at an ending.
pub(crate) enum Turned<F: FileStore> {
    Pauses(Ask<Job<F>>),
    Passes,
    Stops,
}
