// Who hears of members as they end.

use fj_job::Status;

/// Hears of a member that ended, by its name, as its thread is done with it. Nothing of it is part of a contract.
pub trait Hears {
    fn ended(&self, name: &[u8], status: Status);
}

/// Nobody hears of them.
pub struct Unheard;

impl Hears for Unheard {
    fn ended(&self, _name: &[u8], _status: Status) {}
}
