// A gate, at which a thread waits until another has opened it, but not without end.
ghost use Rattle.std.specs.Prelude.{◌≡◌, IfOk};
ghost use Rattle.fj_outside.specs.Looks.{LooksFor};

use std::alloc::{AllocError, Global};
use std::hint;
use std::sync::Arc;
use std::sync::atomic::{AtomicBool, Ordering};

/// A gate that is closed until it is opened, and then stays open. Its clones are the same gate.
#[derive(Drop)]
pub struct Gate {
    open: Arc<AtomicBool, Global>,
    turns: u64,
}

impl Gate {
    ghost use Rattle.fj_outside.specs.Gate.{turns_of};

    /// A closed gate, at which one looks `turns` times at most.
    pub fn new(alloc: Global, turns: u64) -> Result<Gate, AllocError>
        ensures { IfOk result (λ gate. turns_of gate ≡ turns) }
    {
        Ok(Gate {
            open: Arc::new(alloc, AtomicBool::new(false))?,
            turns,
        })
    }

    pub fn try_clone(&self) -> Result<Gate, AllocError>
        ensures { IfOk result (λ gate. turns_of gate ≡ turns_of self.now) }
    {
        Ok(Gate {
            open: Arc::try_clone(&self.open)?,
            turns: self.turns,
        })
    }

    pub fn open(&self) {
        self.open.store(true, Ordering::SeqCst);
    }

    /// Waits until it is open, and answers whether it was seen open.
    pub fn lets_through(&self) -> bool {
        opens_within(self.turns, || self.open.load(Ordering::SeqCst))
    }
}

/// Looks until a look answers yes, but `turns` times at most, and answers whether one did.
fn opens_within<L: FnMut() -> bool + Drop>(turns: u64, mut look: L) -> bool
    requires { L.IsAlwaysCallable look }
    ensures { LooksFor (λ before answer after. L.step before answer after) look turns result }
{
    for _ in 0..turns {
        if look() {
            return true;
        }
        hint::spin_loop();
    }
    false
}
