// Which calls on an object fail.
ghost use Rattle.std.specs.Prelude.{◌≡◌, [], IfOk, IsTrue, ◌↔◌};
ghost use Rattle.fj_outside.specs.Plan.{planned, FailsNext, after_call};

use std::alloc::{AllocError, Global};
use std::marker::Model;

/// The numbers of the calls that fail, from 1 on, and how many calls there were.
#[derive(Drop)]
pub struct Plan {
    fails: Vec<u64>,
    made: u64,
}

impl Model for Plan {
    ghost use Rattle.fj_outside.specs.Plan.{Calls, calls_code};

    ghost Value = { Calls };

    ghost coded = { calls_code };

    ghost view = { λ plan. record { fails = plan.fails.items; made = plan.made } };
}

impl Plan {
    /// A plan by which no call fails. It takes no memory.
    pub fn none(alloc: Global) -> Plan
        ensures { result ≡ planned [] }
    {
        Plan {
            fails: Vec::new(alloc),
            made: 0,
        }
    }

    pub fn new(alloc: Global, fails: &[u64]) -> Result<Plan, AllocError>
        ensures { IfOk result (λ plan. plan ≡ planned fails.now) }
    {
        Ok(Plan {
            fails: Vec::from_slice(alloc, fails)?,
            made: 0,
        })
    }

    pub fn try_clone(&self) -> Result<Plan, AllocError>
        ensures { IfOk result (λ plan. plan ≡ self.now) }
    {
        Ok(Plan {
            fails: self.fails.clone()?,
            made: self.made,
        })
    }

    pub fn made(&self) -> u64
        ensures { result ≡ self.now.made }
    {
        self.made
    }

    pub fn set_made(&mut self, made: u64)
        ensures { self.new ≡ record self.old { made = made } }
    {
        self.made = made;
    }

    /// Counts a call, and answers whether it fails.
    pub fn step(&mut self) -> bool
        ensures fails { IsTrue result ↔ FailsNext self.old }
        ensures counted { self.new ≡ after_call self.old }
    {
        self.made = self.made.saturating_add(1);
        self.fails.contains(&self.made)
    }
}
