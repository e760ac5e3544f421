// Which pending transfers can hold what a statement may not touch.

use crate::spot::{Sought, Spot, held};
use crate::waits::Waits;
use fj_statement::{Lined, Statement, Transfer};
use std::alloc::{AllocError, Global};

/// The most variables that are named.
pub const MOST_NAMES: usize = 4;

/// The transfers that can hold something.
#[derive(Drop)]
pub struct Holders {
    /// The number of the statement of the last one, and a variable that it holds.
    pub last: Option<(usize, u32)>,
    /// Whether an earlier one can, too.
    pub more: bool,
    /// What they hold of what is sought.
    pub spots: Vec<Spot>,
}

impl Holders {
    fn new(alloc: Global) -> Holders {
        Holders {
            last: None,
            more: false,
            spots: Vec::new(alloc),
        }
    }

    /// Whether no more can be said by going on.
    fn is_vague(&self) -> bool {
        self.more && self.spots.len() > MOST_NAMES
    }

    /// Adds a transfer that can hold these.
    fn add(&mut self, at: usize, spots: &[Spot]) -> Result<(), AllocError> {
        match self.last {
            Some(_) => self.more = true,
            None => self.last = spots.first().map(|spot| (at, spot.var)),
        }
        for spot in spots {
            if !self.spots.contains(spot) {
                self.spots.push(*spot)?;
            }
        }
        Ok(())
    }
}

/// What a transfer holds of what is sought.
fn held_of(alloc: Global, sought: &Sought, transfer: &Transfer) -> Result<Vec<Spot>, AllocError> {
    let mut found: Vec<Spot> = Vec::new(alloc);
    let spots = held(alloc, transfer)?;
    for spot in &spots {
        let (from, to) = sought.of_variable(spot.var);
        for number in from..to {
            if let Some(one) = sought.spots().get(number)
                && spot.meets(*one)
                && !found.contains(one)
            {
                found.push(*one)?;
            }
        }
    }
    found.sort_unstable();
    Ok(found)
}

/// The transfer with ASYNCHRONOUS='YES' that a statement is.
pub fn transfer_of(statement: &Statement) -> Option<&Transfer> {
    match statement {
        Statement::Transfer(transfer) if transfer.asynchronous == Some(true) => Some(transfer),
        _ => None,
    }
}

/// The transfers of these statements that can hold what the statement behind them touches: one that surely does alone.
pub fn find_holders(
    alloc: Global,
    before: &[Lined],
    sought: &Sought,
    inputs_alone: bool,
) -> Result<Holders, AllocError> {
    let mut waits = Waits::new(alloc);
    let mut all = Holders::new(alloc);
    for back in 0..before.len() {
        let at = before.len() - 1 - back;
        let statement = &before[at].what;
        let Some(transfer) = transfer_of(statement) else {
            waits.go_back(statement)?;
            continue;
        };
        if waits.ends(statement, transfer)? || (inputs_alone && !transfer.input) {
            continue;
        }
        let found = held_of(alloc, sought, transfer)?;
        if found.is_empty() {
            continue;
        }
        if waits.leaves(transfer) {
            all = Holders::new(alloc);
            all.add(at, &found)?;
            return Ok(all);
        }
        all.add(at, &found)?;
        if all.is_vague() {
            break;
        }
    }
    all.spots.sort_unstable();
    Ok(all)
}
