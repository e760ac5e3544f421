// What was waited for, as one goes back from a statement.

use crate::effect::{all_defined, place_of};
use crate::spot::Spot;
use fj_modes::Question;
use fj_statement::{Operand, Statement, Transfer, UnitRef};
use fj_value::Place;
use std::alloc::{AllocError, Global};

/// How many units or places are kept apart.
const MOST: usize = 64;

/// What the statements wait for that stand between a transfer and the one from which one goes back.
#[derive(Drop)]
pub struct Waits {
    alloc: Global,
    /// Units whose transfers were all waited for.
    units: Vec<u32>,
    /// Places of such units, which nothing between defines.
    held: Vec<Place>,
    /// Places of identifiers whose transfers were waited for, which nothing between defines.
    ids: Vec<Place>,
    /// Whether transfers of other units, too, may have been waited for.
    open: bool,
}

/// Takes off what a statement defines.
fn forget(places: &mut Vec<Place>, defined: &[Spot]) {
    for spot in defined {
        places.retain(|place| !spot.meets(Spot::of(*place)));
    }
}

impl Waits {
    pub fn new(alloc: Global) -> Waits {
        Waits {
            alloc,
            units: Vec::new(alloc),
            held: Vec::new(alloc),
            ids: Vec::new(alloc),
            open: false,
        }
    }

    /// Goes back over what a statement defines.
    fn forget(&mut self, statement: &Statement) -> Result<(), AllocError> {
        if self.held.is_empty() && self.ids.is_empty() {
            return Ok(());
        }
        let defined = all_defined(self.alloc, statement)?;
        forget(&mut self.held, &defined);
        forget(&mut self.ids, &defined);
        Ok(())
    }

    /// Goes back over a statement that is no transfer with ASYNCHRONOUS='YES'.
    pub fn go_back(&mut self, statement: &Statement) -> Result<(), AllocError> {
        self.forget(statement)?;
        match statement {
            Statement::OpenUnit { unit, .. }
            | Statement::CloseUnit { unit, .. }
            | Statement::Move { unit, .. } => self.wait_for(*unit),
            Statement::WaitFor { unit, id, .. } => match id {
                None => self.wait_for(*unit),
                Some(id) => self.wait_for_id(id),
            },
            Statement::Inquire { asked, .. } => {
                for wanted in asked.as_slice() {
                    if wanted.what == Question::Pending {
                        self.open = true;
                    }
                }
                Ok(())
            }
            Statement::Transfer(transfer) => self.wait_for(transfer.unit),
            Statement::Assign { .. } | Statement::End => Ok(()),
        }
    }

    /// All transfers of a unit are waited for.
    fn wait_for(&mut self, unit: UnitRef) -> Result<(), AllocError> {
        match unit {
            UnitRef::Number(number) => {
                if self.units.contains(&number) {
                    return Ok(());
                }
                if self.units.len() < MOST {
                    self.units.push(number)?;
                } else {
                    self.open = true;
                }
                Ok(())
            }
            UnitRef::Held { place, .. } => {
                self.open = true;
                if self.held.len() < MOST && !self.held.contains(&place) {
                    self.held.push(place)?;
                }
                Ok(())
            }
            UnitRef::Star | UnitRef::New { .. } | UnitRef::Internal(_) => Ok(()),
        }
    }

    /// The transfer of an identifier is waited for, and may be all of its unit.
    fn wait_for_id(&mut self, id: &Operand) -> Result<(), AllocError> {
        self.open = true;
        match place_of(id) {
            Some(place) if self.ids.len() < MOST && !self.ids.contains(&place) => {
                Ok(self.ids.push(place)?)
            }
            _ => Ok(()),
        }
    }

    /// Goes back over the statement of a transfer with ASYNCHRONOUS='YES', and answers whether it was surely waited for.
    pub fn ends(&mut self, statement: &Statement, transfer: &Transfer) -> Result<bool, AllocError> {
        let is_named = match transfer.id {
            Some(place) => self.ids.contains(&place),
            None => false,
        };
        self.forget(statement)?;
        let is_waited = match transfer.unit {
            UnitRef::Number(number) => self.units.contains(&number),
            UnitRef::Held { place, .. } => self.held.contains(&place),
            UnitRef::Star | UnitRef::New { .. } | UnitRef::Internal(_) => true,
        };
        Ok(is_named || is_waited)
    }

    /// Whether a transfer that is not surely waited for is surely pending: it met no condition, or the deck would have stopped.
    pub fn leaves(&self, transfer: &Transfer) -> bool {
        let is_numbered = matches!(transfer.unit, UnitRef::Number(_));
        is_numbered && !self.open && transfer.iostat.is_none()
    }
}
