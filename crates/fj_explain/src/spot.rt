// What statements name: elements, scalars and whole variables.

use fj_statement::{Control, InternalFile, Operand, Transfer, UnitRef, Variable};
use fj_value::Place;
use std::alloc::{AllocError, Global};

/// A place, or all places of a variable.
#[derive(Clone, Copy, PartialEq, Eq, PartialOrd, Ord)]
pub struct Spot {
    pub var: u32,
    /// Of an element, or 1 of a scalar; 0 of all places of a variable.
    pub index: u32,
}

impl Spot {
    pub fn of(place: Place) -> Spot {
        Spot {
            var: place.var,
            index: place.index,
        }
    }

    pub fn all(var: u32) -> Spot {
        Spot { var, index: 0 }
    }

    /// The same, a scalar as its one place.
    pub fn settled(self, variables: &[Variable]) -> Spot {
        match variables.get(self.var as usize) {
            Some(variable) if variable.count == 0 => Spot {
                var: self.var,
                index: 1,
            },
            _ => self,
        }
    }

    /// Whether some place is in both.
    pub fn meets(self, other: Spot) -> bool {
        self.covers(other) || other.covers(self)
    }

    /// Whether all places of the other are in it.
    pub fn covers(self, other: Spot) -> bool {
        self.var == other.var && (self.index == 0 || self.index == other.index)
    }
}

pub fn push_given(spots: &mut Vec<Spot>, place: Option<Place>) -> Result<(), AllocError> {
    match place {
        Some(place) => Ok(spots.push(Spot::of(place))?),
        None => Ok(()),
    }
}

/// Puts down what an operand names; a literal names nothing.
pub fn push_operand(spots: &mut Vec<Spot>, operand: &Operand) -> Result<(), AllocError> {
    match operand {
        Operand::Literal { kind: _, value: _ } => Ok(()),
        Operand::One(place) => Ok(spots.push(Spot::of(*place))?),
        Operand::Whole { var } => Ok(spots.push(Spot::all(*var))?),
    }
}

pub fn push_value(spots: &mut Vec<Spot>, value: &Option<Operand>) -> Result<(), AllocError> {
    match value {
        Some(operand) => push_operand(spots, operand),
        None => Ok(()),
    }
}

/// Puts down the items of a transfer, or its group.
pub fn push_items(spots: &mut Vec<Spot>, transfer: &Transfer) -> Result<(), AllocError> {
    for item in transfer.items.as_slice() {
        push_operand(spots, item)?;
    }
    if let Control::Group { name: _, vars } = &transfer.control {
        for var in vars.as_slice() {
            spots.push(Spot::all(*var))?;
        }
    }
    Ok(())
}

/// Puts down the internal file that a unit is.
pub fn push_file(spots: &mut Vec<Spot>, unit: UnitRef) -> Result<(), AllocError> {
    match unit.internal() {
        Some(InternalFile::One(place)) => Ok(spots.push(Spot::of(place))?),
        Some(InternalFile::Whole { var }) => Ok(spots.push(Spot::all(var))?),
        None => Ok(()),
    }
}

/// What a pending transfer holds.
pub fn held(alloc: Global, transfer: &Transfer) -> Result<Vec<Spot>, AllocError> {
    let mut spots = Vec::new(alloc);
    push_items(&mut spots, transfer)?;
    push_given(&mut spots, transfer.size)?;
    Ok(spots)
}

/// Spots in order, each once, that are looked for in other statements.
#[derive(Drop)]
pub struct Sought {
    spots: Vec<Spot>,
}

impl Sought {
    pub fn of(variables: &[Variable], mut spots: Vec<Spot>) -> Sought {
        for at in 0..spots.len() {
            spots[at] = spots[at].settled(variables);
        }
        spots.sort_unstable();
        spots.dedup();
        Sought { spots }
    }

    pub fn spots(&self) -> &[Spot] {
        &self.spots
    }

    /// The numbers of those of a variable: from the first up to the second.
    pub fn of_variable(&self, var: u32) -> (usize, usize) {
        let from = self.spots.partition_point(|spot| spot.var < var);
        let to = self.spots.partition_point(|spot| spot.var <= var);
        (from, to)
    }
}
