// Which of the places that a statement references can be undefined.

use crate::effect::definitions;
use crate::spot::{Sought, Spot};
use fj_statement::{Lined, Variable};
use std::alloc::{AllocError, Global};

/// What the last statement that can have changed it says of a spot.
#[derive(Clone, Copy, PartialEq, Eq)]
enum Known {
    /// No statement defines it.
    Nothing,
    Defined,
    Doubtful,
}

/// Spots that are not defined.
#[derive(Drop)]
pub struct Undefined {
    pub spots: Vec<Spot>,
    /// Whether none of them is defined; else one of them is not.
    pub surely: bool,
}

/// What is known of the spots that are sought, one by one.
#[derive(Drop)]
struct Looked {
    known: Vec<Known>,
    /// How many of them nothing is known of.
    left: usize,
}

impl Looked {
    /// Takes a spot that a statement defines, surely or maybe.
    fn take(&mut self, sought: &Sought, spot: Spot, surely: bool) {
        let (from, to) = sought.of_variable(spot.var);
        for number in from..to {
            let (Some(one), Some(known)) = (sought.spots().get(number), self.known.get_mut(number))
            else {
                continue;
            };
            if *known != Known::Nothing || !spot.meets(*one) {
                continue;
            }
            self.left = self.left.saturating_sub(1);
            *known = if surely && spot.covers(*one) {
                Known::Defined
            } else {
                Known::Doubtful
            };
        }
    }

    /// The spots of which this is known.
    fn spots(
        &self,
        alloc: Global,
        sought: &Sought,
        as_this: Known,
    ) -> Result<Vec<Spot>, AllocError> {
        let mut spots = Vec::new(alloc);
        for (spot, known) in sought.spots().iter().zip(self.known.iter()) {
            if *known == as_this {
                spots.push(*spot)?;
            }
        }
        Ok(spots)
    }
}

/// Which of the spots that the statement behind these references are not defined.
pub fn find_undefined(
    alloc: Global,
    variables: &[Variable],
    before: &[Lined],
    sought: &Sought,
) -> Result<Undefined, AllocError> {
    let mut known = Vec::new(alloc);
    for _ in sought.spots() {
        known.push(Known::Nothing)?;
    }
    let left = known.len();
    let mut looked = Looked { known, left };
    for lined in before.iter().rev() {
        if looked.left == 0 {
            break;
        }
        let made = definitions(alloc, &lined.what)?;
        for spot in &made.surely {
            looked.take(sought, spot.settled(variables), true);
        }
        for spot in &made.maybe {
            looked.take(sought, spot.settled(variables), false);
        }
    }
    let spots = looked.spots(alloc, sought, Known::Nothing)?;
    if !spots.is_empty() {
        return Ok(Undefined {
            spots,
            surely: true,
        });
    }
    let spots = looked.spots(alloc, sought, Known::Doubtful)?;
    let surely = false;
    Ok(Undefined { spots, surely })
}
