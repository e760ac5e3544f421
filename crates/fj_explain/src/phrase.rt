// A sentence that names variables, in parts.

use crate::holder::MOST_NAMES;
use crate::spot::Spot;
use fj_statement::Variable;
use std::alloc::{AllocError, Global};

#[derive(Drop)]
pub struct Phrase<'a> {
    alloc: Global,
    variables: &'a [Variable],
    out: Vec<u8>,
}

impl<'a> Phrase<'a> {
    pub fn new(alloc: Global, variables: &'a [Variable]) -> Phrase<'a> {
        Phrase {
            alloc,
            variables,
            out: Vec::new(alloc),
        }
    }

    pub fn text(&mut self, text: &str) -> Result<(), AllocError> {
        self.out.extend_from_slice(text.as_bytes())
    }

    pub fn number<N: ToString + Drop>(&mut self, number: N) -> Result<(), AllocError> {
        let digits = number.to_string(self.alloc)?;
        self.text(digits.as_str())
    }

    /// Whether it is an array as a whole.
    pub fn is_array(&self, spot: Spot) -> bool {
        match self.variables.get(spot.var as usize) {
            Some(variable) => variable.count > 0 && spot.index == 0,
            None => false,
        }
    }

    pub fn spot(&mut self, spot: Spot) -> Result<(), AllocError> {
        let Some(variable) = self.variables.get(spot.var as usize) else {
            return self.text("a variable");
        };
        self.out.extend_from_slice(variable.name.bytes())?;
        if variable.count == 0 || spot.index == 0 {
            return Ok(());
        }
        self.text("(")?;
        self.number(spot.index)?;
        self.text(")")
    }

    /// The first few, with a word before the last of them.
    pub fn spots(&mut self, spots: &[Spot], word: &str) -> Result<(), AllocError> {
        let most = spots.len().min(MOST_NAMES);
        for (at, spot) in spots.iter().enumerate() {
            if at >= most {
                break;
            }
            if at > 0 {
                self.text(if at + 1 < most { ", " } else { word })?;
            }
            self.spot(*spot)?;
        }
        Ok(())
    }

    pub fn line(self) -> String {
        match String::from_utf8(self.out) {
            Ok(line) => line,
            Err(_) => String::new(self.alloc),
        }
    }
}
