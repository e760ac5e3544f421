// The parentheses that are open while a format is read (ISO/IEC 1539-1:2004, 10.2).
ghost use Rattle.std.specs.Prelude.{◌≡◌, [], ◌∷◌, length, MatchOption, OnOk, OnErr};

use crate::item::FormatItems;
use std::alloc::{AllocError, Global};
use std::marker::Model;

/// An outer pair of parentheses that is still open: what was read in it, and how often the inner one
/// is repeated; `None` where that is the one of the unlimited item.
#[derive(Drop)]
pub struct Level {
    pub r: Option<u32>,
    pub items: FormatItems,
}

/// The outer pairs, the innermost first.
#[derive(Drop)]
pub struct Levels {
    stack: Vec<Level>,
}

impl Model for Levels {
    ghost use Rattle.std.specs.Prelude.{List, reverse};
    ghost use Rattle.fj_format.specs.declared.level.Level.{Level};
    ghost use Rattle.fj_format.specs.contracts.item.FormatItem as item;
    ghost use Rattle.std.specs.Coded.{codes};

    ghost Value = { List Level };

    ghost coded = { Prim.hlevel (codes, item.the_row.coded) };

    ghost view = { λ s. reverse s.stack.items };
}

impl Levels {
    pub fn new(alloc: Global) -> Levels
        ensures { result ≡ [] }
    {
        Levels {
            stack: Vec::new(alloc),
        }
    }

    pub fn len(&self) -> usize
        ensures { result ≡ length self.now }
    {
        self.stack.len()
    }

    pub fn push(&mut self, level: Level) -> Result<(), AllocError>
        ensures ok { OnOk result (self.new ≡ level ∷ self.old) }
        ensures err { OnErr result (self.new ≡ self.old) }
    {
        self.stack.push(level)?;
        Ok(())
    }

    pub fn pop(&mut self) -> Option<Level>
        ensures { MatchOption result ((self.old ≡ []) × (self.new ≡ [])) (λ level. self.old ≡ level ∷ self.new) }
    {
        self.stack.pop()
    }
}
