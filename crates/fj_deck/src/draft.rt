// The deck so far, line after line.
ghost use Rattle.std.specs.Prelude.{◌≡◌};
ghost use Rattle.fj_deck.specs.Deck.{deck_of};
ghost use Rattle.fj_deck.specs.Seen.{begun_of};
ghost use Rattle.fj_deck.specs.Line.{empty, has_ended, is_declaration, is_end, is_misplaced, Adds, LineIs, Stating, Takes};

use crate::fault::LineFault;
use fj_names::{Names, statement};
use fj_statement::{Deck, Lined, Reason, Statement, Statements};
use fj_syntax::{Written, parse_line};
use fj_value::Items;
use std::alloc::Global;

/// The longest line in bytes, its end not counted.
pub const MAX_LINE: usize = 1_000;

/// The most statements, END among them.
pub const MAX_STATEMENTS: usize = 100_000;

/// What the lines so far say.
#[derive(Drop)]
pub struct Draft {
    pub names: Names,
    pub statements: Statements,
}

/// A type declaration or NAMELIST.
fn is_declaration(written: &Written) -> bool
    ensures { result ≡ is_declaration written.now }
{
    matches!(written, Written::Declaration(_) | Written::Group(_))
}

fn is_end(statement: &Statement) -> bool
    ensures { result ≡ is_end statement.now }
{
    matches!(statement, Statement::End)
}

impl Draft {
    pub fn new(alloc: Global) -> Draft
        ensures { begun_of result ≡ empty }
    {
        Draft {
            names: Names::new(alloc),
            statements: Items::new(alloc),
        }
    }

    /// Whether END is the last statement.
    pub fn has_ended(&self) -> bool
        ensures { result ≡ has_ended self.now.statements }
    {
        match self.statements.as_slice().last() {
            Some(last) => is_end(&last.what),
            None => false,
        }
    }

    /// Whether it stands behind END, or is a declaration behind a statement.
    fn is_misplaced(&self, written: &Written) -> bool
        ensures { result ≡ is_misplaced (begun_of self.now) written.now }
    {
        self.has_ended() || (is_declaration(written) && !self.statements.is_empty())
    }

    /// Adds an executable statement.
    fn state(&mut self, alloc: Global, number: u32, written: Written) -> Result<(), LineFault>
        ensures { Takes (Stating (begun_of self.old) number written) (begun_of self.new) result }
    {
        let what = match statement(alloc, &self.names, written) {
            Ok(what) => what,
            Err(fault) => return Err(LineFault::from(fault)),
        };
        if self.statements.len() >= MAX_STATEMENTS {
            return Err(LineFault::Refused(Reason::TooMany));
        }
        self.statements.push(Lined { line: number, what })?;
        Ok(())
    }

    /// Adds a statement or declaration.
    fn add(&mut self, alloc: Global, number: u32, written: Written) -> Result<(), LineFault>
        ensures { Takes (Adds (begun_of self.old) number written) (begun_of self.new) result }
    {
        match written {
            Written::Declaration(declaration) => Ok(self.names.declare(number, declaration)?),
            Written::Group(group) => Ok(self.names.group(number, group)?),
            written => self.state(alloc, number, written),
        }
    }

    /// Takes the next line. Of a line that is refused nothing is known but that.
    pub fn take(&mut self, alloc: Global, number: u32, line: &[u8]) -> Result<(), LineFault>
        ensures { Takes (LineIs line.now number (begun_of self.old)) (begun_of self.new) result }
    {
        if line.len() > MAX_LINE {
            return Err(LineFault::Refused(Reason::LineTooLong));
        }
        let Some(written) = parse_line(alloc, line)? else {
            return Ok(());
        };
        if self.is_misplaced(&written) {
            return Err(LineFault::Refused(Reason::Syntax));
        }
        self.add(alloc, number, written)
    }

    pub fn into_deck(self) -> Deck
        ensures { result ≡ deck_of (begun_of self) }
    {
        let (variables, groups) = self.names.into_parts();
        Deck {
            variables,
            groups,
            statements: self.statements,
        }
    }
}
