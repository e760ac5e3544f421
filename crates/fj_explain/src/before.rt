// What stands before the line that is refused.

use fj_names::{Fault, Names};
use fj_syntax::{SyntaxFault, Written, next_line, parse_line};
use std::alloc::{AllocError, Global};

/// The line that is refused, and what the lines before it say.
#[derive(Drop)]
pub struct Before<'a> {
    pub line: &'a [u8],
    pub names: Names,
    /// The line of the first statement.
    pub statement: Option<u32>,
    /// The line of END.
    pub end: Option<u32>,
}

impl<'a> Before<'a> {
    /// Of the line of this number, from 1 on.
    pub fn of(alloc: Global, text: &'a [u8], line: u32) -> Result<Before<'a>, AllocError> {
        let mut before = Before {
            line: b"",
            names: Names::new(alloc),
            statement: None,
            end: None,
        };
        let mut rest = text;
        for number in 1..line {
            let Some((front, behind)) = next_line(rest) else {
                break;
            };
            before.take(alloc, number, front)?;
            rest = behind;
        }
        if let Some((front, _)) = next_line(rest) {
            before.line = front;
        }
        Ok(before)
    }

    /// Takes a line, which is good.
    fn take(&mut self, alloc: Global, number: u32, line: &[u8]) -> Result<(), AllocError> {
        let Some(written) = written(alloc, line)? else {
            return Ok(());
        };
        match written {
            Written::Declaration(declaration) => kept(self.names.declare(number, declaration)),
            Written::Group(group) => kept(self.names.group(number, group)),
            statement => {
                self.state(number, &statement);
                Ok(())
            }
        }
    }

    fn state(&mut self, number: u32, statement: &Written) {
        if matches!(statement, Written::End) {
            self.end = Some(number);
        } else if self.statement.is_none() {
            self.statement = Some(number);
        }
    }

    /// Whether the line is a statement or declaration by itself, so that it stands in the wrong place.
    pub fn is_written(&self, alloc: Global) -> Result<bool, AllocError> {
        let written = written(alloc, self.line)?;
        Ok(written.is_some())
    }
}

/// The statement or declaration of a line, if it is one.
fn written(alloc: Global, line: &[u8]) -> Result<Option<Written>, AllocError> {
    match parse_line(alloc, line) {
        Ok(written) => Ok(written),
        Err(SyntaxFault::NotAStatement) => Ok(None),
        Err(SyntaxFault::Memory(error)) => Err(error),
    }
}

/// Want of memory; of good lines there is no other fault.
fn kept(declared: Result<(), Fault>) -> Result<(), AllocError> {
    match declared {
        Err(Fault::Memory(error)) => Err(error),
        Ok(()) | Err(Fault::Format { .. } | Fault::NoMeaning | Fault::TooMany) => Ok(()),
    }
}
