// One line of a deck.
ghost use Rattle.fj_syntax.specs.Parsing.{Parses};

use crate::fault::Read;
use crate::scanner::scanned;
use crate::statement::written;
use crate::written::Written;
use std::alloc::Global;

/// The statement or declaration of a line (ISO/IEC 1539-1:2004, 5.1, 5.4, 7.4.1 and 9.4 to 9.9); `None` where the line is empty but
/// for blanks and a comment. A line that is neither is `NotAStatement`.
///
/// Whether names are declared, subscripts are in bounds and literals fit is not looked at, nor whether a format is one.
#[tactic(auto, using(crate::proofs::ParseLemmas::statement_is, crate::proofs::ParseLemmas::fault_parses))]
pub fn parse_line(alloc: Global, line: &[u8]) -> Read<Option<Written>>
    ensures { Parses line.now result }
{
    let tokens = scanned(alloc, line)?;
    if tokens.is_empty() {
        return Ok(None);
    }
    match written(alloc, tokens.as_slice()) {
        Ok(statement) => Ok(Some(statement)),
        Err(fault) => Err(fault),
    }
}
