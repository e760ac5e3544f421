// The text of a deck, read line after line.
ghost use Rattle.std.specs.Prelude.{IfOk};
ghost use Rattle.fj_deck.specs.Deck.{Reads};
ghost use Rattle.fj_statement.specs.Sound.{IsSound};

use crate::draft::Draft;
use crate::fault::DeckFault;
use fj_statement::{Deck, Reason};
use fj_syntax::next_line;
use std::alloc::Global;

/// The longest text, in bytes.
pub const MAX_TEXT: usize = 4_194_304;

/// The deck that a text is, or the first line that is refused, with the first of the reasons in the order of `Reason`. Lines are
/// numbered from 1. A text has at most 4,194,304 bytes, and a line 1,000.
pub fn parse_deck(alloc: Global, text: &[u8]) -> Result<Deck, DeckFault>
    ensures answer { Reads text.now result }
    ensures sound { IfOk result IsSound }
{
    if text.len() > MAX_TEXT {
        return Err(DeckFault::Refused {
            line: 1,
            reason: Reason::TextTooLong,
        });
    }
    let mut draft = Draft::new(alloc);
    let mut rest = text;
    let mut number = 1;
    'reading: while let Some((line, more)) = next_line(rest) {
        if let Err(fault) = draft.take(alloc, number, line) {
            return Err(fault.at(number));
        }
        rest = more;
        number += 1;
    }
    if !draft.has_ended() {
        return Err(DeckFault::Refused {
            line: number,
            reason: Reason::NoEnd,
        });
    }
    Ok(draft.into_deck())
}
