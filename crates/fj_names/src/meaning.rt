// Statements.
ghost use Rattle.fj_names.specs.Meaning.{Means};

use crate::assignment::assigned;
use crate::calls::{awaited, closed, inquired, moved, opened};
use crate::fault::Fault;
use crate::names::Names;
use crate::transfer::transferred;
use fj_statement::Statement;
use fj_syntax::Written;
use std::alloc::Global;

/// What a statement means (ISO/IEC 1539-1:2004, 7.4.1 and 9.4 to 9.9). A format is looked at first, then the meaning, then the
/// limits: `Format` comes where a literal is no format, `NoMeaning` for a name that is not declared, a subscript out of bounds, a
/// literal or a kind that does not fit and specifiers that do not go together, `TooMany` past a limit. Declarations mean nothing
/// here.
#[tactic(auto, unfolding(crate::specs::Meaning::meaning, crate::specs::Meaning::is_within_limits))]
pub fn statement(alloc: Global, names: &Names, written: Written) -> Result<Statement, Fault>
    ensures { Means names.now written result }
{
    match written {
        Written::Declaration(_) | Written::Group(_) => Err(Fault::NoMeaning),
        Written::Assignment(assignment) => assigned(names, assignment),
        Written::Open(open) => opened(names, open),
        Written::Close(close) => closed(names, close),
        Written::Wait(wait) => awaited(names, wait),
        Written::Move(motion) => moved(names, motion),
        Written::Inquire(inquire) => inquired(alloc, names, inquire),
        Written::Transfer(transfer) => transferred(alloc, names, transfer.get()),
        Written::End => Ok(Statement::End),
    }
}
