// What a READ or WRITE itself tells.
ghost use Rattle.std.specs.Prelude.{◌≡◌, List, is_some};
ghost use Rattle.fj_modes.specs.Words.{same_access};
ghost use Rattle.fj_modes.specs.declared.specifiers.Access.TheVariants.{Direct, Stream};
ghost use Rattle.fj_value.specs.declared.value.Cell.{Cell};
ghost use Rattle.fj_meaning.specs.Transfers.{layout_of, refusal};
ghost use Rattle.fj_statement.specs.declared.deck.Variable.{Variable};
ghost use Rattle.fj_transfer.specs.Transfer.{is_formatted, is_explicit, differ, is_unfit, is_forbidden};

use fj_modes::{Access, Action, Modes};
use fj_statement::{Control, Transfer};
use fj_value::Condition;

fn is_direct(access: Access) -> bool
    ensures { result ≡ same_access access Direct }
{
    match access {
        Access::Direct => true,
        Access::Sequential | Access::Stream => false,
    }
}

fn is_stream(access: Access) -> bool
    ensures { result ≡ same_access access Stream }
{
    match access {
        Access::Stream => true,
        Access::Sequential | Access::Direct => false,
    }
}

pub(crate) fn is_formatted(control: &Control) -> bool
    ensures { (variables : List Variable) (cells : List Cell) → result ≡ is_formatted (layout_of variables cells control.now) }
{
    match control {
        Control::Unformatted => false,
        Control::Explicit(_) | Control::Listed | Control::Group { .. } => true,
    }
}

fn is_explicit(control: &Control) -> bool
    ensures { (variables : List Variable) (cells : List Cell) → result ≡ is_explicit (layout_of variables cells control.now) }
{
    match control {
        Control::Explicit(_) => true,
        Control::Unformatted | Control::Listed | Control::Group { .. } => false,
    }
}

fn differ(a: bool, b: bool) -> bool
    ensures { result ≡ differ a b }
{
    if a { !b } else { b }
}

/// Whether the format or a specifier is not for the connection.
fn is_unfit(modes: &Modes, t: &Transfer) -> bool
    ensures { (variables : List Variable) (cells : List Cell) → result
        ≡ is_unfit modes.now (layout_of variables cells t.now.control) (is_some t.now.advance) (is_some t.now.rec) (is_some t.now.pos) }
{
    let formatted = is_formatted(&t.control);
    let explicit = is_explicit(&t.control);
    let direct = is_direct(modes.access);
    differ(modes.formatted, formatted)
        || differ(t.rec.is_some(), direct)
        || (t.pos.is_some() && !is_stream(modes.access))
        || (direct && (t.advance.is_some() || (formatted && !explicit)))
}

fn is_forbidden(action: Action, input: bool) -> bool
    ensures { result ≡ is_forbidden action input }
{
    match action {
        Action::Read => !input,
        Action::Write => input,
        Action::ReadWrite => false,
    }
}

/// 2 where the unit is not open for asynchronous transfer, then 16 where the statement does not go with the connection, then 10
/// where the connection does not allow it; else fine.
pub fn refusal(modes: &Modes, t: &Transfer) -> Condition
    ensures { (variables : List Variable) (cells : List Cell) → result ≡ refusal modes.now t.now (layout_of variables cells t.now.control) }
{
    if t.asynchronous.unwrap_or(false) && !modes.asynchronous {
        return Condition::NOT_ASYNCHRONOUS;
    }
    if is_unfit(modes, t) {
        return Condition::UNFIT;
    }
    if is_forbidden(modes.action, t.input) {
        return Condition::FORBIDDEN_ACTION;
    }
    Condition::Fine
}
