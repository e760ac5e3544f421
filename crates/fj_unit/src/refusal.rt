// What a READ or WRITE tells itself, before it is pending.
ghost use Rattle.std.specs.Prelude.{◌≡◌, false};
ghost use Rattle.fj_modes.specs.Words.{same_access};
ghost use Rattle.fj_modes.specs.declared.specifiers.Access.TheVariants.{Direct};
ghost use Rattle.fj_transfer.specs.Transfer.{is_formatted, is_unfit, is_forbidden};
ghost use Rattle.fj_unit.specs.Statements.{refusal};

use fj_modes::{Access, Action, Modes};
use fj_transfer::Layout;
use fj_value::Condition;

fn is_formatted(layout: &Layout) -> bool
    ensures { result ≡ is_formatted layout.now }
{
    match layout {
        Layout::Unformatted => false,
        Layout::Explicit(_) | Layout::Listed | Layout::Group(..) => true,
    }
}

fn is_direct(access: Access) -> bool
    ensures { result ≡ same_access access Direct }
{
    match access {
        Access::Direct => true,
        Access::Sequential | Access::Stream => false,
    }
}

/// Whether the layout is not for the connection. A transfer here has no REC=, which direct access wants.
fn is_unfit(modes: &Modes, layout: &Layout) -> bool
    ensures { result ≡ is_unfit modes.now layout.now false false false }
{
    let formatted = is_formatted(layout);
    if modes.formatted {
        !formatted || is_direct(modes.access)
    } else {
        formatted || is_direct(modes.access)
    }
}

fn is_forbidden(action: Action, input: bool) -> bool
    ensures { result ≡ is_forbidden action input }
{
    match action {
        Action::Read => !input,
        Action::Write => input,
        Action::ReadWrite => false,
    }
}

/// Its condition.
pub(crate) fn refusal(modes: &Option<Modes>, input: bool, layout: &Layout) -> Condition
    ensures { result ≡ refusal modes.now input layout.now }
{
    let Some(modes) = modes else {
        return Condition::NOT_CONNECTED;
    };
    if !modes.asynchronous {
        return Condition::NOT_ASYNCHRONOUS;
    }
    if is_unfit(modes, layout) {
        return Condition::UNFIT;
    }
    if is_forbidden(modes.action, input) {
        return Condition::FORBIDDEN_ACTION;
    }
    Condition::Fine
}
