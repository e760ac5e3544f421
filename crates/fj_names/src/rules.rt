// Which specifiers and items of READ and WRITE go together (ISO/IEC 1539-1:2004, 9.5.1).
ghost use Rattle.std.specs.Prelude.{◌≡◌};
ghost use Rattle.std.specs.List.{list_all};
ghost use Rattle.fj_names.specs.Transfer.{is_true, is_list_directed, is_explicit, is_place, is_star, changes_some, goes_together, stands_alone, can_be_read, is_allowed};

use fj_format::{FormatItems, has_width_zero};
use fj_syntax::{Format, Operand, Transfer, Unit};

fn is_list_directed(format: &Option<Format>) -> bool
    ensures { result ≡ is_list_directed format.now }
{
    matches!(format, Some(Format::Asterisk))
}

fn is_explicit(format: &Option<Format>) -> bool
    ensures { result ≡ is_explicit format.now }
{
    matches!(format, Some(Format::Literal(_)))
}

fn is_place(operand: &Operand) -> bool
    ensures { result ≡ is_place operand.now }
{
    matches!(operand, Operand::Place(_))
}

fn is_star(unit: &Unit) -> bool
    ensures { result ≡ is_star unit.now }
{
    matches!(unit, Unit::Star)
}

fn changes_some(transfer: &Transfer) -> bool
    ensures { result ≡ changes_some transfer.now }
{
    transfer.blank_zero.is_some()
        || transfer.comma.is_some()
        || transfer.delim.is_some()
        || transfer.pad.is_some()
        || transfer.plus.is_some()
}

/// Specifiers that need others.
fn goes_together(transfer: &Transfer) -> bool
    ensures { result ≡ goes_together transfer.now }
{
    if transfer.id.is_some() && transfer.asynchronous != Some(true) {
        return false;
    }
    if transfer.size.is_some() && transfer.advance.is_none() {
        return false;
    }
    if transfer.advance.is_some() && !is_explicit(&transfer.format) {
        return false;
    }
    !changes_some(transfer) || transfer.format.is_some() || transfer.group.is_some()
}

/// Specifiers and items that exclude others.
fn stands_alone(transfer: &Transfer) -> bool
    ensures { result ≡ stands_alone transfer.now }
{
    let rec = transfer.rec.is_some();
    let pos = transfer.pos.is_some();
    let group = transfer.group.is_some();
    if rec && (pos || is_list_directed(&transfer.format) || group) {
        return false;
    }
    if group && (transfer.format.is_some() || !transfer.items.is_empty()) {
        return false;
    }
    !(is_star(&transfer.unit) && (rec || pos))
}

fn are_places(operands: &[Operand]) -> bool
    ensures { result ≡ list_all is_place operands.now }
{
    operands.iter().all(|operand| is_place(operand))
}

/// Items and formats that READ may have.
fn can_be_read(items: &Option<FormatItems>, operands: &[Operand]) -> bool
    ensures { result ≡ can_be_read items.now operands.now }
{
    match items {
        None => are_places(operands),
        Some(items) => are_places(operands) && !has_width_zero(items),
    }
}

/// Whether a transfer with these items of its format keeps the rules.
#[tactic(auto, unfolding(crate::specs::Transfer::is_allowed))]
pub fn is_allowed(items: &Option<FormatItems>, transfer: &Transfer) -> bool
    ensures { result ≡ is_allowed items.now transfer.now }
{
    if !goes_together(transfer) {
        return false;
    }
    if !stands_alone(transfer) {
        return false;
    }
    !transfer.input || can_be_read(items, transfer.items.as_slice())
}
