// READ and WRITE (ISO/IEC 1539-1:2004, 9.5).
ghost use Rattle.std.specs.Prelude.{◌≡◌, IfOk, MatchOption, true, false};
ghost use Rattle.fj_names.specs.Giving.{Gives, each, optional};
ghost use Rattle.fj_names.specs.Scope.{members};
ghost use Rattle.fj_names.specs.Transfer.{parts_with, control_of, is_short};
ghost use Rattle.fj_names.specs.Meaning.{literal_of, Means};
ghost use Rattle.fj_names.specs.Assembling.{ReadsFormat, AreWritten, Makes, Assembles};
ghost use Rattle.fj_syntax.specs.declared.written.Written.TheVariants as written;

use crate::calls::{optional_operand, optional_place};
use crate::fault::Fault;
use crate::items::choose;
use crate::limits::narrow;
use crate::names::Names;
use crate::rules::is_allowed;
use crate::unit::transfer_unit;
use fj_format::{Format, FormatFault, FormatItems, parse_items};
use fj_statement::{Control, Operand, Operands, Statement, Transfer, UnitRef, Vars};
use fj_value::{Items, Place, Text};
use std::alloc::{AllocError, Global};

/// What the names in a transfer stand for.
#[derive(Drop)]
pub struct Parts {
    pub unit: UnitRef,
    /// The members of its group.
    pub group: Option<Vars>,
    pub items: Operands,
    pub rec: Option<Operand>,
    pub pos: Option<Operand>,
    pub id: Option<Place>,
    pub size: Option<Place>,
    pub iostat: Option<Place>,
}

/// The items of an explicit format.
fn format_items(
    alloc: Global,
    format: &Option<fj_syntax::Format>,
) -> Result<Option<FormatItems>, Fault>
    ensures { ReadsFormat (literal_of format.now) result }
{
    let Some(fj_syntax::Format::Literal(text)) = format else {
        return Ok(None);
    };
    narrow(text.len())?;
    match parse_items(alloc, text.bytes()) {
        Ok(items) => Ok(Some(items)),
        Err(FormatFault::Memory(error)) => Err(Fault::Memory(error)),
        Err(FormatFault::NotAFormat { at }) => Err(Fault::Format { at }),
        Err(FormatFault::TooMany) => unreachable!(),
    }
}

fn copied(vars: &Vars) -> Result<Vars, AllocError>
    ensures { IfOk result (λ copy. copy ≡ vars.now) }
{
    let mut copy = Items::new(vars.allocator());
    for var in vars.as_slice() {
        copy.push(*var)?;
    }
    Ok(copy)
}

/// The members of the group of a transfer.
fn optional_group(names: &Names, group: &Option<Text>) -> Result<Option<Vars>, Fault>
    ensures { Gives result (optional (members names.now) group.now) }
{
    match group {
        None => Ok(None),
        Some(name) => match names.members(name.bytes()) {
            Some(vars) => {
                let vars = copied(vars)?;
                Ok(Some(vars))
            }
            None => Err(Fault::NoMeaning),
        },
    }
}

/// With these items.
#[tactic(auto, unfolding(crate::specs::Transfer::parts_with))]
fn parts_with(
    names: &Names,
    transfer: &fj_syntax::Transfer,
    items: Operands,
) -> Result<Parts, Fault>
    ensures { Gives result (parts_with names.now transfer.now items) }
{
    let unit = transfer_unit(names, transfer)?;
    let group = optional_group(names, &transfer.group)?;
    let rec = optional_operand(names, &transfer.rec)?;
    let pos = optional_operand(names, &transfer.pos)?;
    let id = optional_place(names, &transfer.id)?;
    let size = optional_place(names, &transfer.size)?;
    let iostat = optional_place(names, &transfer.iostat)?;
    Ok(Parts {
        unit,
        group,
        items,
        rec,
        pos,
        id,
        size,
        iostat,
    })
}

/// A group with its members, an explicit format, a list-directed one, or none, unless the format is too long.
fn control_of(
    alloc: Global,
    group: Option<Text>,
    vars: Option<Vars>,
    format: &Option<fj_syntax::Format>,
    items: Option<FormatItems>,
) -> Result<Control, Fault>
    requires { AreWritten items }
    ensures { Makes items (control_of group vars format.now items) result }
{
    let format_given = format.is_some();
    let Some(items) = items else {
        return Ok(match (group, vars) {
            (Some(name), Some(vars)) => Control::Group { name, vars },
            _ => {
                if format_given {
                    Control::Listed
                } else {
                    Control::Unformatted
                }
            }
        });
    };
    let Some(format) = Format::of(alloc, items)? else {
        return Err(Fault::TooMany);
    };
    match (group, vars) {
        (Some(name), Some(vars)) => Ok(Control::Group { name, vars }),
        _ => Ok(Control::Explicit(format)),
    }
}

fn copied_name(group: &Option<Text>) -> Result<Option<Text>, AllocError>
    ensures { IfOk result (λ copy. copy ≡ group.now) }
{
    match group {
        None => Ok(None),
        Some(name) => {
            let name = name.try_clone()?;
            Ok(Some(name))
        }
    }
}

/// The statement of these parts, unless its format is too long.
fn assembled(
    alloc: Global,
    transfer: &fj_syntax::Transfer,
    parts: Parts,
    items: Option<FormatItems>,
) -> Result<Statement, Fault>
    requires { AreWritten items }
    ensures { Assembles items transfer.now parts result }
{
    let group = copied_name(&transfer.group)?;
    let control = control_of(alloc, group, parts.group, &transfer.format, items)?;
    Ok(Statement::Transfer(Transfer {
        input: transfer.input,
        unit: parts.unit,
        control,
        items: parts.items,
        advance: transfer.advance,
        asynchronous: transfer.asynchronous,
        blank_zero: transfer.blank_zero,
        comma: transfer.comma,
        delim: transfer.delim,
        pad: transfer.pad,
        plus: transfer.plus,
        rec: parts.rec,
        pos: parts.pos,
        id: parts.id,
        size: parts.size,
        iostat: parts.iostat,
    }))
}

/// What a transfer means. Its format is looked at first, then its meaning, then the limits.
pub fn transferred(
    alloc: Global,
    names: &Names,
    transfer: &fj_syntax::Transfer,
) -> Result<Statement, Fault>
    ensures { Means names.now (written.Transfer transfer.now) result }
{
    let items = format_items(alloc, &transfer.format)?;
    if !is_allowed(&items, transfer) {
        return Err(Fault::NoMeaning);
    }
    let (operands, few) = choose(alloc, names, transfer.items.as_slice())?;
    let parts = parts_with(names, transfer, operands)?;
    if !few {
        return Err(Fault::TooMany);
    }
    assembled(alloc, transfer, parts, items)
}
