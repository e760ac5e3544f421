// Namelist output.
ghost use Rattle.std.specs.Prelude.{◌≡◌, ◌++◌, ◌∷◌, ◌≤◌, ◌-◌, [], List, All, length, map, IfOk, OnOk};
ghost use Rattle.std.specs.Str.{str_to_ascii_uppercase};
ghost use Rattle.fj_value.specs.declared.value.Cell.{Cell};
ghost use Rattle.fj_value.specs.declared.value.Value.{Value};
ghost use Rattle.fj_list.specs.ListText.{text_of};
ghost use Rattle.fj_namelist.specs.GroupText.{parting, text_behind, name_shown, member_written, members_written, values_of, group_written, IsWithin, values_in};
ghost use Rattle.fj_namelist.specs.GroupReadAgain.{IsReadAgain};

use fj_list::{COLUMNS, push_value};
use fj_moved::GroupMember;
use fj_value::{Cell, EditModes, Text, Value};
use std::alloc::{AllocError, Global};

/// Appends a name in upper case.
fn push_upper(out: &mut Text, name: &[u8]) -> Result<(), AllocError>
    ensures { OnOk result (out.new ≡ out.old ++ str_to_ascii_uppercase name.now) }
{
    for c in name {
        out.push_all(&[c.to_ascii_uppercase()])?;
    }
    Ok(())
}

/// Appends a blank, a name and `=`.
fn push_name(out: &mut Text, name: &[u8]) -> Result<(), AllocError>
    ensures { OnOk result (out.new ≡ out.old ++ name_shown name.now) }
{
    out.push_all(b" ")?;
    push_upper(out, name)?;
    out.push_all(b"=")
}

fn parting(comma: bool) -> u8
    ensures { result ≡ parting comma }
{
    if comma { b';' } else { b',' }
}

/// Appends the next value and answers where its record begins.
fn push_next(
    out: &mut Text,
    modes: EditModes,
    start: usize,
    value: &Value,
) -> Result<usize, AllocError>
    requires { start ≤ length out.old }
    ensures within { IfOk result (λ next. next ≤ length out.new) }
    ensures text { IfOk result (λ next. (rest : List Value) →
        out.new ++ text_behind modes (length out.new - next) rest
        ≡ out.old ++ text_behind modes (length out.old - start) (value.now ∷ rest)) }
{
    let end = out.len();
    out.push_all(&[parting(modes.comma)])?;
    push_value(out, modes, value)?;
    if out.len() - start <= COLUMNS {
        return Ok(start);
    }
    out.truncate(end);
    out.push_all(&[parting(modes.comma)])?;
    out.push_all(b"\n ")?;
    let next = out.len() - 1;
    push_value(out, modes, value)?;
    Ok(next)
}

/// Appends more values behind the record that begins at a place, and its line feed.
fn push_rest(
    out: &mut Text,
    modes: EditModes,
    start: usize,
    cells: &[Cell],
) -> Result<(), AllocError>
    requires { start ≤ length out.old }
    ensures { OnOk result (out.new ≡ out.old ++ text_behind modes (length out.old - start) (values_in cells.now)) }
{
    let mut from = start;
    for cell in cells {
        from = push_next(out, modes, from, &cell.value)?;
    }
    out.push_all(b"\n")
}

/// Appends the records of a member with values.
fn push_filled(
    out: &mut Text,
    modes: EditModes,
    name: &[u8],
    first: &Cell,
    rest: &[Cell],
) -> Result<(), AllocError>
    ensures { OnOk result (out.new
        ≡ out.old ++ text_of (member_written modes name.now (first.now.value ∷ values_in rest.now))) }
{
    let start = out.len();
    push_name(out, name)?;
    push_value(out, modes, &first.value)?;
    push_rest(out, modes, start, rest)
}

/// Appends the record of a member without a cell.
fn push_empty(out: &mut Text, modes: EditModes, name: &[u8]) -> Result<(), AllocError>
    ensures { OnOk result (out.new ≡ out.old ++ text_of (member_written modes name.now [])) }
{
    push_name(out, name)?;
    out.push_all(b"\n")
}

/// Appends the records of a member.
fn push_member(
    out: &mut Text,
    modes: EditModes,
    name: &[u8],
    cells: &[Cell],
) -> Result<(), AllocError>
    ensures { OnOk result (out.new ≡ out.old ++ text_of (member_written modes name.now (values_in cells.now))) }
{
    match cells {
        [] => push_empty(out, modes, name),
        [first, rest @ ..] => push_filled(out, modes, name, first, rest),
    }
}

fn push_members(
    out: &mut Text,
    modes: EditModes,
    members: &[GroupMember],
    cells: &[Cell],
) -> Result<(), AllocError>
    requires { All (IsWithin (length cells.now)) members.now }
    ensures { OnOk result (out.new ≡ out.old ++ text_of (members_written modes members.now cells.now)) }
{
    for member in members {
        let first = member.first as usize;
        let of_member = &cells[first..first + member.count as usize];
        push_member(out, modes, member.name.bytes(), of_member)?;
    }
    Ok(())
}

fn group_text(
    alloc: Global,
    group: &[u8],
    members: &[GroupMember],
    cells: &[Cell],
    modes: EditModes,
) -> Result<Text, AllocError>
    requires { All (IsWithin (length cells.now)) members.now }
    ensures { IfOk result (λ text. text ≡ text_of (group_written modes group.now members.now cells.now)) }
{
    let mut out = Text::new(alloc);
    out.push_all(b" &")?;
    push_upper(&mut out, group)?;
    out.push_all(b"\n")?;
    push_members(&mut out, modes, members, cells)?;
    out.push_all(b" /\n")?;
    Ok(out)
}

/// The records of a group, each with a line feed after it (ISO/IEC 1539-1:2004, 10.10.2): the group's name, each member with its
/// values, and a slash. Nothing but want of memory can come.
pub fn write_group(
    alloc: Global,
    group: &[u8],
    members: &[GroupMember],
    cells: &[Cell],
    modes: EditModes,
) -> Result<Text, AllocError>
    requires { All (IsWithin (length cells.now)) members.now }
    ensures text { IfOk result (λ text. text ≡ text_of (group_written modes group.now members.now cells.now)) }

    // With delimiters these records are read again as these values.
    ensures again { IsReadAgain modes group.now members.now cells.now }
{
    group_text(alloc, group, members, cells, modes)
}
