// Namelist output: the records of a group (ISO/IEC 1539-1:2004, 10.10.2).
ghost use Rattle.std.specs.Prelude.{◌≡◌, ◌++◌, [], ◌∷◌, length, All, OnOk, List};
ghost use Rattle.std.specs.Str.{str_to_ascii_uppercase};
ghost use Rattle.fj_value.specs.declared.value.Value.{Value};
ghost use Rattle.fj_line.specs.Page.{at_hand, IsIn, Keeps, Carries};
ghost use Rattle.fj_namelist.specs.GroupText.{parting, values_in, name_shown, continued, member_written, members_written, group_written, IsWithin};
ghost use Rattle.fj_transfer.specs.Printing.{record_actions};
ghost use Rattle.fj_transfer.specs.Writing.{CarriesFirst};

use fj_line::{Page, Unwritten};
use fj_list::{COLUMNS, push_value};
use fj_moved::GroupMember;
use fj_value::{Cell, EditModes, Text, Value};
use std::alloc::AllocError;

fn parting(comma: bool) -> u8
    ensures { result ≡ parting comma }
{
    if comma { b';' } else { b',' }
}

/// Adds a name in upper case.
fn push_upper(line: &mut Text, name: &[u8]) -> Result<(), AllocError>
    ensures { OnOk result (line.new ≡ line.old ++ str_to_ascii_uppercase name.now) }
{
    for c in name {
        line.push_all(&[c.to_ascii_uppercase()])?;
    }
    Ok(())
}

/// Begins a record with a name.
fn begin_line(line: &mut Text, name: &[u8]) -> Result<(), AllocError>
    ensures { OnOk result (line.new ≡ name_shown name.now) }
{
    line.clear();
    line.push_all(b" ")?;
    push_upper(line, name)?;
    line.push_all(b"=")
}

/// Writes a whole record.
fn put_line(page: &mut Page, text: &mut Text, line: &[u8]) -> Result<(), Unwritten>
    requires { IsIn page.old text.old }
    ensures done { Carries (at_hand page.old text.old) (record_actions (line.now ∷ [])) result (at_hand page.new text.new) }
    ensures within { OnOk result (IsIn page.new text.new) }
    ensures kept { Keeps page.old text.old page.new text.new }
{
    page.put(text, line)?;
    page.end_record(text)
}

/// Adds a value to a record. Where it would pass the last column, that record ends with what parts them, and the value
/// begins the next one.
fn put_next(
    page: &mut Page,
    text: &mut Text,
    modes: EditModes,
    line: &mut Text,
    value: &Value,
) -> Result<(), Unwritten>
    requires { IsIn page.old text.old }
    ensures done { (rest : List Value) → CarriesFirst (at_hand page.old text.old) (record_actions (continued modes line.old (value.now ∷ rest))) result
        (at_hand page.new text.new) (record_actions (continued modes line.new rest)) }
    ensures within { OnOk result (IsIn page.new text.new) }
    ensures kept { Keeps page.old text.old page.new text.new }
{
    let end = line.len();
    line.push_all(&[parting(modes.comma)])?;
    push_value(line, modes, value)?;
    if line.len() <= COLUMNS {
        return Ok(());
    }
    line.truncate(end);
    line.push_all(&[parting(modes.comma)])?;
    put_line(page, text, line.bytes())?;
    line.clear();
    line.push_all(b" ")?;
    push_value(line, modes, value)?;
    Ok(())
}

/// Writes the records of a member from one that has begun on.
fn put_rest(
    page: &mut Page,
    text: &mut Text,
    modes: EditModes,
    line: &mut Text,
    cells: &[Cell],
) -> Result<(), Unwritten>
    requires { IsIn page.old text.old }
    ensures done { Carries (at_hand page.old text.old) (record_actions (continued modes line.old (values_in cells.now))) result (at_hand page.new text.new) }
    ensures within { OnOk result (IsIn page.new text.new) }
    ensures kept { Keeps page.old text.old page.new text.new }
{
    for cell in cells {
        put_next(page, text, modes, line, &cell.value)?;
    }
    put_line(page, text, line.bytes())
}

/// Writes the records of a member.
fn put_member(
    page: &mut Page,
    text: &mut Text,
    modes: EditModes,
    line: &mut Text,
    name: &[u8],
    cells: &[Cell],
) -> Result<(), Unwritten>
    requires { IsIn page.old text.old }
    ensures done { Carries (at_hand page.old text.old) (record_actions (member_written modes name.now (values_in cells.now))) result (at_hand page.new text.new) }
    ensures within { OnOk result (IsIn page.new text.new) }
    ensures kept { Keeps page.old text.old page.new text.new }
{
    begin_line(line, name)?;
    match cells {
        [] => put_line(page, text, line.bytes()),
        [first, rest @ ..] => {
            push_value(line, modes, &first.value)?;
            put_rest(page, text, modes, line, rest)
        }
    }
}

/// Writes the records of members, one after another.
fn put_members(
    page: &mut Page,
    text: &mut Text,
    modes: EditModes,
    line: &mut Text,
    members: &[GroupMember],
    cells: &[Cell],
) -> Result<(), Unwritten>
    requires members { All (IsWithin (length cells.now)) members.now }
    requires within { IsIn page.old text.old }
    ensures done { Carries (at_hand page.old text.old) (record_actions (members_written modes members.now cells.now)) result (at_hand page.new text.new) }
    ensures within { OnOk result (IsIn page.new text.new) }
    ensures kept { Keeps page.old text.old page.new text.new }
{
    for member in members {
        let first = member.first as usize;
        let of_member = &cells[first..first + member.count as usize];
        put_member(page, text, modes, line, member.name.bytes(), of_member)?;
    }
    Ok(())
}

/// Writes the records of a group: its name, each member with its values, and a slash.
pub fn put_group(
    page: &mut Page,
    text: &mut Text,
    modes: EditModes,
    name: &[u8],
    members: &[GroupMember],
    cells: &[Cell],
) -> Result<(), Unwritten>
    requires members { All (IsWithin (length cells.now)) members.now }
    requires within { IsIn page.old text.old }
    ensures done { Carries (at_hand page.old text.old) (record_actions (group_written modes name.now members.now cells.now)) result (at_hand page.new text.new) }
    ensures within { OnOk result (IsIn page.new text.new) }
    ensures kept { Keeps page.old text.old page.new text.new }
{
    let mut line = Text::new(text.allocator());
    line.push_all(b" &")?;
    push_upper(&mut line, name)?;
    put_line(page, text, line.bytes())?;
    put_members(page, text, modes, &mut line, members, cells)?;
    put_line(page, text, b" /")
}
