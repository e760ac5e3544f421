// The records of a formatted output.
ghost use Rattle.std.specs.Prelude.{◌≡◌, ◌+◌, ◌-◌, ◌==◌, ◌≤◌, ℕ, List, length, take, if◌then◌else◌, IfOk, IfErr, OnOk, OnErr, Ok, All};
ghost use Rattle.fj_value.specs.declared.condition.Condition.TheVariants.{Fine};
ghost use Rattle.fj_line.specs.Actions.{Action, Appends, first_record, output};
ghost use Rattle.fj_line.specs.Page.{at_hand, IsIn, IsAtEnd, Keeps, Carries, told_by};
ghost use Rattle.fj_moved.specs.Items.{items_of, items_left, values_in};
ghost use Rattle.fj_list.specs.Listing.{list_actions};
ghost use Rattle.fj_moved.specs.declared.moved.Moved.{Moved};
ghost use Rattle.fj_namelist.specs.GroupText.{group_written, IsWithin};
ghost use Rattle.fj_transfer.specs.Change.{changed};
ghost use Rattle.fj_transfer.specs.Explicit.{explicit_actions};
ghost use Rattle.fj_transfer.specs.Moving.{members_of};
ghost use Rattle.fj_transfer.specs.Printing.{IsRecords, IsOfItems, record_actions, actions_by, control_of, printed_by};
ghost use Rattle.fj_transfer.specs.Writing.{Prints};

use crate::group::put_group;
use crate::transfer::{Layout, Transfer};
use crate::writer::Writer;
use fj_format::Format;
use fj_line::{Page, Unwritten};
use fj_list::put_list;
use fj_moved::{GroupMember, Load, OutputItems, Shape};
use fj_value::{Condition, EditModes, Text};
use std::alloc::{AllocError, Global};

/// Writes items under an explicit format on a record that begins.
fn write_explicit(
    page: &mut Page,
    text: &mut Text,
    modes: EditModes,
    format: &Format,
    advance: bool,
    items: OutputItems,
) -> Result<(), Unwritten>
    requires { IsIn page.old text.old }
    ensures done { Carries (at_hand page.old text.old) (explicit_actions modes advance format.now (items_left items.entry)) result (at_hand page.new text.new) }
    ensures within { OnOk result (IsIn page.new text.new) }
    ensures kept { Keeps page.old text.old page.new text.new }
{
    let mut writer = Writer {
        page: *page,
        modes,
        items,
        field: Text::new(text.allocator()),
    };
    let written = writer.write(text, format, advance);
    *page = writer.page;
    written
}

/// What is told of an output. After a condition, and want of memory, the text is as it was.
fn finished(
    written: Result<(), Unwritten>,
    end: usize,
    text: &mut Text,
) -> Result<Condition, AllocError>
    ensures ok { OnOk written ((result ≡ Ok Fine) × (text.new ≡ text.old)) }
    ensures err { OnErr written (text.new ≡ take end text.old) }
    ensures told { IfErr written (λ unwritten. result ≡ told_by unwritten) }
{
    match written {
        Ok(()) => Ok(Condition::Fine),
        Err(unwritten) => {
            text.truncate(end);
            unwritten.told()
        }
    }
}

/// The output of items under an explicit format after so many characters of an open record, as `print_records` writes it, with its
/// conditions.
pub fn print_explicit(
    format: &Format,
    advance: bool,
    modes: EditModes,
    items: OutputItems,
    recl: u32,
    begun: u32,
    out: &mut Text,
) -> Result<Condition, AllocError>
    ensures records { IfOk result (λ condition. Appends
        (output (first_record recl begun) (explicit_actions modes advance format.now (items_left items.entry))) out.old condition out.new) }
    ensures err { OnErr result (out.new ≡ out.old) }
{
    let end = out.len();
    let mut page = Page::new(out, recl, begun);
    let written = write_explicit(&mut page, out, modes, format, advance, items);
    finished(written, end, out)
}

/// The list-directed output of items, likewise.
fn print_listed(
    modes: EditModes,
    items: OutputItems,
    recl: u32,
    begun: u32,
    out: &mut Text,
) -> Result<Condition, AllocError>
    ensures records { IfOk result (λ condition. Appends
        (output (first_record recl begun) (list_actions modes (values_in (items_left items.entry)))) out.old condition out.new) }
    ensures err { OnErr result (out.new ≡ out.old) }
{
    let end = out.len();
    let mut page = Page::new(out, recl, begun);
    let written = put_list(&mut page, out, modes, items);
    finished(written, end, out)
}

/// Writes a namelist group on a record that begins.
fn put_cells(
    page: &mut Page,
    text: &mut Text,
    modes: EditModes,
    name: &[u8],
    members: &[GroupMember],
    moved: &Load,
) -> Result<(), Unwritten>
    requires within { IsIn page.old text.old }
    requires cells { All (IsWithin (length moved.now.cells)) members.now }
    ensures done { Carries (at_hand page.old text.old) (record_actions (group_written modes name.now members.now moved.now.cells)) result (at_hand page.new text.new) }
    ensures within { OnOk result (IsIn page.new text.new) }
    ensures kept { Keeps page.old text.old page.new text.new }
{
    match moved.shape() {
        Shape::Cells(moved) => {
            put_group(page, text, modes, name, members, moved.cells.as_slice())
        }
        Shape::Row(row) => {
            let moved = row.to_moved(text.allocator())?;
            put_group(page, text, modes, name, members, moved.cells.as_slice())
        }
    }
}

/// The output of a namelist group, likewise.
fn print_group(
    modes: EditModes,
    name: &[u8],
    members: &[GroupMember],
    moved: &Load,
    recl: u32,
    begun: u32,
    out: &mut Text,
) -> Result<Condition, AllocError>
    requires { All (IsWithin (length moved.now.cells)) members.now }
    ensures records { IfOk result (λ condition. Appends
        (output (first_record recl begun) (record_actions (group_written modes name.now members.now moved.now.cells))) out.old condition out.new) }
    ensures err { OnErr result (out.new ≡ out.old) }
{
    let end = out.len();
    let mut page = Page::new(out, recl, begun);
    let written = put_cells(&mut page, out, modes, name, members, moved);
    finished(written, end, out)
}

/// The formatted output of one statement after `begun` characters of an open record: its records, each with a line feed after it
/// (ISO/IEC 1539-1:2004, 9.5.3.4.2, 10.1, 10.9.2 and 10.10.2). Under an explicit format and ADVANCE='NO' the last one stays open. A
/// condition leaves the output as it was: `NO_DESCRIPTOR` (11) where the part of the format that is used again has no data edit
/// descriptor for the items that are left, `WRONG_DESCRIPTOR` (12) where a descriptor is not for its item, `RECORD_TOO_LONG` (15)
/// where a text takes a record past `recl` characters, `OUTPUT_TOO_LONG` (26) where the records pass 16,777,216 bytes. Of several
/// the first from the left to the right counts, and 15 before 26.
pub fn print_records(
    _alloc: Global,
    job: &Transfer,
    modes: EditModes,
    recl: u32,
    begun: u32,
    out: &mut Text,
) -> Result<Condition, AllocError>
    requires { IsRecords job.now.spec.layout }
    ensures records { IfOk result (λ condition. Appends (output (first_record recl begun)
        (actions_by job.now.spec.layout (control_of job.now.spec.layout) (changed job.now.spec.edit modes) job.now.spec.advance job.now.moved))
        out.old condition out.new) }
    ensures err { OnErr result (out.new ≡ out.old) }
{
    let modes = job.spec.edit.change(modes);
    let items = job.moved.items();
    match &job.spec.layout {
        Layout::Explicit(format) => {
            print_explicit(format, job.spec.advance, modes, items, recl, begun, out)
        }
        Layout::Listed => print_listed(modes, items, recl, begun, out),
        Layout::Group(name, members) => print_group(
            modes,
            name.bytes(),
            members.as_slice(),
            &job.moved,
            recl,
            begun,
            out,
        ),
        Layout::Unformatted => unreachable!(),
    }
}

/// Writes items by a layout that is no group on a record that begins.
fn write_items(
    page: &mut Page,
    text: &mut Text,
    modes: EditModes,
    layout: &Layout,
    advance: bool,
    items: OutputItems,
) -> Result<(), Unwritten>
    requires layout { IsOfItems layout.now }
    requires within { IsIn page.old text.old }
    requires end { IsAtEnd page.old text.old }
    requires at { page.old.at ≡ 0 }
    ensures done { (moved : Moved) → items_of moved ≡ items_left items.entry
        → Carries (at_hand page.old text.old) (actions_by layout.now (control_of layout.now) modes advance moved) result (at_hand page.new text.new) }
    ensures within { OnOk result (IsIn page.new text.new) }
    ensures kept { Keeps page.old text.old page.new text.new }
{
    match layout {
        Layout::Explicit(format) => write_explicit(page, text, modes, format, advance, items),
        Layout::Listed => put_list(page, text, modes, items),
        Layout::Group(_, _) | Layout::Unformatted => unreachable!(),
    }
}

/// Writes an output by its layout on a record that begins.
fn write_layout(
    page: &mut Page,
    text: &mut Text,
    modes: EditModes,
    layout: &Layout,
    advance: bool,
    moved: &Load,
) -> Result<(), Unwritten>
    requires records { IsRecords layout.now }
    requires grouped { All (IsWithin (length moved.now.cells)) (members_of layout.now) }
    requires within { IsIn page.old text.old }
    requires end { IsAtEnd page.old text.old }
    requires at { page.old.at ≡ 0 }
    ensures done { Carries (at_hand page.old text.old) (actions_by layout.now (control_of layout.now) modes advance moved.now) result (at_hand page.new text.new) }
    ensures within { OnOk result (IsIn page.new text.new) }
    ensures kept { Keeps page.old text.old page.new text.new }
{
    match layout {
        Layout::Group(name, members) => {
            put_cells(page, text, modes, name.bytes(), members.as_slice(), moved)
        }
        Layout::Unformatted | Layout::Explicit(_) | Layout::Listed => {
            write_items(page, text, modes, layout, advance, moved.items())
        }
    }
}

/// How many characters the record at hand has, with so many that stood in the first one before.
fn count_at(page: &Page, text: &Text, end: usize, begun: u32) -> u64
    requires line { page.now.line ≤ length text.now }
    requires end { end ≤ page.now.line }
    ensures { result ≡ (if (length text.now - end) == length (at_hand page.now text.now).line.text then begun else 0)
        + length (at_hand page.now text.now).line.text }
{
    let width = page.width(text);
    let before = if text.bytes().len() - end == width {
        begun
    } else {
        0
    };
    u64::from(before) + width as u64
}

/// What comes of a writing that began behind so many bytes: the count of the record at hand, or what kept it from being
/// written, and then the text is as it was.
fn counted(
    written: Result<(), Unwritten>,
    page: &Page,
    end: usize,
    begun: u32,
    text: &mut Text,
) -> Result<u64, Unwritten>
    requires begin { page.now.begin ≡ end }
    requires within { OnOk written (IsIn page.now text.old) }
    ensures { (limit : ℕ) (actions : List Action) → Carries (first_record limit begun) actions written (at_hand page.now text.old)
        → Prints begun (printed_by limit begun actions) (take end text.old) result text.new }
{
    match written {
        Ok(()) => Ok(count_at(page, text, end, begun)),
        Err(unwritten) => {
            text.truncate(end);
            Err(unwritten)
        }
    }
}

/// The output by a layout after so many characters of an open record, as `print_records` writes it, with its conditions. Answers
/// how many characters the record has that stays open, those before the statement among them.
pub fn print_onto(
    layout: &Layout,
    advance: bool,
    modes: EditModes,
    moved: &Load,
    recl: u32,
    begun: u32,
    out: &mut Text,
) -> Result<u64, Unwritten>
    requires records { IsRecords layout.now }
    requires grouped { All (IsWithin (length moved.now.cells)) (members_of layout.now) }
    ensures { Prints begun (printed_by recl begun (actions_by layout.now (control_of layout.now) modes advance moved.now)) out.old result out.new }
{
    let end = out.len();
    let mut page = Page::new(out, recl, begun);
    let written = write_layout(&mut page, out, modes, layout, advance, moved);
    counted(written, &page, end, begun, out)
}

/// The same of items by a layout that is no group. They are borrowed from where they stand.
pub fn print_items_onto(
    layout: &Layout,
    advance: bool,
    modes: EditModes,
    items: OutputItems,
    recl: u32,
    begun: u32,
    out: &mut Text,
) -> Result<u64, Unwritten>
    requires { IsOfItems layout.now }
    ensures { (moved : Moved) → items_of moved ≡ items_left items.entry
        → Prints begun (printed_by recl begun (actions_by layout.now (control_of layout.now) modes advance moved)) out.old result out.new }
{
    let end = out.len();
    let mut page = Page::new(out, recl, begun);
    let written = write_items(&mut page, out, modes, layout, advance, items);
    counted(written, &page, end, begun, out)
}
