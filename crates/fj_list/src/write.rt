// List-directed output.
ghost use Rattle.std.specs.Prelude.{◌≡◌, ◌∷◌, ◌+◌, ◌≤◌, ◌++◌, ◌&&◌, ◌==◌, [], Bool, List, length, take, OnOk, IfOk};
ghost use Rattle.fj_value.specs.declared.value.Value.{Value as AnyValue};
ghost use Rattle.fj_line.specs.Actions.{carried_out, put, end_record};
ghost use Rattle.fj_line.specs.Page.{at_hand, IsIn, IsAtEnd, Keeps, Carries};
ghost use Rattle.fj_moved.specs.Items.{items_left, items_of, values_in};
ghost use Rattle.fj_list.specs.ListText.{gap, is_characters, listed, shown, text_of};
ghost use Rattle.fj_list.specs.Listing.{next_text, width_behind, texts_behind, list_texts, list_actions};
ghost use Rattle.fj_list.specs.ReadAgain.{AreReadAgain};

use crate::row::write_integers;
use crate::shown::{is_characters, push_next, push_value};
use fj_line::{Page, Unwritten};
use fj_moved::{Moved, OutputItems};
use fj_value::{EditModes, Text, Value};
use std::alloc::{AllocError, Global};

/// A record has no more columns, unless its one value is longer.
pub const COLUMNS: usize = 80;

/// Writes a blank at the end of the record.
fn put_blank(page: &mut Page, text: &mut Text) -> Result<(), Unwritten>
    requires { IsAtEnd page.old text.old }
    ensures done { Carries (at_hand page.old text.old) (put (32 ∷ []) ∷ []) result (at_hand page.new text.new) }
    ensures end { OnOk result (IsAtEnd page.new text.new) }
    ensures at { OnOk result (page.new.at ≡ page.old.at + 1) }
    ensures kept { Keeps page.old text.old page.new text.new }
{
    text.push_all(b" ")?;
    page.take_in(text)
}

/// Writes a value at the end of the record.
#[tactic(auto, using(fj_line::proofs::PageLemmas::only_grew))]
fn put_value(
    page: &mut Page,
    text: &mut Text,
    modes: EditModes,
    value: &Value,
) -> Result<(), Unwritten>
    requires { IsAtEnd page.old text.old }
    ensures done { Carries (at_hand page.old text.old) (put (shown modes value.now) ∷ []) result (at_hand page.new text.new) }
    ensures end { OnOk result (IsAtEnd page.new text.new) }
    ensures at { OnOk result (page.new.at ≡ page.old.at + length (shown modes value.now)) }
    ensures kept { Keeps page.old text.old page.new text.new }
{
    push_value(text, modes, value)?;
    page.take_in(text)
}

/// Writes a blank and a value on a record that begins.
fn begin(page: &mut Page, text: &mut Text, modes: EditModes, value: &Value) -> Result<(), Unwritten>
    requires end { IsAtEnd page.old text.old }
    requires at { page.old.at ≡ 0 }
    ensures done { Carries (at_hand page.old text.old) (put (32 ∷ []) ∷ put (shown modes value.now) ∷ []) result (at_hand page.new text.new) }
    ensures end { OnOk result (IsAtEnd page.new text.new) }
    ensures at { OnOk result (page.new.at ≡ 1 + length (shown modes value.now)) }
    ensures kept { Keeps page.old text.old page.new text.new }
{
    put_blank(page, text)?;
    put_value(page, text, modes, value)
}

/// Ends the record and writes a value as the first of a new one.
fn put_first(
    page: &mut Page,
    text: &mut Text,
    modes: EditModes,
    value: &Value,
) -> Result<(), Unwritten>
    requires { IsAtEnd page.old text.old }
    ensures done { Carries (at_hand page.old text.old) (end_record ∷ put (32 ∷ []) ∷ put (shown modes value.now) ∷ []) result (at_hand page.new text.new) }
    ensures end { OnOk result (IsAtEnd page.new text.new) }
    ensures at { OnOk result (page.new.at ≡ 1 + length (shown modes value.now)) }
    ensures kept { Keeps page.old text.old page.new text.new }
{
    page.end_record(text)?;
    begin(page, text, modes, value)
}

/// Writes a value behind another one with what stands between them; or where it would pass the last column, as the first of a
/// new record.
#[tactic(auto, using(fj_line::proofs::PageLemmas::only_grew))]
fn put_next(
    page: &mut Page,
    text: &mut Text,
    modes: EditModes,
    characters: bool,
    value: &Value,
) -> Result<(), Unwritten>
    requires { IsAtEnd page.old text.old }
    ensures done { Carries (at_hand page.old text.old)
        (next_text page.old.at (gap modes characters (is_characters value.now)) (shown modes value.now)) result (at_hand page.new text.new) }
    ensures end { OnOk result (IsAtEnd page.new text.new) }
    ensures at { OnOk result (page.new.at ≡ width_behind page.old.at (gap modes characters (is_characters value.now)) (shown modes value.now)) }
    ensures kept { Keeps page.old text.old page.new text.new }
{
    let end = text.len();
    push_next(text, modes, characters, value)?;
    if page.width(text) <= COLUMNS {
        return page.take_in(text);
    }
    text.truncate(end);
    put_first(page, text, modes, value)
}

/// Writes the first of some values behind another one, as far as they are integers that the record has room for, and answers
/// how many these are.
fn add_row(
    page: &mut Page,
    text: &mut Text,
    modes: EditModes,
    values: &[Value],
) -> Result<usize, AllocError>
    requires { IsAtEnd page.old text.old }
    ensures few { IfOk result (λ count. count ≤ length values.now) }
    ensures done { IfOk result (λ count. (characters : Bool) (more : List AnyValue) →
        carried_out (at_hand page.old text.old) (texts_behind modes page.old.at characters (take count values.now ++ more))
        ≡ carried_out (at_hand page.new text.new) (texts_behind modes page.new.at (characters && (count == 0)) more)) }
    ensures end { OnOk result (IsAtEnd page.new text.new) }
    ensures kept { Keeps page.old text.old page.new text.new }
{
    let width = page.width(text);
    if values.is_empty() || width > COLUMNS {
        return Ok(0);
    }
    let mut columns = [b' '; COLUMNS];
    let row = &mut columns[width..];
    let (count, end) = write_integers(row, modes, values);
    if count == 0 {
        return Ok(0);
    }
    let start = text.len();
    text.push_all(&row[..end])?;
    let before = *page;
    match page.take_in(text) {
        Ok(()) => Ok(count),
        Err(_) => {
            *page = before;
            text.truncate(start);
            Ok(0)
        }
    }
}

/// Writes those of the next items behind another one that are integers of a row for which the record has room, and answers
/// whether the last that was written is of type CHARACTER.
fn put_row(
    page: &mut Page,
    text: &mut Text,
    modes: EditModes,
    characters: bool,
    items: &mut OutputItems,
) -> Result<bool, AllocError>
    requires { IsAtEnd page.old text.old }
    ensures done { IfOk result (λ behind. carried_out (at_hand page.old text.old) (texts_behind modes page.old.at characters (values_in (items_left items.old)))
        ≡ carried_out (at_hand page.new text.new) (texts_behind modes page.new.at behind (values_in (items_left items.new)))) }
    ensures less { OnOk result (length (items_left items.new) ≤ length (items_left items.old)) }
    ensures end { OnOk result (IsAtEnd page.new text.new) }
    ensures kept { Keeps page.old text.old page.new text.new }
{
    let count = add_row(page, text, modes, items.ahead().1)?;
    items.pass(count);
    Ok(characters && count == 0)
}

/// Writes values behind another one.
fn put_rest(
    page: &mut Page,
    text: &mut Text,
    modes: EditModes,
    mut characters: bool,
    mut items: OutputItems,
) -> Result<(), Unwritten>
    requires { IsAtEnd page.old text.old }
    ensures done { Carries (at_hand page.old text.old)
        (texts_behind modes page.old.at characters (values_in (items_left items.entry))) result (at_hand page.new text.new) }
    ensures end { OnOk result (IsAtEnd page.new text.new) }
    ensures kept { Keeps page.old text.old page.new text.new }
{
    while let Some(item) = items.next() {
        put_next(page, text, modes, characters, item.value)?;
        characters = put_row(page, text, modes, is_characters(item.value), &mut items)?;
    }
    Ok(())
}

/// Writes values on a record that begins.
fn put_values(
    page: &mut Page,
    text: &mut Text,
    modes: EditModes,
    mut items: OutputItems,
) -> Result<(), Unwritten>
    requires end { IsAtEnd page.old text.old }
    requires at { page.old.at ≡ 0 }
    ensures done { Carries (at_hand page.old text.old) (list_texts modes (values_in (items_left items.entry))) result (at_hand page.new text.new) }
    ensures end { OnOk result (IsAtEnd page.new text.new) }
    ensures kept { Keeps page.old text.old page.new text.new }
{
    let Some(first) = items.next() else {
        return put_blank(page, text);
    };
    begin(page, text, modes, first.value)?;
    put_rest(page, text, modes, is_characters(first.value), items)
}

/// Writes values as list-directed output on a record that begins (ISO/IEC 1539-1:2004, 10.9.2), and ends the last record.
/// `Unwritten` has the first limit of the page that it meets, `RECORD_TOO_LONG` (15) or `OUTPUT_TOO_LONG` (26), or want of memory.
pub fn put_list(
    page: &mut Page,
    text: &mut Text,
    modes: EditModes,
    items: OutputItems,
) -> Result<(), Unwritten>
    requires end { IsAtEnd page.old text.old }
    requires at { page.old.at ≡ 0 }
    ensures done { Carries (at_hand page.old text.old) (list_actions modes (values_in (items_left items.entry))) result (at_hand page.new text.new) }
    ensures within { OnOk result (IsIn page.new text.new) }
    ensures kept { Keeps page.old text.old page.new text.new }
{
    put_values(page, text, modes, items)?;
    page.end_record(text)
}

/// The records of the items' values.
fn push_records(alloc: Global, moved: &Moved, modes: EditModes) -> Result<Text, AllocError>
    ensures { IfOk result (λ text. text ≡ text_of (listed modes (values_in (items_of moved.now)))) }
{
    let mut text = Text::new(alloc);
    let mut page = Page::unlimited(&text);
    let items = OutputItems::of_cells(moved.cells.as_slice(), moved.order.as_slice());
    match put_list(&mut page, &mut text, modes, items) {
        Ok(()) => Ok(text),
        Err(Unwritten::Memory(error)) => Err(error),
        Err(Unwritten::Met(_)) => unreachable!(),
    }
}

/// The records of the items' values, each with a line feed after it (ISO/IEC 1539-1:2004, 10.9.2). Nothing but want of memory can
/// come.
pub fn write_list(alloc: Global, moved: &Moved, modes: EditModes) -> Result<Text, AllocError>
    ensures text { IfOk result (λ text. text ≡ text_of (listed modes (values_in (items_of moved.now)))) }

    // With delimiters these records are read again as these values.
    ensures again { AreReadAgain modes (values_in (items_of moved.now)) }
{
    push_records(alloc, moved, modes)
}
