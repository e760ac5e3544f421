// Fields under a data edit descriptor that comes several times (ISO/IEC 1539-1:2004, 10.3).
ghost use Rattle.std.specs.Prelude.{◌≡◌, ◌+◌, ◌-◌, ◌*◌, ◌^◌, ◌<◌, ◌≤◌, ◌++◌, List, length, take, replicate, IfSome, IfOk, OnOk, None};
ghost use Rattle.fj_value.specs.declared.edit.Edit.TheVariants as edits;
ghost use Rattle.fj_format.specs.Unfolding as elementary;
ghost use Rattle.fj_line.specs.Page.{at_hand, IsIn, IsAtEnd, Keeps};
ghost use Rattle.fj_line.specs.Actions.{Action, carried_out};
ghost use Rattle.fj_line.specs.Records.{texts_from};
ghost use Rattle.fj_control.specs.Steps.{Given, gives};
ghost use Rattle.fj_control.specs.Walk.{due};
ghost use Rattle.fj_edit_out.specs.Item.{integers_in};
ghost use Rattle.fj_transfer.specs.Writing.{items_of_writer, row_of, actions_left, texts_left, CarriesFirst};

use crate::writer::Writer;
use fj_control::Cursor;
use fj_edit_out::integer_fields;
use fj_line::{Page, Unwritten};
use fj_value::{Edit, Kind, Text, Value};
use std::alloc::AllocError;

/// How many characters a row has at the most.
const ROW: usize = 4096;

/// The width of `Iw` where it names no least number of digits and is not 0.
fn row_width(edit: Edit) -> Option<u32>
    ensures { IfSome result (λ w. (edit ≡ edits.Int w None) × (0 < w)) }
{
    match edit {
        Edit::Int { w, m: None } if w > 0 => Some(w),
        _ => None,
    }
}

/// Writes the first integers of a row one after another at the end of the record, and answers how many. Where the record
/// has no room for all of them it writes none.
fn add_row(
    page: &mut Page,
    text: &mut Text,
    w: u32,
    plus: bool,
    kind: Kind,
    values: &[Value],
) -> Result<usize, AllocError>
    requires within { IsIn page.old text.old }
    requires end { IsAtEnd page.old text.old }
    requires some { 0 < w }
    requires short { length values.now * w ≤ 2 ^ 62 }
    ensures few { IfOk result (λ count. count ≤ length (integers_in kind values.now)) }
    ensures done { IfOk result (λ count. (more : List Action) → carried_out (at_hand page.old text.old) (row_of plus w (take count (integers_in kind values.now)) ++ more) ≡ carried_out (at_hand page.new text.new) more) }
    ensures texts { IfOk result (λ count. (more : List Action) → texts_from (at_hand page.old text.old).line (row_of plus w (take count (integers_in kind values.now)) ++ more) ≡ texts_from (at_hand page.new text.new).line more) }
    ensures within { IsIn page.new text.new }
    ensures kept { Keeps page.old text.old page.new text.new }
{
    let end = text.len();
    let count = integer_fields(w, plus, kind, values, text)?;
    let before = *page;
    match page.take_in(text) {
        Ok(()) => Ok(count),
        Err(_) => {
            *page = before;
            text.truncate(end);
            Ok(0)
        }
    }
}

impl<'a> Writer<'a> {
    /// Writes integers that are next under `Iw` one after another, at most so many, and answers how many.
    fn put_row(&mut self, text: &mut Text, edit: Edit, most: usize) -> Result<usize, AllocError>
        requires { IsIn self.old.page text.old }
        ensures few { IfOk result (λ count. count ≤ most) }
        ensures done { IfOk result (λ count. (more : List Given) → carried_out (at_hand self.old.page text.old) (actions_left self.old (replicate count (gives (elementary.edit edit)) ++ more))
            ≡ carried_out (at_hand self.new.page text.new) (actions_left self.new more)) }
        ensures texts { IfOk result (λ count. (more : List Given) → texts_left text.old self.old (replicate count (gives (elementary.edit edit)) ++ more) ≡ texts_left text.new self.new more) }
        ensures left { IfOk result (λ count. length (items_of_writer self.old) ≡ count + length (items_of_writer self.new)) }
        ensures within { IsIn self.new.page text.new }
        ensures kept { Keeps self.old.page text.old self.new.page text.new }
    {
        let Some(w) = row_width(edit) else {
            return Ok(0);
        };
        if !self.page.is_at_end(text) {
            return Ok(0);
        }
        let (kind, ahead) = self.items.ahead();
        let count = most.min(ahead.len()).min(ROW / w as usize);
        let written = add_row(
            &mut self.page,
            text,
            w,
            self.modes.plus,
            kind,
            &ahead[..count],
        )?;
        self.items.pass(written);
        Ok(written)
    }

    /// Writes the fields of so many items under one descriptor.
    fn put_items(&mut self, text: &mut Text, edit: Edit, count: usize) -> Result<(), Unwritten>
        requires { IsIn self.old.page text.old }
        ensures done { (more : List Given) → CarriesFirst (at_hand self.old.page text.old)
            (actions_left self.old (replicate count (gives (elementary.edit edit)) ++ more)) result (at_hand self.new.page text.new) (actions_left self.new more) }
        ensures texts { (more : List Given) → OnOk result (texts_left text.old self.old (replicate count (gives (elementary.edit edit)) ++ more) ≡ texts_left text.new self.new more) }
        ensures left { OnOk result (length (items_of_writer self.new) ≡ length (items_of_writer self.old) - count) }
        ensures within { OnOk result (IsIn self.new.page text.new) }
        ensures kept { Keeps self.old.page text.old self.new.page text.new }
    {
        let mut left = count;
        while left > 0 {
            let row = self.put_row(text, edit, left)?;
            if row > 0 {
                left -= row;
                continue;
            }
            self.put_item(text, edit)?;
            left -= 1;
        }
        Ok(())
    }

    /// Writes the fields of items whose descriptor is next and comes several times, where items are ahead in order.
    pub fn write_run(&mut self, text: &mut Text, cursor: &mut Cursor) -> Result<(), Unwritten>
        requires { IsIn self.old.page text.old }
        ensures done { CarriesFirst (at_hand self.old.page text.old) (actions_left self.old (due cursor.old (length (items_of_writer self.old)))) result
            (at_hand self.new.page text.new) (actions_left self.new (due cursor.new (length (items_of_writer self.new)))) }
        ensures texts { OnOk result (texts_left text.old self.old (due cursor.old (length (items_of_writer self.old)))
            ≡ texts_left text.new self.new (due cursor.new (length (items_of_writer self.new)))) }
        ensures less { OnOk result (length (due cursor.new (length (items_of_writer self.new))) ≤ length (due cursor.old (length (items_of_writer self.old)))) }
        ensures within { OnOk result (IsIn self.new.page text.new) }
        ensures kept { Keeps self.old.page text.old self.new.page text.new }
    {
        match cursor.run(self.items.ahead().1.len()) {
            Some((edit, count)) => self.put_items(text, edit, count),
            None => Ok(()),
        }
    }
}
