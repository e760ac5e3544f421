// Format control carried out on the items of an output (ISO/IEC 1539-1:2004, 10.3).
ghost use Rattle.std.specs.Prelude.{◌≡◌, ◌≢◌, [], ◌∷◌, List, length, OnOk, Ok};
ghost use Rattle.fj_format.specs.Unfolding as elementary;
ghost use Rattle.fj_line.specs.Page.{at_hand, IsIn, IsAtEnd, Keeps, Carries};
ghost use Rattle.fj_line.specs.Actions.{move, behind};
ghost use Rattle.fj_control.specs.Steps.{Given, gives, no_data};
ghost use Rattle.fj_control.specs.Walk.{given, due, items_behind};
ghost use Rattle.fj_transfer.specs.Explicit.{item_put, explicit_actions};
ghost use Rattle.fj_transfer.specs.Writing.{items_of_writer, actions_left, texts_left, CarriesFirst};

use fj_control::{Cursor, Move, Step, modes_behind};
use fj_edit_out::field;
use fj_format::Format;
use fj_line::{Page, Unwritten};
use fj_moved::{Item, OutputItems};
use fj_value::{Condition, Edit, EditModes, Text};

/// An output under an explicit format.
#[derive(Drop)]
pub struct Writer<'a> {
    pub page: Page,
    pub modes: EditModes,
    pub items: OutputItems<'a>,
    /// A field that is written over others.
    pub field: Text,
}

/// Writes an item's field at the end of the text.
fn add_field(
    page: &mut Page,
    text: &mut Text,
    edit: Edit,
    item: Item,
    modes: EditModes,
) -> Result<(), Unwritten>
    requires { IsAtEnd page.old text.old }
    ensures done { Carries (at_hand page.old text.old) (item_put modes.plus edit (item.entry.kind, item.entry.value.now) ∷ []) result (at_hand page.new text.new) }
    ensures within { OnOk result (IsIn page.new text.new) }
    ensures kept { Keeps page.old text.old page.new text.new }
{
    match field(edit, item.value, item.kind, modes, text)? {
        Condition::Fine => page.take_in(text),
        condition => Err(Unwritten::Met(condition)),
    }
}

/// Writes an item's field at the position.
fn put_field(
    page: &mut Page,
    text: &mut Text,
    edit: Edit,
    item: Item,
    modes: EditModes,
    buffer: &mut Text,
) -> Result<(), Unwritten>
    requires { IsIn page.old text.old }
    ensures done { Carries (at_hand page.old text.old) (item_put modes.plus edit (item.entry.kind, item.entry.value.now) ∷ []) result (at_hand page.new text.new) }
    ensures within { OnOk result (IsIn page.new text.new) }
    ensures kept { Keeps page.old text.old page.new text.new }
{
    if page.is_at_end(text) {
        return add_field(page, text, edit, item, modes);
    }
    buffer.clear();
    match field(edit, item.value, item.kind, modes, buffer)? {
        Condition::Fine => page.put(text, buffer.bytes()),
        condition => Err(Unwritten::Met(condition)),
    }
}

impl<'a> Writer<'a> {
    /// Writes the next item's field.
    pub fn put_item(&mut self, text: &mut Text, edit: Edit) -> Result<(), Unwritten>
        requires { IsIn self.old.page text.old }
        ensures done { (more : List Given) → CarriesFirst (at_hand self.old.page text.old)
            (actions_left self.old (gives (elementary.edit edit) ∷ more)) result (at_hand self.new.page text.new) (actions_left self.new more) }
        ensures texts { (more : List Given) → OnOk result (texts_left text.old self.old (gives (elementary.edit edit) ∷ more) ≡ texts_left text.new self.new more) }
        ensures left { OnOk result (length (items_of_writer self.new) ≡ items_behind (gives (elementary.edit edit)) (length (items_of_writer self.old))) }
        ensures within { OnOk result (IsIn self.new.page text.new) }
        ensures kept { Keeps self.old.page text.old self.new.page text.new }
    {
        let Some(item) = self.items.next() else {
            return Ok(());
        };
        put_field(
            &mut self.page,
            text,
            edit,
            item,
            self.modes,
            &mut self.field,
        )
    }

    /// Moves the position.
    fn go(&mut self, text: &Text, how: Move) -> Result<(), Unwritten>
        requires { IsIn self.old.page text.now }
        ensures page { (at_hand self.new.page text.now ≡ behind (move how) (at_hand self.old.page text.now)) × (self.new ≡ record self.old { page = self.new.page }) }
        ensures ok { result ≡ Ok tt }
        ensures within { IsIn self.new.page text.now }
        ensures begin { self.new.page.begin ≡ self.old.page.begin }
    {
        self.page.go(how, text);
        Ok(())
    }

    /// Carries out a step of format control.
    pub fn carry_out(&mut self, text: &mut Text, step: Step) -> Result<(), Unwritten>
        requires { IsIn self.old.page text.old }
        ensures done { (more : List Given) → CarriesFirst (at_hand self.old.page text.old)
            (actions_left self.old (given step.entry ∷ more)) result (at_hand self.new.page text.new) (actions_left self.new more) }
        ensures texts { given step.entry ≢ gives elementary.slash → (more : List Given) → OnOk result
            (texts_left text.old self.old (given step.entry ∷ more) ≡ texts_left text.new self.new more) }
        ensures ended { given step.entry ≡ gives elementary.slash → (more : List Given) → OnOk result
            (texts_left text.old self.old (gives elementary.slash ∷ more) ≡ (at_hand self.old.page text.old).line.text ∷ texts_left text.new self.new more) }
        ensures left { OnOk result (length (items_of_writer self.new) ≡ items_behind (given step.entry) (length (items_of_writer self.old))) }
        ensures some { OnOk result (given step.entry ≢ no_data) }
        ensures within { OnOk result (IsIn self.new.page text.new) }
        ensures kept { Keeps self.old.page text.old self.new.page text.new }
    {
        match step {
            Step::Edit(edit) => self.put_item(text, edit),
            Step::Slash => self.page.end_record(text),
            Step::Str(chars) => self.page.put(text, chars),
            Step::Tab(n) => self.go(text, Move::To(n)),
            Step::Left(n) => self.go(text, Move::Back(n)),
            Step::Right(n) => self.go(text, Move::Ahead(n)),
            Step::Mode(mode) => {
                self.modes = modes_behind(mode, self.modes);
                Ok(())
            }
            Step::Done => Ok(()),
            Step::NoData => Err(Unwritten::Met(Condition::NO_DESCRIPTOR)),
        }
    }

    /// Carries out all steps of format control.
    pub fn write_steps(&mut self, text: &mut Text, cursor: &mut Cursor) -> Result<(), Unwritten>
        requires { IsIn self.old.page text.old }
        ensures done { Carries (at_hand self.old.page text.old)
            (actions_left self.old (due cursor.old (length (items_of_writer self.old)))) result (at_hand self.new.page text.new) }
        ensures within { OnOk result (IsIn self.new.page text.new) }
        ensures kept { Keeps self.old.page text.old self.new.page text.new }
    {
        loop {
            self.write_run(text, cursor)?;
            match cursor.next(self.items.is_some_left()) {
                Step::Done => return Ok(()),
                step => self.carry_out(text, step)?,
            }
        }
    }

    /// Writes the records under a format.
    pub fn write(
        &mut self,
        text: &mut Text,
        format: &Format,
        advance: bool,
    ) -> Result<(), Unwritten>
        requires { IsIn self.old.page text.old }
        ensures done { Carries (at_hand self.old.page text.old)
            (explicit_actions self.old.modes advance format.now (items_of_writer self.old)) result (at_hand self.new.page text.new) }
        ensures within { OnOk result (IsIn self.new.page text.new) }
        ensures kept { Keeps self.old.page text.old self.new.page text.new }
    {
        let mut cursor = Cursor::new(text.allocator(), format)?;
        self.write_steps(text, &mut cursor)?;
        if advance {
            return self.page.end_record(text);
        }
        Ok(())
    }
}
