// Output under an explicit format of direct access (ISO/IEC 1539-1:2004, 9.2.2.2 and 10.1): records filled up with blanks.
ghost use Rattle.std.specs.Prelude.{◌≡◌, ◌<◌, ◌≤◌, ◌↔◌, ◌++◌, [], ◌∷◌, true, length, IfOk, OnOk, OnErr, List, ℕ};
ghost use Rattle.fj_value.specs.declared.value.Cell.{Cell};
ghost use Rattle.fj_outside.specs.Faults.{Rose};
ghost use Rattle.fj_span.specs.Change.{KeepsUpToChange};
ghost use Rattle.fj_byterec.specs.Pieces.{filled_to};
ghost use Rattle.fj_byterec.specs.Runs.{run_of};
ghost use Rattle.fj_line.specs.Actions.{end_record};
ghost use Rattle.fj_line.specs.Page.{at_hand, IsIn, Carries};
ghost use Rattle.fj_control.specs.Walk.{due};
ghost use Rattle.fj_moved.specs.Items.{items_of, items_left};
ghost use Rattle.fj_connect.specs.Connection.{begun};
ghost use Rattle.fj_connect.specs.Linked.{connection_of};
ghost use Rattle.fj_transfer.specs.Explicit.{explicit_actions};
ghost use Rattle.fj_transfer.specs.Places.{before_number};
ghost use Rattle.fj_transfer.specs.Printing.{printed_by};
ghost use Rattle.fj_transfer.specs.Transfer.{told_with, output_done, with_pieces, pieces_written};
ghost use Rattle.fj_transfer.specs.Writing.{items_of_writer, texts_left, actions_left, Fills, HasPieces};

use crate::formatted::begun_at;
use crate::room::record_room;
use crate::writer::Writer;
use fj_connect::Connection;
use fj_control::{Cursor, Step};
use fj_format::Format;
use fj_line::{Page, Unwritten};
use fj_modes::{Access, LONGEST_FILE};
use fj_moved::{Load, OutputItems};
use fj_outside::{FileStore, Stop};
use fj_value::{Condition, EditModes, Text};
use std::alloc::{AllocError, Global};

/// Adds the record at hand to others, filled up with blanks.
fn add_piece(page: &Page, text: &Text, recl: u32, run: &mut Text) -> Result<(), AllocError>
    requires { page.now.line ≤ length text.now }
    ensures { OnOk result (run.new ≡ run.old ++ filled_to (at_hand page.now text.now).line.text recl 32) }
{
    let width = page.width(text);
    let start = run.bytes().len();
    let chars = &text.bytes()[text.len() - width..];
    run.push_all(chars)?;
    run.fill_to(start + recl as usize, b' ')
}

impl<'a> Writer<'a> {
    /// Carries out all steps of format control and ends the last record. The records are added to others, each filled up.
    fn write_pieces(
        &mut self,
        text: &mut Text,
        cursor: &mut Cursor,
        recl: u32,
        run: &mut Text,
    ) -> Result<(), Unwritten>
        requires { IsIn self.old.page text.old }
        ensures done { Carries (at_hand self.old.page text.old)
            (actions_left self.old (due cursor.old (length (items_of_writer self.old))) ++ end_record ∷ []) result (at_hand self.new.page text.new) }
        ensures run { OnOk result (run.new ≡ run.old ++ run_of recl 32 (texts_left text.old self.old (due cursor.old (length (items_of_writer self.old))))) }
    {
        loop {
            self.write_run(text, cursor)?;
            match cursor.next(self.items.is_some_left()) {
                Step::Done => {
                    add_piece(&self.page, text, recl, run)?;
                    return self.page.end_record(text);
                }
                Step::Slash => {
                    add_piece(&self.page, text, recl, run)?;
                    self.carry_out(text, Step::Slash)?;
                }
                step => self.carry_out(text, step)?,
            }
        }
    }
}

/// The records of items under an explicit format behind so many characters of a record, one after another, each filled up.
fn fill_records(
    format: &Format,
    modes: EditModes,
    items: OutputItems,
    recl: u32,
    begun: u32,
    run: &mut Text,
) -> Result<(), Unwritten>
    ensures { Fills recl (printed_by recl begun (explicit_actions modes true format.now (items_left items.entry))) run.old result run.new }
{
    let mut text = record_room(run.allocator())?;
    let page = Page::new(&text, recl, begun);
    let mut writer = Writer {
        page,
        modes,
        items,
        field: Text::new(run.allocator()),
    };
    let mut cursor = Cursor::new(run.allocator(), format)?;
    writer.write_pieces(&mut text, &mut cursor, recl, run)
}

/// Puts records that are filled up into the file, from the record of a number on. Error 25, where they would take the file
/// past its limit, leaves the connection.
fn put_pieces<F: FileStore>(
    connection: &mut Connection<F>,
    number: u64,
    run: &[u8],
) -> Result<Condition, Stop>
    requires access { connection.old.modes.access ≡ Access.Direct }
    requires number { 0 < number }
    ensures telling { F.tells connection.old.file ↔ F.tells connection.new.file }
    ensures written { F.tells connection.old.file → (cells : List Cell) → (records : List (List ℕ)) → HasPieces connection.old.modes.recl records run.now → IfOk result (λ condition.
        told_with (connection_of F.bytes connection.new) cells condition
        ≡ output_done (connection_of F.bytes connection.old) cells (with_pieces records (before_number (connection_of F.bytes connection.old) number)) 0) }
    ensures stopped { F.tells connection.old.file → (cells : List Cell) → (records : List (List ℕ)) → HasPieces connection.old.modes.recl records run.now → OnErr result (KeepsUpToChange (F.bytes connection.old.file)
        (output_done (connection_of F.bytes connection.old) cells (with_pieces records (before_number (connection_of F.bytes connection.old) number)) 0).connection.bytes
        (F.bytes connection.new.file)) }

    // Told or not.
    ensures modes { connection.new.modes ≡ connection.old.modes }
    ensures name { connection.new.name ≡ connection.old.name }
    ensures later { F.count connection.old.file ≤ F.count connection.new.file }
    ensures failed { result ≡ Err Stop.Failed → Rose (F.count connection.old.file) (F.count connection.new.file) }
{
    let recl = u64::from(connection.modes().recl);
    let size = connection.file_len();
    prove!(recl > 0 && size <= LONGEST_FILE);
    if number > LONGEST_FILE {
        return Ok(Condition::FILE_TOO_LONG);
    }
    let start = (number - 1) * recl;
    let long = run.len() as u64;
    if start + long > LONGEST_FILE {
        return Ok(Condition::FILE_TOO_LONG);
    }
    let last = number + long / recl - 1;
    connection.put_direct_run(start, run, last, b' ')?;
    Ok(Condition::Fine)
}

/// Writes the records of an output under an explicit format, from the record of a number on, counted from 1, each filled up with
/// blanks (ISO/IEC 1539-1:2004, 9.2.2.2 and 10.1). An error is one of `print_records`, or `FILE_TOO_LONG` (25), and leaves the
/// connection.
pub fn write_numbered<F: FileStore>(
    alloc: Global,
    connection: &mut Connection<F>,
    number: u64,
    format: &Format,
    modes: EditModes,
    moved: &Load,
) -> Result<Condition, Stop>
    requires access { connection.old.modes.access ≡ Access.Direct }
    requires number { 0 < number }
    ensures telling { F.tells connection.old.file ↔ F.tells connection.new.file }
    ensures written { F.tells connection.old.file → let old = connection_of F.bytes connection.old in
        IfOk result (λ condition. told_with (connection_of F.bytes connection.new) moved.now.cells condition
        ≡ pieces_written old (before_number old number) moved.now.cells
        (printed_by old.modes.recl (begun old) (explicit_actions modes true format.now (items_of moved.now)))) }
    ensures stopped { F.tells connection.old.file → let old = connection_of F.bytes connection.old in
        OnErr result (KeepsUpToChange (F.bytes connection.old.file)
        (pieces_written old (before_number old number) moved.now.cells
        (printed_by old.modes.recl (begun old) (explicit_actions modes true format.now (items_of moved.now)))).connection.bytes (F.bytes connection.new.file)) }

    // Told or not.
    ensures modes { connection.new.modes ≡ connection.old.modes }
    ensures name { connection.new.name ≡ connection.old.name }
    ensures later { F.count connection.old.file ≤ F.count connection.new.file }
    ensures failed { result ≡ Err Stop.Failed → Rose (F.count connection.old.file) (F.count connection.new.file) }
{
    let recl = connection.modes().recl;
    let begun = begun_at(connection, None);
    let items = moved.items();
    let mut run = record_room(alloc)?;
    match fill_records(format, modes, items, recl, begun, &mut run) {
        Ok(()) => put_pieces(connection, number, run.bytes()),
        Err(Unwritten::Met(condition)) => Ok(condition),
        Err(Unwritten::Memory(error)) => Err(Stop::Memory(error)),
    }
}
