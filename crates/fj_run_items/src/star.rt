// The output on unit `*`: its records go to a sink as they end.
ghost use Rattle.std.specs.Prelude.{◌≡◌, ◌≢◌, ◌≤◌, ◌++◌, ◌||◌, [], ◌↔◌, not, false, Err, IsTrue, IfSome, IfOk, OnOk, OnErr, length};
ghost use Rattle.fj_outside.specs.Faults.{Rose};
ghost use Rattle.fj_store.specs.Storage.{values_of};
ghost use Rattle.fj_meaning.specs.Transfers.{moved_in, printed_to, star_limit};
ghost use Rattle.fj_statement.specs.Sound.{IsTransfer};
ghost use Rattle.fj_transfer.specs.Transfer.{is_explicit};
ghost use Rattle.fj_transfer.specs.Printing.{actions_by, control_of, printed_by};
ghost use Rattle.fj_transfer.specs.Writing.{Prints};
ghost use Rattle.fj_run_items.specs.Handing.{open_record, ended_part, printed_on, IsPrinted, HandsOver, HandsFront, HandsPart, TakesFront, TakesPart};
ghost use Rattle.fj_run_items.specs.Kinds.{kinds_of};
ghost use Rattle.fj_run_items.specs.Shown.{IsOfItems, IsShownBy, shown_cells};

use crate::collection::only_run;
use crate::copies::copied;
use crate::layout::{is_grouped, layout_for, layout_of_items};
use crate::lost::Lost;
use crate::refusals::is_formatted;
use crate::sink::put_all;
use fj_line::Unwritten;
use fj_modes::usual_edit;
use fj_moved::Load;
use fj_outside::Sink;
use fj_statement::{Control, Transfer, Variables};
use fj_store::{Lent, Store};
use fj_transfer::{EditChange, Layout, print_items_onto, print_onto};
use fj_value::{Condition, EditModes, Text};
use std::alloc::{AllocError, Global};
use std::marker::Model;
use std::snapshot::Snapshot;

/// The longest record of `*`, in characters.
const STAR_LIMIT: u32 = 65536;

/// A text that is no longer keeps its memory for other characters.
const MOST_KEPT: usize = 65536;

/// Puts other characters in place of a text's own. Its memory is used again, unless it is long.
fn replace_text(text: &mut Text, other: Text) -> Result<(), AllocError>
    ensures { OnOk result (text.new ≡ other) }
{
    if text.len() > MOST_KEPT {
        *text = other;
        return Ok(());
    }
    text.truncate(0);
    text.push_all(other.bytes())
}

/// Whether the last record ends, which ADVANCE='NO' leaves open.
fn ends_record(layout: &Layout, advance: bool) -> bool
    ensures { result ≡ (advance || not (is_explicit layout.now)) }
{
    advance || !matches!(layout, Layout::Explicit(_))
}

/// What a WRITE on `*` prints: the values of a run where they stand, or copies of its items.
#[derive(Drop)]
enum Shown<'a> {
    Lent(Lent<'a>),
    Copied(Load),
}

impl<'a> Shown<'a> {
    /// The output by a layout behind so many characters of an open record, as `print_onto` gives it.
    fn print(
        &self,
        layout: &Layout,
        advance: bool,
        modes: EditModes,
        begun: u32,
        out: &mut Text,
    ) -> Result<u64, Unwritten>
        requires { IsShownBy layout.now self.now }
        ensures { Prints begun (printed_by 65536 begun (actions_by layout.now (control_of layout.now) modes advance (shown_cells self.now))) out.old result out.new }
    {
        match self {
            Shown::Lent(row) => {
                print_items_onto(layout, advance, modes, row.items(), STAR_LIMIT, begun, out)
            }
            Shown::Copied(moved) => {
                print_onto(layout, advance, modes, moved, STAR_LIMIT, begun, out)
            }
        }
    }
}

/// Whether a transfer is formatted and has items, and no group.
pub(crate) fn is_of_items(control: &Control) -> bool
    ensures { IsTrue result ↔ IsOfItems control.now }
{
    match control {
        Control::Explicit(_) | Control::Listed => true,
        Control::Unformatted | Control::Group { .. } => false,
    }
}

/// The items of a formatted WRITE where they stand, where they are one run of a variable and no group.
pub(crate) fn lent<'a>(variables: &Variables, store: &'a Store, t: &Transfer) -> Option<Lent<'a>>
    requires { store.now.kinds ≡ kinds_of variables.now }
    ensures moved { IfSome result (λ row. row ≡ moved_in variables.now (values_of store.now) t.now) }
    ensures items { IfSome result (λ row. IsOfItems t.now.control) }
{
    if !is_of_items(&t.control) {
        return None;
    }
    let run = only_run(variables, t)?;
    store.row(run)
}

/// What was written on unit `*`. The records that ended were handed on; the characters of the one that is open are kept.
#[derive(Drop)]
pub struct Output {
    handed: Vec<Snapshot<Text>>,
    open: Text,
    /// A record is open. It may have no character.
    is_open: bool,
}

impl Model for Output {
    ghost use Rattle.fj_meaning.specs.State.{Output as PlainOutput};
    ghost use Rattle.fj_run_items.specs.Outputs.{output_of};

    ghost Value = { PlainOutput };

    ghost view = { output_of };
}

impl Output {
    /// Nothing was written.
    pub fn new(alloc: Global) -> Output
        ensures { result ≡ record { text = []; begun = 0; is_open = false } }
    {
        Output {
            handed: Vec::new(alloc),
            open: Text::new(alloc),
            is_open: false,
        }
    }

    /// Hands on the record that is open, if there is one, with a line feed behind it: the output ends with it.
    pub fn end_open<W: Sink>(&mut self, out: &mut W) -> Result<(), Lost>
        ensures telling { W.tells out.old ↔ W.tells out.new }
        ensures ok { W.tells out.old → OnOk result (W.taken out.new ≡ W.taken out.old ++ open_record self.old) }
        ensures front { W.tells out.old → TakesFront (W.taken out.old) (W.taken out.new) (open_record self.old) }
        ensures part { W.tells out.old → result ≡ Err Lost.Sink → TakesPart (W.taken out.old) (W.taken out.new) (open_record self.old) }
        ensures later { W.count out.old ≤ W.count out.new }
        ensures failed { result ≡ Err Lost.Sink → Rose (W.count out.old) (W.count out.new) }
        ensures causes { (result ≢ Err Lost.Disk) × (result ≢ Err Lost.Unfit) }
    {
        if !self.is_open {
            return Ok(());
        }
        self.open.push_all(b"\n")?;
        put_all(out, self.open.bytes())
    }

    /// The record that is open is a part of what was written.
    fn open_is_part(&self)
        ensures { self.now.begun ≤ length self.now.text }
    {
        let _ = self.open.len();
    }

    /// Hands on the characters that are kept, but for so many of the last.
    fn hand_on<W: Sink>(&mut self, alloc: Global, out: &mut W, count: usize) -> Result<(), Lost>
        requires { count ≤ self.old.begun }
        ensures new { OnOk result (self.new ≡ record self.old { begun = count }) }
        ensures telling { W.tells out.old ↔ W.tells out.new }
        ensures ok { W.tells out.old → OnOk result (W.taken out.new ≡ W.taken out.old ++ ended_part self.old count) }
        ensures front { W.tells out.old → TakesFront (W.taken out.old) (W.taken out.new) (ended_part self.old count) }
        ensures part { W.tells out.old → result ≡ Err Lost.Sink → TakesPart (W.taken out.old) (W.taken out.new) (ended_part self.old count) }
        ensures later { W.count out.old ≤ W.count out.new }
        ensures failed { result ≡ Err Lost.Sink → Rose (W.count out.old) (W.count out.new) }
        ensures causes { (result ≢ Err Lost.Disk) × (result ≢ Err Lost.Unfit) }
    {
        let end = self.open.len() - count;
        let rest = Text::from_bytes(alloc, &self.open.bytes()[end..])?;
        self.open.truncate(end);
        put_all(out, self.open.bytes())?;
        match self.handed.push(Snapshot::of(&self.open)) {
            Ok(()) => {}
            Err(e) => return Err(AllocError::from(e).into()),
        }
        replace_text(&mut self.open, rest)?;
        Ok(())
    }

    /// The last record has ended, or it stays open.
    fn leave(&mut self, ends: bool)
        ensures { self.new ≡ record self.old { is_open = not ends } }
    {
        self.is_open = !ends;
    }

    /// What a layout prints behind the open record. The records that end are handed on.
    fn print<W: Sink>(
        &mut self,
        alloc: Global,
        out: &mut W,
        layout: &Layout,
        advance: bool,
        modes: EditModes,
        shown: &Shown,
    ) -> Result<Condition, Lost>
        requires { IsShownBy layout.now shown.now }
        ensures printed { IfOk result (λ condition. (self.new, condition)
            ≡ printed_to (advance || not (is_explicit layout.now)) self.old (printed_by 65536 self.old.begun (actions_by layout.now (control_of layout.now) modes advance (shown_cells shown.now)))) }
        ensures telling { W.tells out.old ↔ W.tells out.new }
        ensures taken { W.tells out.old → OnOk result (HandsOver (W.taken out.old) (W.taken out.new) self.old self.new) }
        ensures front { W.tells out.old → OnErr result (HandsFront (W.taken out.old) (W.taken out.new) self.old
            (printed_to (advance || not (is_explicit layout.now)) self.old (printed_by 65536 self.old.begun (actions_by layout.now (control_of layout.now) modes advance (shown_cells shown.now)))).0) }
        ensures part { W.tells out.old → result ≡ Err Lost.Sink → HandsPart (W.taken out.old) (W.taken out.new) self.old
            (printed_to (advance || not (is_explicit layout.now)) self.old (printed_by 65536 self.old.begun (actions_by layout.now (control_of layout.now) modes advance (shown_cells shown.now)))).0 }
        ensures later { W.count out.old ≤ W.count out.new }
        ensures failed { result ≡ Err Lost.Sink → Rose (W.count out.old) (W.count out.new) }
        ensures fits { self.old.begun ≤ 65536 → result ≢ Err Lost.Unfit }
        ensures disk { result ≢ Err Lost.Disk }
    {
        let begun = self.open.len();
        if begun > STAR_LIMIT as usize {
            return Err(Lost::Unfit);
        }
        match shown.print(layout, advance, modes, begun as u32, &mut self.open) {
            Ok(count) => {
                self.hand_on(alloc, out, count as usize)?;
                self.leave(ends_record(layout, advance));
                Ok(Condition::Fine)
            }
            Err(Unwritten::Met(condition)) => Ok(condition),
            Err(Unwritten::Memory(error)) => Err(Lost::Memory(error)),
        }
    }
}

/// The modes that a READ or WRITE names.
pub(crate) fn edit_of(t: &Transfer) -> EditChange
    ensures { result ≡ record { blank_zero = t.now.blank_zero; comma = t.now.comma; delim = t.now.delim; pad = t.now.pad; plus = t.now.plus } }
{
    EditChange {
        blank_zero: t.blank_zero,
        comma: t.comma,
        delim: t.delim,
        pad: t.pad,
        plus: t.plus,
    }
}

/// A WRITE on `*`: the records that it ends are handed to the sink, all at once, and the characters of the one that it leaves open
/// are kept. Answers its condition. `Unfit`: the items are too many, or the open record is longer than its
/// limit. After an `Err` the variables have their kinds, and nothing is said of their values and of the output.
pub fn write_star<W: Sink>(
    alloc: Global,
    variables: &Variables,
    store: &mut Store,
    output: &mut Output,
    out: &mut W,
    t: &Transfer,
) -> Result<Condition, Lost>
    requires { store.old.kinds ≡ kinds_of variables.now }
    ensures printed { IfOk result (λ condition. IsPrinted variables.now (values_of store.old) t.now output.old output.new condition) }
    ensures vars { OnOk result (values_of store.new ≡ values_of store.old) }
    ensures kinds { store.new.kinds ≡ store.old.kinds }
    ensures telling { W.tells out.old ↔ W.tells out.new }
    ensures taken { W.tells out.old → OnOk result (HandsOver (W.taken out.old) (W.taken out.new) output.old output.new) }
    ensures front { W.tells out.old → OnErr result (HandsFront (W.taken out.old) (W.taken out.new) output.old
        (printed_on variables.now (values_of store.old) t.now output.old).0) }
    ensures part { W.tells out.old → result ≡ Err Lost.Sink → HandsPart (W.taken out.old) (W.taken out.new) output.old
        (printed_on variables.now (values_of store.old) t.now output.old).0 }
    ensures later { W.count out.old ≤ W.count out.new }
    ensures failed { result ≡ Err Lost.Sink → Rose (W.count out.old) (W.count out.new) }
    ensures limit { output.old.begun ≤ star_limit → OnOk result (output.new.begun ≤ star_limit) }
    ensures fits { IsTransfer variables.now t.now → output.old.begun ≤ star_limit → result ≢ Err Lost.Unfit }
    ensures disk { result ≢ Err Lost.Disk }
{
    output.open_is_part();
    if t.asynchronous.unwrap_or(false) {
        return Ok(Condition::NOT_ASYNCHRONOUS);
    }
    if !is_formatted(&t.control) {
        return Ok(Condition::UNFIT);
    }
    let modes = edit_of(t).change(usual_edit());
    let advance = t.advance.unwrap_or(true);
    if let Some(row) = lent(variables, store, t) {
        let layout = layout_of_items(&t.control)?;
        return output.print(alloc, out, &layout, advance, modes, &Shown::Lent(row));
    }
    let moved = copied(alloc, variables, store, t)?;
    let layout = layout_for(alloc, variables, &moved, &t.control)?;
    if !is_grouped(moved.len(), &layout) {
        return Err(Lost::Unfit);
    }
    output.print(alloc, out, &layout, advance, modes, &Shown::Copied(moved))
}
