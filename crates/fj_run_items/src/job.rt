// A READ or WRITE as a job: its items are moved or copied out of the variables.
ghost use Rattle.std.specs.Prelude.{◌≡◌, ◌≢◌, length, map, true, None, unwrap_or, List, All, Err, IfOk, OnOk};
ghost use Rattle.std.specs.Option.{option_map_or};
ghost use Rattle.fj_moved.specs.declared.moved.Moved.{Moved as MovedCells};
ghost use Rattle.fj_bay.specs.Jobs.{items_for};
ghost use Rattle.fj_bay.specs.Plain.{moving_of as job_of};
ghost use Rattle.fj_namelist.specs.GroupText.{IsWithin};
ghost use Rattle.fj_meaning_jobs.specs.Acting.{moving_of};
ghost use Rattle.fj_meaning.specs.Statement.{control_by};
ghost use Rattle.fj_meaning.specs.Transfers.{layout_of, moved_in, without_values};
ghost use Rattle.fj_statement.specs.Sound.{IsTransfer};
ghost use Rattle.fj_statement.specs.declared.statement.Statement.TheVariants as statement;
ghost use Rattle.fj_store.specs.Storage.{values_of};
ghost use Rattle.fj_store.specs.Variables.{undefined_at};
ghost use Rattle.fj_store.specs.declared.piece.Piece.TheVariants.{Places};
ghost use Rattle.fj_transfer.specs.Moving.{members_of};
ghost use Rattle.fj_run_items.specs.Gathering.{IsNumbered};
ghost use Rattle.fj_run_items.specs.Kinds.{kinds_of};

use crate::collection::{gather, only_run};
use crate::copies::{copied, size_copied};
use crate::layout::{is_grouped, layout_for};
use crate::lost::Lost;
use crate::number::number_given;
use crate::star::edit_of;
use crate::undefined::undefine_size;
use fj_moved::{Load, Moved};
use fj_statement::{Transfer, Variables};
use fj_store::{Piece, Run, Store};
use fj_transfer::{Transfer as Moving, TransferSpec};
use fj_value::{Boxed, Items, Tag};
use std::alloc::Global;
use std::collections::VecDeque;

/// Pieces that are runs alone. `Unfit`: one is a literal.
fn runs_of(alloc: Global, mut pieces: VecDeque<Piece>) -> Result<Items<Run>, Lost>
    ensures runs { IfOk result (λ runs. pieces.items ≡ map Places runs) }
    ensures fits { (runs : List Run) → pieces.items ≡ map Places runs → result ≢ Err Lost.Unfit }
    ensures causes { (result ≢ Err Lost.Disk) × (result ≢ Err Lost.Sink) }
{
    let mut runs = Items::new(alloc);
    'taking: while let Some(piece) = pieces.pop_front() {
        match piece {
            Piece::Places(run) => runs.push(run)?,
            Piece::Own(_, _) => return Err(Lost::Unfit),
        }
    }
    Ok(runs)
}

/// The items, moved out. `Unfit`: one is a literal, or they are too many.
#[inline(always)]
pub(crate) fn taken(
    alloc: Global,
    variables: &Variables,
    store: &mut Store,
    t: &Transfer,
) -> Result<Moved, Lost>
    requires { store.old.kinds ≡ kinds_of variables.now }
    ensures moved { IfOk result (λ moved. moved ≡ moved_in variables.now (values_of store.old) t.now) }
    ensures vars { OnOk result (values_of store.new ≡ undefined_at (moved_in variables.now (values_of store.old) t.now).cells (values_of store.old)) }
    ensures numbered { IfOk result IsNumbered }
    ensures kinds { store.new.kinds ≡ store.old.kinds }
    ensures fits { IsTransfer variables.now t.now → t.now.input ≡ true → result ≢ Err Lost.Unfit }
    ensures causes { (result ≢ Err Lost.Disk) × (result ≢ Err Lost.Sink) }
{
    if let Some(run) = only_run(variables, t) {
        return Ok(store.take_out(alloc, &[run])?);
    }
    let gathered = gather(alloc, variables, t)?;
    let runs = runs_of(alloc, gathered.pieces)?;
    let moved = store.take_out(alloc, runs.as_slice())?;
    Ok(moved)
}

/// The items of a transfer, the cell of SIZE=, and the numbers that REC= and POS= give.
#[derive(Drop)]
struct Parts {
    moved: Load,
    size: Option<Moved>,
    rec: Option<i64>,
    pos: Option<i64>,
}

/// The job of these parts. `Unfit`: a variable of its group has no cells of its own.
#[inline(always)]
fn job_with(
    alloc: Global,
    variables: &Variables,
    line: u32,
    tag: Tag,
    t: &Transfer,
    parts: Parts,
) -> Result<Boxed<Moving>, Lost>
    requires numbered { IsNumbered parts.moved }
    requires single { option_map_or (λ (size : MovedCells). length size.cells) parts.size 1 ≡ 1 }
    ensures job { IfOk result (λ job. job_of job ≡ record {
      stmt = line;
      tag = tag.0;
      spec = record {
        input = t.now.input;
        layout = layout_of variables.now parts.moved.cells t.now.control;
        advance = unwrap_or t.now.advance true;
        rec = parts.rec;
        pos = parts.pos;
        edit = record { blank_zero = t.now.blank_zero; comma = t.now.comma; delim = t.now.delim; pad = t.now.pad; plus = t.now.plus };
      };
      control = control_by (statement.Transfer t.now) (items_for t.now.input parts.moved);
      moved = parts.moved;
      size = parts.size;
      count = None;
    }) }
    ensures fits { All (IsWithin (length parts.moved.cells)) (members_of (layout_of variables.now parts.moved.cells t.now.control)) → result ≢ Err Lost.Unfit }
    ensures causes { (result ≢ Err Lost.Disk) × (result ≢ Err Lost.Sink) }
{
    let layout = layout_for(alloc, variables, &parts.moved, &t.control)?;
    if !is_grouped(parts.moved.len(), &layout) {
        return Err(Lost::Unfit);
    }
    let spec = TransferSpec {
        input: t.input,
        layout,
        advance: t.advance.unwrap_or(true),
        rec: parts.rec,
        pos: parts.pos,
        edit: edit_of(t),
    };
    let moving = Moving {
        stmt: line,
        tag,
        spec,
        moved: parts.moved,
        size: parts.size,
        count: None,
    };
    let job = Boxed::new(alloc, moving)?;
    Ok(job)
}

/// The job of a READ or WRITE of a line, under an identifier, which is 0 where it is not pending. The items of an input are moved
/// out of the variables, and SIZE= is undefined; the values of an output are copied. `Unfit`: the items are too many, one of an
/// input is a literal, or a variable of the group has no cells of its own. After an `Err` the variables have their kinds, and
/// nothing is said of their values.
#[inline(always)]
pub fn moving(
    alloc: Global,
    variables: &Variables,
    store: &mut Store,
    line: u32,
    tag: Tag,
    t: &Transfer,
) -> Result<Boxed<Moving>, Lost>
    requires { store.old.kinds ≡ kinds_of variables.now }
    ensures job { IfOk result (λ job. job_of job ≡ moving_of (control_by (statement.Transfer t.now)) variables.now line tag.0
        (values_of store.old) t.now (moved_in variables.now (values_of store.old) t.now)) }
    ensures vars { OnOk result (values_of store.new
        ≡ without_values variables.now t.now (moved_in variables.now (values_of store.old) t.now) (values_of store.old)) }
    ensures kinds { store.new.kinds ≡ store.old.kinds }
    ensures fits { IsTransfer variables.now t.now → result ≢ Err Lost.Unfit }
    ensures causes { (result ≢ Err Lost.Disk) × (result ≢ Err Lost.Sink) }
{
    let rec = number_given(store, t.rec.as_ref());
    let pos = number_given(store, t.pos.as_ref());
    let size = size_copied(alloc, variables, store, t.size)?;
    if t.input {
        let moved = taken(alloc, variables, store, t)?;
        undefine_size(variables, store, t.size);
        let parts = Parts {
            moved: Load::of_cells(moved),
            size,
            rec,
            pos,
        };
        return job_with(alloc, variables, line, tag, t, parts);
    }
    let copy = copied(alloc, variables, store, t)?;
    let parts = Parts {
        moved: copy,
        size,
        rec,
        pos,
    };
    job_with(alloc, variables, line, tag, t, parts)
}
