// READ and WRITE on an internal file of one element.
ghost use Rattle.std.specs.Prelude.{◌≡◌, ◌≢◌, List, true, false, unwrap_or, None, Err, IfOk};
ghost use Rattle.fj_internal.specs.Internal.{characters_of};
ghost use Rattle.fj_internal.specs.OneElement.{put_one};
ghost use Rattle.fj_meaning.specs.Items.{cell_at, kind_of};
ghost use Rattle.fj_meaning.specs.Statement.{control_by};
ghost use Rattle.fj_meaning.specs.Transfers.{inside, moved_in, spec_in, with_put};
ghost use Rattle.fj_statement.specs.Sound.{IsTransfer};
ghost use Rattle.fj_statement.specs.declared.deck.Variable.{Variable as AnyVariable};
ghost use Rattle.fj_statement.specs.declared.statement.Statement.TheVariants as statement;
ghost use Rattle.fj_statement.specs.declared.unit.InternalFile.TheVariants as file;
ghost use Rattle.fj_store.specs.Storage.{values_of};
ghost use Rattle.fj_store.specs.Variables.{Variables as AnyVariables, value_at};
ghost use Rattle.fj_value.specs.Kind.{text_length};
ghost use Rattle.fj_value.specs.declared.value.Cell.{Cell as AnyCell};
ghost use Rattle.fj_run_items.specs.Inside.{IsPlain, LeavesOne};
ghost use Rattle.fj_run_items.specs.Kinds.{kinds_of};

use crate::assignment::value_of;
use crate::copies::copied;
use crate::job::taken;
use crate::layout::layout_of_items;
use crate::lost::Lost;
use crate::number::kind_of;
use crate::results::give_taken;
use crate::star::{edit_of, lent};
use crate::undefined::undefine_size;
use fj_internal::{One, read_one, write_one};
use fj_statement::{Operand, Transfer, Variables};
use fj_store::Store;
use fj_transfer::TransferSpec;
use fj_value::{Condition, Kind, Place, Text, Value};
use std::alloc::{AllocError, Global};

/// The length of a variable of characters.
fn length_of(variables: &Variables, var: u32) -> u32
    ensures { result ≡ unwrap_or (text_length (kind_of variables.now var)) 0 }
{
    match kind_of(variables, var) {
        Kind::Chars(length) => length,
        Kind::Int4 | Kind::Int8 | Kind::Logical => 0,
    }
}

/// The statement without its unit and its items.
fn spec_of(t: &Transfer) -> Result<TransferSpec, AllocError>
    requires { IsPlain t.now }
    ensures { IfOk result (λ spec. (variables : List AnyVariable) (vars : AnyVariables) (cells : List AnyCell) → spec ≡ spec_in variables vars t.now cells) }
{
    let layout = layout_of_items(&t.control)?;
    Ok(TransferSpec {
        input: t.input,
        layout,
        advance: t.advance.unwrap_or(true),
        rec: None,
        pos: None,
        edit: edit_of(t),
    })
}

/// What becomes of an element of a length. The items are written from where they stand, or from copies.
fn written(
    alloc: Global,
    variables: &Variables,
    store: &mut Store,
    t: &Transfer,
    size: u32,
) -> Result<One, Lost>
    requires kinds { store.old.kinds ≡ kinds_of variables.now }
    requires output { t.now.input ≡ false }
    requires plain { IsPlain t.now }
    ensures one { IfOk result (LeavesOne variables.now (values_of store.old) t.now size) }
    ensures same { store.new ≡ store.old }
    ensures fits { IsTransfer variables.now t.now → result ≢ Err Lost.Unfit }
    ensures causes { (result ≢ Err Lost.Disk) × (result ≢ Err Lost.Sink) }
{
    let spec = spec_of(t)?;
    if let Some(row) = lent(variables, store, t) {
        return Ok(write_one(alloc, size, &spec, row.items())?);
    }
    let moved = copied(alloc, variables, store, t)?;
    Ok(write_one(alloc, size, &spec, moved.items())?)
}

/// Gives an element what becomes of it.
fn put(
    variables: &Variables,
    store: &mut Store,
    place: Place,
    one: One,
) -> Result<Condition, AllocError>
    requires { store.old.kinds ≡ kinds_of variables.now }
    ensures put { IfOk result (λ condition. (values_of store.new, condition)
        ≡ with_put variables.now (values_of store.old) (put_one (cell_at variables.now (values_of store.old) place) one)) }
    ensures kinds { store.new.kinds ≡ store.old.kinds }
{
    let _ = variables;
    match one {
        One::Put(value) => {
            store.set(place, value);
            Ok(Condition::Fine)
        }
        One::Kept(condition) => {
            let value = value_of(store, &Operand::One(place))?;
            store.set(place, value);
            Ok(condition)
        }
    }
}

/// A WRITE on one element, which gets the text that is printed.
pub(crate) fn write_element(
    alloc: Global,
    variables: &Variables,
    store: &mut Store,
    t: &Transfer,
    place: Place,
) -> Result<Condition, Lost>
    requires kinds { store.old.kinds ≡ kinds_of variables.now }
    requires output { t.now.input ≡ false }
    requires plain { IsPlain t.now }
    ensures done { IfOk result (λ condition. (values_of store.new, condition)
        ≡ inside (control_by (statement.Transfer t.now)) variables.now (values_of store.old) t.now (moved_in variables.now (values_of store.old) t.now) (file.One place)) }
    ensures kinds { store.new.kinds ≡ store.old.kinds }
    ensures fits { IsTransfer variables.now t.now → result ≢ Err Lost.Unfit }
    ensures causes { (result ≢ Err Lost.Disk) × (result ≢ Err Lost.Sink) }
{
    let size = length_of(variables, place.var);
    let one = written(alloc, variables, store, t, size)?;
    let condition = put(variables, store, place, one)?;
    Ok(condition)
}

/// The characters of an element, copied.
fn text_at(alloc: Global, store: &Store, place: Place) -> Result<Text, AllocError>
    ensures { IfOk result (λ text. text ≡ characters_of (value_at (values_of store.now) place)) }
{
    match store.read(place) {
        Some(Value::Chars(text)) => Text::from_bytes(alloc, text.bytes()),
        _ => Ok(Text::new(alloc)),
    }
}

/// A READ of one element. The items, which are moved out, have their values or are undefined, and SIZE= gets its count.
pub(crate) fn read_element(
    alloc: Global,
    variables: &Variables,
    store: &mut Store,
    t: &Transfer,
    place: Place,
) -> Result<Condition, Lost>
    requires kinds { store.old.kinds ≡ kinds_of variables.now }
    requires input { t.now.input ≡ true }
    requires plain { IsPlain t.now }
    ensures done { IfOk result (λ condition. (values_of store.new, condition)
        ≡ inside (control_by (statement.Transfer t.now)) variables.now (values_of store.old) t.now (moved_in variables.now (values_of store.old) t.now) (file.One place)) }
    ensures kinds { store.new.kinds ≡ store.old.kinds }
    ensures fits { IsTransfer variables.now t.now → result ≢ Err Lost.Unfit }
    ensures causes { (result ≢ Err Lost.Disk) × (result ≢ Err Lost.Sink) }
{
    let spec = spec_of(t)?;
    let text = text_at(alloc, store, place)?;
    let mut moved = taken(alloc, variables, store, t)?;
    undefine_size(variables, store, t.size);
    let performed = read_one(alloc, text.bytes(), &spec, &mut moved)?;
    give_taken(variables, store, t.size, moved.cells, performed.count);
    Ok(performed.condition)
}
